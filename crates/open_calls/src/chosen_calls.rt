//! Defines which list of calls is printed below an open question, with the laws that it shows the question and who
//! makes its calls.
//!
//! The module has no code: the function's contract is a law over the definitions in `specs/`. `kernel_ways` has the
//! laws of what each call does; `open_calls` makes the lists.

ghost use Rattle.open_calls.specs.chosen_calls.Laws.{ChoiceIsMade, ChoiceShows};

/// After a launch of a unit's settings, the calls that are chosen for an open question are all done and show it.
/// Process 1 makes them. One call alone may be its child's: the one after a clone(2) with CLONE_NEWUSER.
pub fn choices()
    ensures shown { ChoiceShows }
    ensures made { ChoiceIsMade }
{}
