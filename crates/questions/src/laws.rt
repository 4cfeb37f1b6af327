//! The laws of the list of questions. Each is the contract of a function that does nothing.

ghost use Rattle.questions.specs.Listed.{ListsWhatIsAsked, StandInOrder, IdsAscendOnce};

/// The list has each question of its kind that has a thing to be asked of, and no other.
pub fn members()
    ensures exactly_what_is_asked { ListsWhatIsAsked }
{}

/// The kinds follow in their order, and the questions of one kind in the order of their numbers. So no question occurs twice.
pub fn order()
    ensures each_before_the_later_ones { StandInOrder }
{}

/// Ids that are put in order are the same ids, ascending, each once.
pub fn ids()
    ensures ascend_each_once { IdsAscendOnce }
{}
