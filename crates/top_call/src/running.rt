//! The top call.
ghost use Rattle.std.specs.Prelude.{◌≡◌, IfSome};
ghost use Rattle.std.specs.Option.{option_map};
ghost use Rattle.derive_command.specs.host_io.Agreeing.{ForFiles};
ghost use Rattle.derive_command.specs.unit_inputs.command_answers.Asking.{course_of_run};
ghost use Rattle.derive_command.specs.unit_inputs.command_answers.Runs.{IsRun};
ghost use Rattle.derive_command.specs.unit_inputs.Asking.{AsksInOrder};
ghost use Rattle.top_call.specs.Around.{around};
ghost use Rattle.top_call.specs.Asked.{asked, asks_by, asks_for, laws_by, laws_for};
ghost use Rattle.top_call.specs.Promise.{DoesWhatIsAsked};
ghost use Rattle.top_call.specs.Requests.{IsNumbered, request_of};

use crate::request::{Request, parse};
use crate::status::Status;
use crate::texts;
use host_io::{Shelf, Sink};
use plan_command::{ExitStatus, finish};
use score_command::{CustomTest, Stored};
use std::alloc::Global;
use tighten_command::tightening::{StoredWish, Wished};

// Prepares what is requested, and prints it.
fn answer_request<S: Shelf, K: Sink>(
    alloc: Global,
    request: Request,
    shelf: &mut S,
    out: &mut K,
    tests: &[CustomTest],
    wishes: &[StoredWish],
) -> ExitStatus
    requires numbered { IsNumbered request }
    ensures runs { IsRun (laws_for (request_of request.entry) (S.agrees shelf.new) (⟦<CustomTest as Stored>⟧.stored tests.now) (⟦<StoredWish as Wished>⟧.wished wishes.now))
        result (around S.faults K.faults K.taken K.puts shelf.old shelf.new out.old out.new) }
    ensures reads_in_order { AsksInOrder S.asks (S.agrees shelf.new) (asks_for (request_of request.entry) (⟦<CustomTest as Stored>⟧.stored tests.now))
        shelf.old shelf.new (course_of_run result) }
    ensures reads_only_for_it { ((laws_for (request_of request.entry) (S.agrees shelf.new) (⟦<CustomTest as Stored>⟧.stored tests.now) (⟦<StoredWish as Wished>⟧.wished wishes.now)).reads → ⊥)
        → shelf.new ≡ shelf.old }
    ensures answers_stay { ForFiles (S.agrees shelf.new) (S.agrees shelf.old) }
{
    match request {
        Request::Help => finish(alloc, Ok(texts::help()), out),
        Request::Version => finish(alloc, Ok(texts::version()), out),
        Request::Filter(unit) => finish(alloc, filter_command::prepare(alloc, shelf, unit), out),
        Request::Plan(unit) => finish(alloc, plan_command::prepare(alloc, shelf, unit), out),
        Request::Judge(unit) => judge_command::answer(alloc, shelf, unit, out),
        Request::Replay(unit, script) => replay_command::answer(alloc, shelf, unit, script, out),
        Request::Derive(unit, script) => finish(
            alloc,
            derive_command::prepare(alloc, shelf, unit, script),
            out,
        ),
        Request::Effect(unit, dropin) => finish(
            alloc,
            effect_command::prepare(alloc, shelf, unit, dropin),
            out,
        ),
        Request::Tighten(unit, keep) => finish(
            alloc,
            tighten_command::prepare(alloc, shelf, unit, keep, wishes),
            out,
        ),
        Request::Why(unit, words) => {
            finish(alloc, why_command::prepare(alloc, shelf, unit, words), out)
        }
        Request::Lines(unit) => finish(
            alloc,
            why_command::lines_command::prepare(alloc, shelf, unit),
            out,
        ),
        Request::Score(unit, policy, threshold) => finish(
            alloc,
            score_command::prepare(alloc, shelf, unit, policy, threshold, tests),
            out,
        ),
        Request::Check(unit, name, path) => finish(
            alloc,
            check_command::prepare(alloc, shelf, unit, name, path),
            out,
        ),
        Request::Fleet(policy) => finish(
            alloc,
            score_command::fleet_command::prepare(alloc, shelf, policy, tests),
            out,
        ),
        Request::Sample(number) => finish(alloc, sample_command::prepare(alloc, number), out),
    }
}

// The same, where the words are a command.
fn answer<S: Shelf, K: Sink>(
    alloc: Global,
    request: Option<Request>,
    shelf: &mut S,
    out: &mut K,
    tests: &[CustomTest],
    wishes: &[StoredWish],
) -> ExitStatus
    requires numbered { IfSome request IsNumbered }
    ensures runs { IsRun (laws_by (option_map request_of request.entry) (S.agrees shelf.new) (⟦<CustomTest as Stored>⟧.stored tests.now) (⟦<StoredWish as Wished>⟧.wished wishes.now))
        result (around S.faults K.faults K.taken K.puts shelf.old shelf.new out.old out.new) }
    ensures reads_in_order { AsksInOrder S.asks (S.agrees shelf.new) (asks_by (option_map request_of request.entry) (⟦<CustomTest as Stored>⟧.stored tests.now))
        shelf.old shelf.new (course_of_run result) }
    ensures reads_only_for_it { ((laws_by (option_map request_of request.entry) (S.agrees shelf.new) (⟦<CustomTest as Stored>⟧.stored tests.now) (⟦<StoredWish as Wished>⟧.wished wishes.now)).reads → ⊥)
        → shelf.new ≡ shelf.old }
    ensures answers_stay { ForFiles (S.agrees shelf.new) (S.agrees shelf.old) }
{
    match request {
        None => finish(alloc, Ok(texts::no_command()), out),
        Some(request) => answer_request(alloc, request, shelf, out, tests, wishes),
    }
}

/// Does what the words ask for: prepares it over the shelf, and prints it to the sink.
///
/// The words follow the program's name. The tests are stored tests that a score may ask besides the settings, and the wishes
/// are what a tightened unit must grant. The status says how the run ended: with 0, 1, 2, 3, 7 and 8 a whole text was printed,
/// with 4 nothing, and with 5 and 6 a prefix of a text. The sink receives each line, with its line feed, as one piece.
///
/// What was read is what is promised: the text is right for every map from paths to bytes that agrees with the answers of the
/// shelf in this run. The run makes exactly the calls that such a map requires, in order, up to the first that is refused or fails.
/// Each answer is checked before the next call.
pub fn run<S: Shelf, K: Sink>(
    alloc: Global,
    words: &[&str],
    shelf: &mut S,
    out: &mut K,
    tests: Vec<CustomTest>,
    wishes: Vec<StoredWish>,
) -> Status
    ensures does_what_is_asked { DoesWhatIsAsked S.asks
        (asked words.now (S.agrees shelf.new) (⟦<CustomTest as Stored>⟧.stored tests.items) (⟦<StoredWish as Wished>⟧.wished wishes.items))
        (around S.faults K.faults K.taken K.puts shelf.old shelf.new out.old out.new)
        shelf.old shelf.new result }
    ensures answers_stay { ForFiles (S.agrees shelf.new) (S.agrees shelf.old) }
{
    Status::of(answer(alloc, parse(words), shelf, out, &tests, &wishes))
}
