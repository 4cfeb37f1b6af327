//! The command `judge` and the name of a unit.
ghost use Rattle.std.specs.Prelude.{◌≡◌, IsSome};
ghost use Rattle.asked_service.specs.host_io.Agreeing.{ForFiles};
ghost use Rattle.asked_service.specs.unit_names.Cutting.{name_of};
ghost use Rattle.asked_service.specs.unit_inputs.Asking.{AsksInOrder, input_asks};
ghost use Rattle.asked_service.specs.unit_inputs.command_answers.Asking.{course_of_run};
ghost use Rattle.asked_service.specs.unit_inputs.command_answers.Laws.{laws_over};
ghost use Rattle.asked_service.specs.unit_inputs.command_answers.Printing.{output_of};
ghost use Rattle.asked_service.specs.unit_inputs.command_answers.Runs.{IsRun};
ghost use Rattle.asked_service.specs.launching.Settled.{IsSettled};
ghost use Rattle.judge_command.specs.Prints.{judge_laws};
ghost use Rattle.judge_command.specs.Started.{FinishesStarted};

use crate::launching::{start, status_behind};
use crate::preparing::prepare;
use crate::printing::print_report;
use asked_service::{ExitStatus, SettledUnit, finish_error, status_after, truths};
use host_io::{Shelf, Sink};
use std::alloc::Global;

// Launches what is prepared and prints the report, or the line of the path that is refused.
fn answer_prepared<K: Sink>(alloc: Global, unit: &str, one: &SettledUnit, out: &mut K) -> ExitStatus
    requires settled { IsSettled one.now }
    ensures finishes { FinishesStarted unit.now one.now result (output_of K.faults K.taken K.puts out.old out.new) }
{
    match start(alloc, unit, one) {
        Ok(outcome) => {
            let status = status_behind(&outcome);
            let put = print_report(alloc, unit, one, &outcome, out);
            status_after(put, status)
        }
        Err(stop) => finish_error(stop, out),
    }
}

/// Runs `judge` for the name of a unit. It reads the unit, calls.txt and site.toml, and finds the first refusal of
/// them, of the settings and of the paths that they mention. It launches the service, asks every question, and prints
/// each answer as it is found: denied if no list of calls reaches the question, and otherwise open, above a list that
/// does.
pub fn answer<S: Shelf, K: Sink>(
    alloc: Global,
    shelf: &mut S,
    unit: &str,
    out: &mut K,
) -> ExitStatus
    ensures runs { IsRun (laws_over (S.agrees shelf.new) (judge_laws unit.now)) result
        (record { shelf_before = S.faults shelf.old; shelf_after = S.faults shelf.new; sink = output_of K.faults K.taken K.puts out.old out.new }) }
    ensures asks_in_order { AsksInOrder S.asks (S.agrees shelf.new) (λ files. input_asks files unit.now) shelf.old shelf.new (course_of_run result) }
    ensures unread_without_a_name { (IsSome (name_of unit.now) → ⊥) → shelf.new ≡ shelf.old }
    ensures answers_stay { ForFiles (S.agrees shelf.new) (S.agrees shelf.old) }
{
    // Why the answers are true.
    truths();
    match prepare(alloc, shelf, unit) {
        Ok(one) => answer_prepared(alloc, unit, &one, out),
        Err(stop) => finish_error(stop, out),
    }
}
