//! The command `replay`, the name of a unit and the path of a script.
ghost use Rattle.std.specs.Prelude.{◌≡◌, IsSome};
ghost use Rattle.asked_service.specs.host_io.Agreeing.{ForFiles};
ghost use Rattle.asked_service.specs.unit_names.Cutting.{name_of};
ghost use Rattle.asked_service.specs.unit_inputs.Asking.{AsksInOrder, asks_with_file};
ghost use Rattle.asked_service.specs.unit_inputs.command_answers.Asking.{course_of_run};
ghost use Rattle.asked_service.specs.unit_inputs.command_answers.Laws.{laws_over};
ghost use Rattle.asked_service.specs.unit_inputs.command_answers.Printing.{output_of};
ghost use Rattle.asked_service.specs.unit_inputs.command_answers.Runs.{IsRun};
ghost use Rattle.replay_command.specs.Prepared.{CanBeStarted};
ghost use Rattle.replay_command.specs.Prints.{replay_laws};
ghost use Rattle.replay_command.specs.Started.{FinishesStarted};

use crate::launching::start;
use crate::preparing::{Prepared, prepare};
use asked_service::{ExitStatus, finish, finish_error};
use host_io::{Shelf, Sink};
use std::alloc::Global;

// Launches what is prepared and prints its replay, or the line of the path that is refused.
fn answer_prepared<K: Sink>(
    alloc: Global,
    unit: &str,
    prepared: &Prepared,
    out: &mut K,
) -> ExitStatus
    requires can_be_started { CanBeStarted prepared.now }
    ensures finishes { FinishesStarted unit.now prepared.now result (output_of K.faults K.taken K.puts out.old out.new) }
{
    finish(alloc, start(alloc, unit, prepared), out)
}

/// Runs `replay` for the name of a unit and the path of a script. It reads the unit, calls.txt, site.toml and the
/// script, and finds the first refusal of them, of the settings and of the paths that they mention. It launches the
/// service, and makes the calls of the script in its world, each with a line.
pub fn answer<S: Shelf, K: Sink>(
    alloc: Global,
    shelf: &mut S,
    unit: &str,
    script: &str,
    out: &mut K,
) -> ExitStatus
    ensures runs { IsRun (laws_over (S.agrees shelf.new) (replay_laws unit.now script.now)) result
        (record { shelf_before = S.faults shelf.old; shelf_after = S.faults shelf.new; sink = output_of K.faults K.taken K.puts out.old out.new }) }
    ensures asks_in_order { AsksInOrder S.asks (S.agrees shelf.new) (λ files. asks_with_file files unit.now script.now) shelf.old shelf.new (course_of_run result) }
    ensures unread_without_a_name { (IsSome (name_of unit.now) → ⊥) → shelf.new ≡ shelf.old }
    ensures answers_stay { ForFiles (S.agrees shelf.new) (S.agrees shelf.old) }
{
    match prepare(alloc, shelf, unit, script) {
        Ok(prepared) => answer_prepared(alloc, unit, &prepared, out),
        Err(stop) => finish_error(stop, out),
    }
}
