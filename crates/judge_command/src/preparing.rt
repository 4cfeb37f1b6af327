//! What `judge` reads, and what it takes from that.
ghost use Rattle.std.specs.Prelude.{IfOk};
ghost use Rattle.asked_service.specs.host_io.Agreeing.{ForFiles};
ghost use Rattle.asked_service.specs.unit_inputs.command_answers.Asking.{course};
ghost use Rattle.asked_service.specs.unit_inputs.command_answers.CommandErrors.{Prepares};
ghost use Rattle.asked_service.specs.unit_inputs.Asking.{AsksInOrder, input_asks};
ghost use Rattle.asked_service.specs.unit_inputs.ReadsFor.{ReadsFor};
ghost use Rattle.asked_service.specs.unit_inputs.Settled.{unit_refusals};
ghost use Rattle.asked_service.specs.launching.Settled.{IsSettled};
ghost use Rattle.judge_command.specs.Prepared.{IsPrepared};

use asked_service::{CommandError, SettledUnit, read_inputs, settle};
use host_io::Shelf;
use std::alloc::Global;

/// Reads the unit, calls.txt and site.toml, and finds the first refusal of them and of the settings.
pub fn prepare<S: Shelf>(
    alloc: Global,
    shelf: &mut S,
    unit: &str,
) -> Result<SettledUnit, CommandError>
    ensures prepares { ForFiles (S.agrees shelf.new) (λ files. Prepares (IsPrepared files unit.now) (unit_refusals files unit.now) result) }
    ensures is_settled { IfOk result IsSettled }
    ensures asks_in_order { AsksInOrder S.asks (S.agrees shelf.new) (λ files. input_asks files unit.now) shelf.old shelf.new (course result) }
    ensures reads_for_the_unit { ReadsFor S.agrees S.faults unit.now shelf.old shelf.new result }
{
    let inputs = read_inputs(alloc, shelf, unit)?;
    settle(alloc, unit, inputs)
}
