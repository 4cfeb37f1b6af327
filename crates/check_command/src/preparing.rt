//! What `check` reads, and what it takes from that.
ghost use Rattle.std.specs.Prelude.{IfOk};
ghost use Rattle.unit_inputs.specs.host_io.Agreeing.{ForFiles};
ghost use Rattle.unit_inputs.specs.command_answers.Asking.{course};
ghost use Rattle.unit_inputs.specs.Asking.{AsksInOrder, asks_with_file};
ghost use Rattle.unit_inputs.specs.ReadsFor.{ReadsFor};
ghost use Rattle.unit_inputs.specs.Settled.{AreSettled};
ghost use Rattle.check_command.specs.Prepared.{IsPrepared, inputs_in};

use crate::programs::read_program;
use filter_check::Program;
use host_io::Shelf;
use std::alloc::Global;
use unit_inputs::command_answers::CommandError;
use unit_inputs::{SettledUnit, read_inputs, settle};

/// All that a comparison is made from.
#[derive(Drop)]
pub struct Prepared {
    /// The unit with its settings.
    pub unit: SettledUnit,
    /// The program of the file.
    pub program: Program,
}

/// Reads the unit, calls.txt, site.toml and the file, and finds the first refusal of them and of the settings.
pub fn read_all<S: Shelf>(
    alloc: Global,
    shelf: &mut S,
    unit: &str,
    path: &str,
) -> Result<Prepared, CommandError>
    ensures prepares { ForFiles (S.agrees shelf.new) (λ files. IsPrepared files unit.now path.now result) }
    ensures settled { IfOk result (λ prepared. AreSettled (inputs_in prepared) prepared.unit.settings.value) }
    ensures asks_in_order { AsksInOrder S.asks (S.agrees shelf.new) (λ files. asks_with_file files unit.now path.now) shelf.old shelf.new (course result) }
    ensures reads_for_the_unit { ReadsFor S.agrees S.faults unit.now shelf.old shelf.new result }
{
    let inputs = read_inputs(alloc, shelf, unit)?;
    let made = read_program(alloc, shelf, path)?;
    let one = settle(alloc, unit, inputs)?;
    Ok(Prepared {
        unit: one,
        program: made,
    })
}
