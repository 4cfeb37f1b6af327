//! The command `plan` and the name of a unit.
ghost use Rattle.unit_inputs.specs.command_answers.Asking.{course};
ghost use Rattle.unit_inputs.specs.command_answers.Laws.{IsAdmitted, laws_over};
ghost use Rattle.unit_inputs.specs.Asking.{AsksInOrder, input_asks};
ghost use Rattle.unit_inputs.specs.ReadsFor.{ReadsFor};
ghost use Rattle.plan_command.specs.Prints.{status_of, mounts_text, plan_laws};

use crate::lines::count_line;
use crate::planning::plan_mounts;
use crate::printing::print_mounts;
use host_io::{Shelf, Sink, SinkError};
use mount_plan::MountSteps;
use std::alloc::Global;
use unit_inputs::command_answers::{CommandError, ExitStatus, Ready, put_line};
use unit_inputs::settle_unit;

/// The mounts of a unit, ready to be printed.
#[derive(Drop)]
pub struct Mounts {
    pub table: MountSteps,
}

impl Ready for Mounts {
    ghost use Rattle.plan_command.specs.Prints.{status_of, mounts_text};

    ghost text = { mounts_text };

    ghost status = { status_of };

    fn status(&self) -> ExitStatus {
        ExitStatus::Done
    }

    fn print<K: Sink>(&mut self, alloc: Global, out: &mut K) -> Result<(), SinkError> {
        let steps = self.table.list();
        print_mounts(alloc, steps, out)?;
        put_line(out, count_line(alloc, steps.len()))
    }
}

/// Prepares `plan` and the name of a unit: reads the unit, calls.txt and site.toml, finds the first refusal of them, of the
/// settings and of the paths that they mention, and plans the mounts.
pub fn prepare<S: Shelf>(alloc: Global, shelf: &mut S, unit: &str) -> Result<Mounts, CommandError>
    ensures prepares { IsAdmitted (laws_over (S.agrees shelf.new) (plan_laws unit.now)) status_of mounts_text result }
    ensures asks_in_order { AsksInOrder S.asks (S.agrees shelf.new) (λ files. input_asks files unit.now) shelf.old shelf.new (course result) }
    ensures reads_for_the_unit { ReadsFor S.agrees S.faults unit.now shelf.old shelf.new result }
{
    let one = settle_unit(alloc, shelf, unit)?;
    let table = plan_mounts(alloc, unit, &one.settings.mentions, &one.inputs.site)?;
    Ok(Mounts { table })
}
