//! The command `filter` and the name of a unit.
ghost use Rattle.std.specs.Prelude.{IfOk, IsErrOf};
ghost use Rattle.std.specs.List.{All};
ghost use Rattle.launcher.specs.call_rules.Sizes.{CanCompile};
ghost use Rattle.unit_inputs.specs.command_answers.Asking.{course};
ghost use Rattle.unit_inputs.specs.command_answers.Laws.{IsAdmitted, laws_over};
ghost use Rattle.unit_inputs.specs.command_answers.CommandErrors.{RefusesNothing};
ghost use Rattle.unit_inputs.specs.Asking.{AsksInOrder, input_asks};
ghost use Rattle.unit_inputs.specs.ReadsFor.{ReadsFor};
ghost use Rattle.launcher.specs.Answers.{AreProgramsOf};
ghost use Rattle.filter_command.specs.Prints.{status_of, filter_laws, filters_text};

use crate::lines::count_line;
use crate::printing::print_filters;
use host_io::{Shelf, Sink, SinkError};
use launcher::{Filter, FilterPrograms, compile_all};
use std::alloc::Global;
use unit_inputs::command_answers::{CommandError, ExitStatus, Ready, put_line};
use unit_inputs::settle_unit;

/// The compiled filters of a unit, ready to be printed.
#[derive(Drop)]
pub struct Filters {
    pub programs: FilterPrograms,
}

impl Ready for Filters {
    ghost use Rattle.launcher.specs.Answers.{AreProgramsOf};
    ghost use Rattle.filter_command.specs.Prints.{status_of, filters_text};

    ghost text = { filters_text };

    ghost status = { status_of };

    fn print<K: Sink>(&mut self, alloc: Global, out: &mut K) -> Result<(), SinkError> {
        let filters = self.programs.list();
        print_filters(alloc, filters, out)?;
        put_line(out, count_line(alloc, filters.len()))
    }

    fn status(&self) -> ExitStatus {
        ExitStatus::Done
    }
}

// The programs of these filters.
fn compiled(alloc: Global, filters: &[Filter]) -> Result<Filters, CommandError>
    requires can_be_compiled { All (λ one. CanCompile one.rules) filters.now }
    ensures compiles { IfOk result (λ made. AreProgramsOf filters.now made.programs) }
    ensures refuses_nothing { RefusesNothing result }
    ensures reads_nothing { IsErrOf result CommandError.ReadFault → ⊥ }
{
    match compile_all(alloc, filters) {
        Ok(programs) => Ok(Filters { programs }),
        Err(_) => Err(CommandError::Memory),
    }
}

/// Prepares `filter` and the name of a unit: reads the unit, calls.txt and site.toml, finds the first refusal of them and of
/// the settings, and compiles the filters.
pub fn prepare<S: Shelf>(alloc: Global, shelf: &mut S, unit: &str) -> Result<Filters, CommandError>
    ensures prepares { IsAdmitted (laws_over (S.agrees shelf.new) (filter_laws unit.now)) status_of filters_text result }
    ensures asks_in_order { AsksInOrder S.asks (S.agrees shelf.new) (λ files. input_asks files unit.now) shelf.old shelf.new (course result) }
    ensures reads_for_the_unit { ReadsFor S.agrees S.faults unit.now shelf.old shelf.new result }
{
    let one = settle_unit(alloc, shelf, unit)?;
    compiled(alloc, one.settings.filters.as_slice())
}
