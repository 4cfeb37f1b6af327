//! A report of all units, ready to be printed.

use crate::fleet_command::fleet_report::FleetRow;
use crate::fleet_command::printing::print_fleet;
use host_io::{Sink, SinkError};
use std::alloc::Global;
use unit_inputs::command_answers::{ExitStatus, Ready};

/// What came of all units.
#[derive(Drop)]
pub struct Fleet {
    /// A row for each unit, in their order.
    pub rows: Vec<FleetRow>,
}

impl Ready for Fleet {
    ghost use Rattle.score_command.specs.fleet_command.Prints.{status_of, text_of};

    ghost text = { text_of };

    ghost status = { status_of };

    fn status(&self) -> ExitStatus {
        ExitStatus::Done
    }

    fn print<K: Sink>(&mut self, alloc: Global, out: &mut K) -> Result<(), SinkError> {
        print_fleet(alloc, &self.rows, out)
    }
}
