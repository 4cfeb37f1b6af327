//! What `fleet` reads before the first unit.
ghost use Rattle.std.specs.Prelude.{◌≡◌};
ghost use Rattle.unit_inputs.specs.host_io.Agreeing.{ForFiles};
ghost use Rattle.unit_inputs.specs.command_answers.Asking.{course};
ghost use Rattle.unit_inputs.specs.command_answers.CommandErrors.{HasReadCause, Prepares};
ghost use Rattle.unit_inputs.specs.Asking.{AsksInOrder};
ghost use Rattle.score_command.specs.fleet_command.Asking.{read_asks};
ghost use Rattle.score_command.specs.fleet_command.Inputs.{AreInputs, inputs_view};
ghost use Rattle.score_command.specs.fleet_command.Refusals.{read_refusals};

use crate::fleet_command::naming::read_names;
use crate::read_policy;
use host_io::Shelf;
use report_text::Policy;
use std::alloc::Global;
use unit_inputs::command_answers::CommandError;
use unit_inputs::{CallTable, SiteTable, UnitName, read_site, read_table};

/// The units, and the tables and policy for them.
#[derive(Drop)]
pub struct FleetInputs {
    /// The names of the units in byte order.
    pub names: Vec<UnitName>,
    /// The table of system calls.
    pub calls: Box<CallTable>,
    /// The site.
    pub site: Box<SiteTable>,
    /// The policy.
    pub policy: Policy,
}

/// Reads the names of the units, calls.txt, site.toml and the policy, and finds the first refusal of them.
pub fn read_all<S: Shelf>(
    alloc: Global,
    shelf: &mut S,
    path: &str,
) -> Result<FleetInputs, CommandError>
    ensures prepares { ForFiles (S.agrees shelf.new) (λ files. Prepares (λ inputs. AreInputs files path.now (inputs_view inputs)) (read_refusals files path.now) result) }
    ensures asks_in_order { AsksInOrder S.asks (S.agrees shelf.new) (λ files. read_asks files path.now) shelf.old shelf.new (course result) }
    ensures answers_stay { ForFiles (S.agrees shelf.new) (S.agrees shelf.old) }
    ensures fault_rose { HasReadCause (S.faults shelf.old) (S.faults shelf.new) result }
{
    let names = read_names(alloc, shelf)?;
    let calls = read_table(alloc, shelf)?;
    let site = read_site(alloc, shelf)?;
    let policy = read_policy(alloc, shelf, path)?;
    Ok(FleetInputs {
        names,
        calls,
        site,
        policy,
    })
}
