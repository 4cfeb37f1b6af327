//! The plan of a unit's mounts, or the line of its first refusal.
ghost use Rattle.std.specs.Prelude.{IsErrOf, IsTrue};
ghost use Rattle.unit_inputs.specs.command_answers.CommandErrors.{Prepares};
ghost use Rattle.mount_plan.specs.Host.{host_of};
ghost use Rattle.mount_plan.specs.path_settings.Mentioned.{leaves_the_root, AreShort};
ghost use Rattle.plan_command.specs.Planned.{IsPlan, path_refusals};

use crate::refusals::plan_line;
use mount_plan::{Mentioned, MountSteps, PlanError, plan};
use std::alloc::Global;
use unit_inputs::SiteTable;
use unit_inputs::command_answers::{CommandError, refuse};

/// The plan of the mounts of a unit with these mentions on this site, or the line of the first refusal, at the first path in
/// byte order that has one. The table shows every path as the view has it, and a launch can take it.
pub fn plan_mounts(
    alloc: Global,
    unit: &str,
    mentions: &Mentioned,
    site: &SiteTable,
) -> Result<MountSteps, CommandError>
    requires root_is_the_hosts { IsTrue (leaves_the_root mentions.now) }
    requires paths_are_short { AreShort mentions.now }
    ensures plan_or_first_refusal { Prepares (IsPlan (host_of site.now) mentions.now) (path_refusals unit.now (host_of site.now) mentions.now) result }
    ensures reads_nothing { IsErrOf result CommandError.ReadFault → ⊥ }
{
    match plan(alloc, mentions, site) {
        Ok(table) => Ok(table),
        Err(PlanError::Memory) => Err(CommandError::Memory),
        Err(error) => Err(refuse(plan_line(alloc, unit, &error))),
    }
}
