//! Mount steps, which a launcher makes for a process before its program begins.

ghost use Rattle.std.specs.Prelude.{◌≡◌, ◌<◌, true, length, IsOk, OnOk, OnErr};
ghost use Rattle.std.specs.List.{AllByRecursion};
ghost use Rattle.site_table.specs.abs_path.Paths.{is_root};
ghost use Rattle.kern_mounts.specs.linux_numbers.Limits.{mount_max};
ghost use Rattle.kernel_model.specs.MountStep.{with_step};
ghost use Rattle.kernel_model.specs.State.{AtPlace, namespace_in, stepped_in};
ghost use Rattle.kernel_model.specs.Worlds.{HasRoot, HasSpace, IsRooted};

use crate::state::State;
use kern_mounts::{MountError, MountStep, MountTable};
use std::alloc::{AllocError, Global};

/// Makes a mount step on a table with room. At `/` it changes the flags of the first entry; elsewhere it adds an entry after
/// the others.
pub(crate) fn mount_step(
    alloc: Global,
    table: &mut MountTable,
    step: &MountStep,
) -> Result<(), AllocError>
    requires rooted { IsRooted table.old }
    requires room { length table.old < mount_max }
    ensures steps { OnOk result (table.new ≡ with_step table.old step.now) }
    ensures needs_no_memory_at_the_root { is_root step.now.place ≡ true → IsOk result }
    ensures stays { OnErr result (table.new ≡ table.old) }
{
    if step.place.is_root() {
        table.set_root_flags(step.flags);
        return Ok(());
    }
    match table.push(step.copy(alloc)?) {
        Ok(()) => return Ok(()),
        Err(MountError::Errno(_)) => unreachable!(),
        Err(MountError::Memory) => return Err(AllocError),
    }
}

impl State {
    /// Makes a mount step on the table of the process at this place.
    pub fn mount_step(
        &mut self,
        alloc: Global,
        place: usize,
        step: &MountStep,
    ) -> Result<(), AllocError>
        requires there { place < length self.old.processes }
        requires spaces { AllByRecursion (HasSpace (length self.old.namespaces)) self.old.processes }
        requires roots { AllByRecursion HasRoot self.old.namespaces }
        requires room { AtPlace self.old place (λ pid process. length (namespace_in self.old process.namespace).table < mount_max) }
        ensures steps { OnOk result (AtPlace self.old place (λ pid process. self.new ≡ stepped_in self.old process.namespace step.now)) }
        ensures needs_no_memory_at_the_root { is_root step.now.place ≡ true → IsOk result }
        ensures stays { OnErr result (self.new ≡ self.old) }
    {
        let at = self.namespace_place(place);
        mount_step(alloc, &mut self.namespaces[at].table, step)
    }
}
