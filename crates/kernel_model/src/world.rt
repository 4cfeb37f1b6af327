//! The world: a kernel and the processes that call it.

ghost use Rattle.std.specs.Prelude.{◌≡◌, false, true, IfOk, IsOk, OnOk, OnErr, option_map};
ghost use Rattle.site_table.specs.abs_path.Paths.{is_root};
ghost use Rattle.kernel_model.specs.Memory.{takes_memory};
ghost use Rattle.kernel_model.specs.MountStep.{CanStep, after_mount_step};
ghost use Rattle.kernel_model.specs.Step.{step};
ghost use Rattle.kernel_model.specs.World.{of_number, process_of, start_world};
ghost use Rattle.kernel_model.specs.Worlds.{IsKernel};

use crate::kernel_calls::{Asked, Call, Rules};
use crate::process::Process;
use crate::reply::Reply;
use crate::state::State;
use crate::told::Told;
use bpf_code::{CallData, Decision};
use call_table::CallTable;
use kern_mounts::linux_numbers::errnos::{EFAULT, ENOSYS, ESRCH};
use kern_mounts::{MountStep, MountTable};
use site_table::SiteTable;
use std::alloc::{AllocError, Global};
use std::marker::Model;

/// Processes that share mount namespaces, and the kernel's tables of calls and files.
///
/// Contracts see a world as its table of calls, its site, and the lists of its processes (at most 1,024) and of its mount
/// namespaces (at most 64).
#[derive(Drop)]
pub struct World<'a> {
    told: Told<'a>,
    rules: Rules,
    state: State,
}

impl<'a> Model for World<'a> {
    ghost use Rattle.std.specs.Prelude.{◌≡◌};
    ghost use Rattle.kernel_model.specs.kernel_calls.Rules.{rules_of};
    ghost use Rattle.kernel_model.specs.State.{world_of};
    ghost use Rattle.kernel_model.specs.World.{World};
    ghost use Rattle.kernel_model.specs.Worlds.{IsKernel};

    ghost Value = { World };

    ghost view = { λ world. world_of world.told.calls.now world.told.site.now world.state };

    ghost invariant = { λ world. (world.rules ≡ rules_of world.told.calls.now) × IsKernel world.state.processes world.state.namespaces };
}

impl<'a> World<'a> {
    /// Makes a world with process 1 only. It runs as root without filter programs, in mount namespace 1, whose table is the
    /// host's.
    pub fn start(
        alloc: Global,
        calls: &'a CallTable,
        site: &'a SiteTable,
    ) -> Result<World<'a>, AllocError>
        ensures starts { IfOk result (λ world. world ≡ start_world calls.now site.now) }
    {
        Ok(World {
            told: Told { calls, site },
            rules: Rules::new(alloc, calls)?,
            state: State::first(alloc)?,
        })
    }

    /// Makes one call of one process and returns its reply. These checks follow each other:
    ///
    /// - ESRCH if no living process has the call's number.
    /// - ENOSYS if the table lacks the call's ABI.
    /// - The process's filter programs refuse the call or kill the process, seccomp(2).
    /// - ENOSYS if the ABI or the kernel lacks the call.
    /// - EFAULT if the payload does not have the call's form.
    /// - The call's rule, from its manual page, decides.
    ///
    /// A refused call changes nothing. If memory runs out, the world is unchanged.
    pub fn step(&mut self, alloc: Global, call: &Call) -> Result<Reply, AllocError>
        ensures makes_the_step { IfOk result (λ reply. (reply, self.new) ≡ step self.old call.now) }
        ensures needs_no_memory { takes_memory self.old call.now ≡ false → IsOk result }
        ensures stays { OnErr result (self.new ≡ self.old) }
    {
        let Some(place) = self.state.living_place(call.pid) else {
            return Ok(Reply::Refused(ESRCH));
        };
        if call.abi >= self.told.calls.abis() {
            return Ok(Reply::Refused(ENOSYS));
        }
        let input = CallData {
            nr: call.nr,
            arch: self.told.calls.arch_of(call.abi),
            ip: 0,
            args: call.args,
        };
        match self.state.decide(place, &input) {
            Decision::Errno(errno) => Ok(Reply::Refused(errno)),
            Decision::Kill => {
                self.state.end(place);
                Ok(Reply::Killed)
            }
            Decision::Pass => match self.rules.asked(self.told.calls, call) {
                Asked::Lacking => Ok(Reply::Refused(ENOSYS)),
                Asked::Misformed => Ok(Reply::Refused(EFAULT)),
                Asked::Does(operation) => self.state.perform(alloc, &self.told, place, &operation),
            },
        }
    }

    /// Makes a mount step for a living process whose table has fewer than 4,096 entries. At `/` it changes the flags of the
    /// table's first entry; elsewhere it adds an entry after the others. The rules of mount(2) do not apply.
    pub fn mount_step(
        &mut self,
        alloc: Global,
        pid: u32,
        step: &MountStep,
    ) -> Result<(), AllocError>
        requires can_step { CanStep self.old pid }
        ensures mounts { OnOk result (self.new ≡ after_mount_step self.old pid step.now) }
        ensures needs_no_memory_at_the_root { is_root step.now.place ≡ true → IsOk result }
        ensures stays { OnErr result (self.new ≡ self.old) }
    {
        match self.state.living_place(pid) {
            None => unreachable!(),
            Some(place) => self.state.mount_step(alloc, place, step),
        }
    }

    /// Returns the process with this number, living or ended.
    pub fn process(&self, pid: u32) -> Option<&Process>
        ensures process_of_the_number { option_map (λ process. process.now) result ≡ process_of self.now pid }
    {
        self.state.process(pid)
    }

    /// Returns the mount table of the mount namespace with this number.
    pub fn table(&self, namespace: u32) -> Option<&MountTable>
        ensures table_of_the_number { option_map (λ table. table.now) result ≡ option_map (λ it. it.table) (of_number self.now.namespaces namespace) }
    {
        match self.state.namespace(namespace) {
            None => None,
            Some(it) => Some(&it.table),
        }
    }

    /// Returns the user namespace to which the mount namespace with this number belongs, user_namespaces(7).
    pub fn owner(&self, namespace: u32) -> Option<u32>
        ensures owner_of_the_number { result ≡ option_map (λ it. it.owner) (of_number self.now.namespaces namespace) }
    {
        match self.state.namespace(namespace) {
            None => None,
            Some(it) => Some(it.owner),
        }
    }

    /// Returns the kernel's table of calls and families.
    pub fn call_table(&self) -> &'a CallTable
        ensures told { result.now ≡ self.now.calls }
        ensures holds_of_each_world { IsKernel self.now.processes self.now.namespaces }
    {
        self.told.calls
    }

    /// Returns the kernel's table of files, users and groups.
    pub fn site_table(&self) -> &'a SiteTable
        ensures told { result.now ≡ self.now.site }
    {
        self.told.site
    }
}
