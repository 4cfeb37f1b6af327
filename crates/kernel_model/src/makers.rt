//! The calls that make processes, mount namespaces and user namespaces: fork(2), clone(2), unshare(2).

ghost use Rattle.std.specs.Prelude.{◌≡◌, ◌<◌, ◌+◌, nat_lt, true, false, length, IfOk, IsOk, OnOk, OnErr};
ghost use Rattle.std.specs.List.{AllByRecursion};
ghost use Rattle.site_table.specs.Ids.{most_spaces};
ghost use Rattle.kernel_model.specs.Effects.{Child, OwnTable, UserChild, OwnUser};
ghost use Rattle.kernel_model.specs.Memory.{makes_one};
ghost use Rattle.kernel_model.specs.State.{AddsCopy, Applies, AppliesAt, AppliesUser, AtPlace};
ghost use Rattle.kernel_model.specs.Step.{most_processes, most_namespaces};
ghost use Rattle.kernel_model.specs.World.{put_number, entered_by};
ghost use Rattle.kernel_model.specs.Worlds.{HasSpace};
ghost use Rattle.kernel_model.specs.declared.reply.Reply.TheVariants.{Done};

use crate::mount_namespace::MountNamespace;
use crate::reply::Reply;
use crate::state::State;
use crate::told::Told;
use kern_mounts::linux_numbers::errnos::{EAGAIN, ENOSPC};
use std::alloc::AllocError;

/// The most processes that a world can make, including ended ones.
const MAX_PROCESSES: usize = 1_024;

/// The most mount namespaces that a world can make.
const MAX_NAMESPACES: usize = 64;

// Adds a copy of the mount namespace at this place for a user namespace.
fn add_copy(namespaces: &mut Vec<MountNamespace>, at: usize, user: u32) -> Result<(), AllocError>
    requires there { at < length namespaces.old.items }
    ensures adds { OnOk result (AddsCopy namespaces.old.items at user namespaces.new.items) }
    ensures one_more { OnOk result (length namespaces.new.items ≡ length namespaces.old.items + 1) }
    ensures stays { OnErr result (namespaces.new.items ≡ namespaces.old.items) }
{
    let copy = namespaces[at].copy_for(user)?;
    namespaces.push(copy)?;
    Ok(())
}

impl State {
    // Adds a copy of the process at this place, in the same mount namespace.
    fn make_sharing(&mut self, place: usize) -> Result<Reply, AllocError>
        requires there { place < length self.old.processes }
        requires room { length self.old.processes < most_processes }
        ensures makes { IfOk result (λ reply. Applies self.old place (Child false) reply self.new) }
        ensures stays { OnErr result (self.new ≡ self.old) }
    {
        let child = self.processes[place].copy()?;
        self.processes.push(child)?;
        Ok(Reply::Done(self.processes.len() as u64))
    }

    // Adds a copy of the process at this place, in a mount namespace of its own with a copy of the table.
    fn make_apart(&mut self, place: usize) -> Result<Reply, AllocError>
        requires there { place < length self.old.processes }
        requires spaces { AllByRecursion (HasSpace (length self.old.namespaces)) self.old.processes }
        requires room { length self.old.processes < most_processes }
        requires space { length self.old.namespaces < most_namespaces }
        ensures makes { IfOk result (λ reply. Applies self.old place (Child true) reply self.new) }
        ensures stays { OnErr result (self.new ≡ self.old) }
    {
        let at = self.namespace_place(place);
        let user = self.processes[place].user;
        let mut child = self.processes[place].copy()?;
        child.namespace = self.namespaces.len() as u32 + 1;
        // With room for the child, nothing fails once the mount namespace is there.
        self.processes.reserve(1)?;
        add_copy(&mut self.namespaces, at, user)?;
        self.processes.push(child)?;
        Ok(Reply::Done(self.processes.len() as u64))
    }

    /// Adds a copy of the process at this place, if there is room. `own` asks for a mount namespace of its own.
    pub fn make_child(&mut self, place: usize, own: bool) -> Result<Reply, AllocError>
        requires there { place < length self.old.processes }
        requires spaces { AllByRecursion (HasSpace (length self.old.namespaces)) self.old.processes }
        ensures makes { IfOk result (λ reply. Applies self.old place (Child own) reply self.new) }
        ensures needs_no_memory { makes_one false (length self.old.processes) (length self.old.namespaces) (Child own) ≡ false → IsOk result }
        ensures stays { OnErr result (self.new ≡ self.old) }
    {
        if self.processes.len() >= MAX_PROCESSES {
            return Ok(Reply::Refused(EAGAIN));
        }
        if !own {
            return self.make_sharing(place);
        }
        if self.namespaces.len() >= MAX_NAMESPACES {
            return Ok(Reply::Refused(ENOSPC));
        }
        self.make_apart(place)
    }

    // Adds a mount namespace with a copy of the table, and moves the process at this place into it.
    fn move_apart(&mut self, place: usize) -> Result<(), AllocError>
        requires there { place < length self.old.processes }
        requires spaces { AllByRecursion (HasSpace (length self.old.namespaces)) self.old.processes }
        requires space { length self.old.namespaces < most_namespaces }
        ensures moves { OnOk result (Applies self.old place OwnTable (Done 0) self.new) }
        ensures stays { OnErr result (self.new ≡ self.old) }
    {
        let at = self.namespace_place(place);
        let user = self.processes[place].user;
        add_copy(&mut self.namespaces, at, user)?;
        self.processes[place].namespace = self.namespaces.len() as u32;
        Ok(())
    }

    /// Adds a mount namespace with a copy of the table, if there is room, and moves the process at this place into it.
    pub fn make_table(&mut self, place: usize) -> Result<Reply, AllocError>
        requires there { place < length self.old.processes }
        requires spaces { AllByRecursion (HasSpace (length self.old.namespaces)) self.old.processes }
        ensures makes { IfOk result (λ reply. Applies self.old place OwnTable reply self.new) }
        ensures needs_no_memory { makes_one false (length self.old.processes) (length self.old.namespaces) OwnTable ≡ false → IsOk result }
        ensures stays { OnErr result (self.new ≡ self.old) }
    {
        if self.namespaces.len() >= MAX_NAMESPACES {
            return Ok(Reply::Refused(ENOSPC));
        }
        self.move_apart(place)?;
        Ok(Reply::Done(0))
    }

    // Adds a copy of the process at this place in a user namespace of its own, in the same mount namespace.
    fn make_user_sharing(&mut self, place: usize) -> Result<Reply, AllocError>
        requires there { place < length self.old.processes }
        requires few { self.old.users < most_spaces }
        requires room { length self.old.processes < most_processes }
        ensures makes { IfOk result (λ reply. AppliesUser self.old place (UserChild false) reply self.new) }
        ensures stays { OnErr result (self.new ≡ self.old) }
    {
        let mut child = self.processes[place].copy()?;
        child.user = self.users + 2;
        child.creds.enter();
        self.processes.push(child)?;
        self.users += 1;
        Ok(Reply::Done(self.processes.len() as u64))
    }

    // Adds a copy of the process at this place in a user namespace of its own, and in a mount namespace that belongs to it.
    fn make_user_apart(&mut self, place: usize) -> Result<Reply, AllocError>
        requires there { place < length self.old.processes }
        requires spaces { AllByRecursion (HasSpace (length self.old.namespaces)) self.old.processes }
        requires few { self.old.users < most_spaces }
        requires room { length self.old.processes < most_processes }
        requires space { length self.old.namespaces < most_namespaces }
        ensures makes { IfOk result (λ reply. AppliesUser self.old place (UserChild true) reply self.new) }
        ensures stays { OnErr result (self.new ≡ self.old) }
    {
        let at = self.namespace_place(place);
        let user = self.users + 2;
        let mut child = self.processes[place].copy()?;
        child.user = user;
        child.creds.enter();
        child.namespace = self.namespaces.len() as u32 + 1;
        // With room for the child, nothing fails once the mount namespace is there.
        self.processes.reserve(1)?;
        add_copy(&mut self.namespaces, at, user)?;
        self.processes.push(child)?;
        self.users += 1;
        Ok(Reply::Done(self.processes.len() as u64))
    }

    /// Adds a copy of the process at this place in a user namespace of its own, if there is room. `own` asks for a mount
    /// namespace of its own, too.
    pub fn make_user_child(
        &mut self,
        told: &Told<'_>,
        place: usize,
        own: bool,
    ) -> Result<Reply, AllocError>
        requires there { place < length self.old.processes }
        requires spaces { AllByRecursion (HasSpace (length self.old.namespaces)) self.old.processes }
        ensures makes { IfOk result (λ reply. AppliesAt told.now.site.now self.old place (UserChild own) reply self.new) }
        ensures needs_no_memory { makes_one (nat_lt self.old.users told.now.site.now.user_namespaces) (length self.old.processes) (length self.old.namespaces) (UserChild own) ≡ false → IsOk result }
        ensures stays { OnErr result (self.new ≡ self.old) }
    {
        if self.users >= told.site.user_namespaces() {
            return Ok(Reply::Refused(ENOSPC));
        }
        if self.processes.len() >= MAX_PROCESSES {
            return Ok(Reply::Refused(EAGAIN));
        }
        if !own {
            return self.make_user_sharing(place);
        }
        if self.namespaces.len() >= MAX_NAMESPACES {
            return Ok(Reply::Refused(ENOSPC));
        }
        self.make_user_apart(place)
    }

    // Moves the process at this place into a user namespace of its own. It stays in its mount namespace.
    fn enter(&mut self, place: usize)
        requires there { place < length self.old.processes }
        requires few { self.old.users < most_spaces }
        ensures { AppliesUser self.old place (OwnUser false) (Done 0) self.new }
    {
        let user = self.users + 2;
        let process = &mut self.processes[place];
        process.user = user;
        process.creds.enter();
        self.users += 1;
    }

    // Moves the process at this place into a user namespace of its own, and into a mount namespace that belongs to it.
    fn enter_apart(&mut self, place: usize) -> Result<(), AllocError>
        requires there { place < length self.old.processes }
        requires spaces { AllByRecursion (HasSpace (length self.old.namespaces)) self.old.processes }
        requires few { self.old.users < most_spaces }
        requires space { length self.old.namespaces < most_namespaces }
        ensures moves { OnOk result (AppliesUser self.old place (OwnUser true) (Done 0) self.new) }
        ensures stays { OnErr result (self.new ≡ self.old) }
    {
        let at = self.namespace_place(place);
        let user = self.users + 2;
        add_copy(&mut self.namespaces, at, user)?;
        let process = &mut self.processes[place];
        process.user = user;
        process.creds.enter();
        process.namespace = self.namespaces.len() as u32;
        self.users += 1;
        Ok(())
    }

    /// Moves the process at this place into a user namespace of its own, if there is room. `own` asks for a mount namespace of
    /// its own, too.
    pub fn make_own_user(
        &mut self,
        told: &Told<'_>,
        place: usize,
        own: bool,
    ) -> Result<Reply, AllocError>
        requires there { place < length self.old.processes }
        requires spaces { AllByRecursion (HasSpace (length self.old.namespaces)) self.old.processes }
        ensures makes { IfOk result (λ reply. AppliesAt told.now.site.now self.old place (OwnUser own) reply self.new) }
        ensures needs_no_memory { makes_one (nat_lt self.old.users told.now.site.now.user_namespaces) (length self.old.processes) (length self.old.namespaces) (OwnUser own) ≡ false → IsOk result }
        ensures stays { OnErr result (self.new ≡ self.old) }
    {
        if self.users >= told.site.user_namespaces() {
            return Ok(Reply::Refused(ENOSPC));
        }
        if !own {
            self.enter(place);
            return Ok(Reply::Done(0));
        }
        if self.namespaces.len() >= MAX_NAMESPACES {
            return Ok(Reply::Refused(ENOSPC));
        }
        self.enter_apart(place)?;
        Ok(Reply::Done(0))
    }
}
