//! The calls that change ids and groups: setuid(2), setgid(2), setresuid(2), setresgid(2), setgroups(2).

ghost use Rattle.std.specs.Prelude.{◌≡◌};
ghost use Rattle.kern_creds.specs.Answer.{Becomes, BecomesOrMemory};
ghost use Rattle.kern_creds.specs.Setuid.{set_id, after_setuid, after_setgid};
ghost use Rattle.kern_creds.specs.Setresuid.{set_all_ids, after_setresuid, after_setresgid};
ghost use Rattle.kern_creds.specs.Setgroups.{after_setgroups};

use crate::creds::Creds;
use crate::error::CredError;
use crate::ids::Ids;
use cap_sets::linux_numbers::capabilities::{CAP_SETGID, CAP_SETUID};
use cap_sets::linux_numbers::errnos::{EINVAL, EPERM};
use cap_sets::linux_numbers::limits::{NGROUPS_MAX, NO_ID};

impl Ids {
    // The ids after setuid(2) or setgid(2) by a caller with the capability, or without it.
    fn set(self, privileged: bool, id: u32) -> Result<Ids, u32>
        ensures { result ≡ set_id (λ ids. ids) privileged self id }
    {
        if id == NO_ID {
            return Err(EINVAL);
        }
        if privileged {
            return Ok(Ids::all_of(id));
        }
        if id == self.real || id == self.saved {
            return Ok(Ids {
                real: self.real,
                effective: id,
                saved: self.saved,
            });
        }
        Err(EPERM)
    }

    // The ids after setresuid(2) or setresgid(2) by a caller with the capability, or without it.
    fn set_all(self, privileged: bool, real: u32, effective: u32, saved: u32) -> Result<Ids, u32>
        ensures { result ≡ set_all_ids (λ ids. ids) privileged self real effective saved }
    {
        if privileged || self.may_take_all(real, effective, saved) {
            Ok(self.with(real, effective, saved))
        } else {
            Err(EPERM)
        }
    }
}

impl Creds {
    /// setuid(2): with CAP_SETUID, sets all three uids. Without it, sets the effective uid to the real or the saved one.
    ///
    /// Returns EINVAL for the id -1, and EPERM for any other id that the caller may not take.
    pub fn setuid(&mut self, id: u32) -> Result<(), u32>
        ensures by_the_rule { Becomes self.old self.new result (after_setuid self.old id) }
    {
        let uids = self.uids.set(self.effective.contains(CAP_SETUID), id)?;
        self.take_uids(uids);
        Ok(())
    }

    /// setgid(2): like `setuid`, for gids and with CAP_SETGID.
    pub fn setgid(&mut self, id: u32) -> Result<(), u32>
        ensures by_the_rule { Becomes self.old self.new result (after_setgid self.old id) }
    {
        let gids = self.gids.set(self.effective.contains(CAP_SETGID), id)?;
        self.gids = gids;
        Ok(())
    }

    /// setresuid(2): sets the real, the effective and the saved uid. -1 leaves a uid unchanged.
    ///
    /// Returns EPERM if the caller lacks CAP_SETUID and a new uid is not one of its three old ones.
    pub fn setresuid(&mut self, real: u32, effective: u32, saved: u32) -> Result<(), u32>
        ensures by_the_rule { Becomes self.old self.new result (after_setresuid self.old real effective saved) }
    {
        let privileged = self.effective.contains(CAP_SETUID);
        let uids = self.uids.set_all(privileged, real, effective, saved)?;
        self.take_uids(uids);
        Ok(())
    }

    /// setresgid(2): like `setresuid`, for gids and with CAP_SETGID.
    pub fn setresgid(&mut self, real: u32, effective: u32, saved: u32) -> Result<(), u32>
        ensures by_the_rule { Becomes self.old self.new result (after_setresgid self.old real effective saved) }
    {
        let privileged = self.effective.contains(CAP_SETGID);
        let gids = self.gids.set_all(privileged, real, effective, saved)?;
        self.gids = gids;
        Ok(())
    }

    /// setgroups(2): replaces the supplementary groups.
    ///
    /// Returns EPERM without CAP_SETGID, EINVAL for more than 65,536 ids, and `Memory` if memory runs out. On any error nothing
    /// changes.
    pub fn setgroups(&mut self, ids: &[u32]) -> Result<(), CredError>
        ensures by_the_rule { BecomesOrMemory self.old self.new result (after_setgroups self.old ids.now) }
    {
        if !self.effective.contains(CAP_SETGID) {
            return Err(CredError::Errno(EPERM));
        }
        if ids.len() > NGROUPS_MAX {
            return Err(CredError::Errno(EINVAL));
        }
        let Ok(groups) = self.groups.with(ids) else {
            return Err(CredError::Memory);
        };
        self.groups = groups;
        Ok(())
    }
}
