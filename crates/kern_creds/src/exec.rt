//! The credentials of a process after it executes a file: execve(2) and capabilities(7).
//!
//! Each part of the rule is a function of its own, with its name in `specs/Exec.antt`.

ghost use Rattle.std.specs.Prelude.{◌≡◌};
ghost use Rattle.kern_creds.specs.Answer.{Becomes};
ghost use Rattle.kern_creds.specs.Exec.{is_refused, honours, honours_ids, is_privileged_in, exec_ids, exec_uids_in, exec_ambient_in, runs_as_root_in, exec_gains_in, exec_permitted_in, exec_effective_in, exec_in};

use crate::creds::Creds;
use crate::file::FileCreds;
use crate::ids::Ids;
use crate::sets::is_empty;
use cap_sets::CapSet;
use cap_sets::linux_numbers::errnos::EPERM;

impl FileCreds {
    // Whether the file has a capability, or a set-id bit that can count.
    fn is_privileged(&self, newer: bool) -> bool
        ensures { result ≡ is_privileged_in newer self.now }
    {
        (!newer && (self.setuid.is_some() || self.setgid.is_some())) || !is_empty(self.caps)
    }
}

impl Ids {
    // The ids after a file with this owner is executed. `honoured` says whether its set-id bit counts.
    fn after_exec(self, honoured: bool, owner: Option<u32>) -> Ids
        ensures { result ≡ exec_ids honoured self owner }
    {
        let id = match owner {
            Some(owner) if honoured => owner,
            _ => self.effective,
        };
        Ids {
            real: self.real,
            effective: id,
            saved: id,
        }
    }

    fn runs_as_root(&self, newer: bool) -> bool
        ensures { result ≡ runs_as_root_in newer self.now }
    {
        !newer && (self.real == 0 || self.effective == 0)
    }
}

impl Creds {
    fn honours(&self, nosuid: bool) -> bool
        ensures { result ≡ honours self.now nosuid }
    {
        !self.no_new_privs && !nosuid
    }

    fn honours_ids(&self, nosuid: bool, newer: bool) -> bool
        ensures { result ≡ honours_ids newer self.now nosuid }
    {
        !newer && self.honours(nosuid)
    }

    fn is_refused(&self, file: &FileCreds, nosuid: bool) -> bool
        ensures { result ≡ is_refused self.now file.now nosuid }
    {
        !nosuid && file.effective && !file.caps.within(self.bounding)
    }

    fn exec_uids(&self, file: &FileCreds, nosuid: bool, newer: bool) -> Ids
        ensures { result ≡ exec_uids_in newer self.now file.now nosuid }
    {
        self.uids
            .after_exec(self.honours_ids(nosuid, newer), file.setuid)
    }

    fn exec_ambient(&self, file: &FileCreds, nosuid: bool, newer: bool) -> CapSet
        ensures { result ≡ exec_ambient_in newer self.now file.now nosuid }
    {
        if self.honours(nosuid) && file.is_privileged(newer) {
            CapSet::empty()
        } else {
            self.ambient
        }
    }

    fn exec_gains(&self, file: &FileCreds, nosuid: bool, newer: bool) -> CapSet
        ensures { result ≡ exec_gains_in newer self.now file.now nosuid }
    {
        if self.exec_uids(file, nosuid, newer).runs_as_root(newer) {
            self.inheritable.union(self.bounding)
        } else if self.honours(nosuid) {
            file.caps
                .cut(self.bounding)
                .union(self.exec_ambient(file, nosuid, newer))
        } else {
            self.exec_ambient(file, nosuid, newer)
        }
    }

    fn exec_permitted(&self, file: &FileCreds, nosuid: bool, newer: bool) -> CapSet
        ensures { result ≡ exec_permitted_in newer self.now file.now nosuid }
    {
        let gains = self.exec_gains(file, nosuid, newer);
        if self.no_new_privs {
            gains.cut(self.permitted)
        } else {
            gains
        }
    }

    fn exec_effective(&self, file: &FileCreds, nosuid: bool, newer: bool) -> CapSet
        ensures { result ≡ exec_effective_in newer self.now file.now nosuid }
    {
        let uids = self.exec_uids(file, nosuid, newer);
        if (!newer && uids.effective == 0) || (self.honours(nosuid) && file.effective) {
            self.exec_permitted(file, nosuid, newer)
        } else {
            self.exec_ambient(file, nosuid, newer)
        }
    }

    /// execve(2): executes a file with these marks, from a mount with or without nosuid.
    ///
    /// Returns EPERM if the mount does not have nosuid, the file's effective bit is on, and the bounding set lacks one of the
    /// file's capabilities. Else the credentials change by the rules of capabilities(7).
    ///
    /// In a newer user namespace, user_namespaces(7), set-id bits have no effect, and root is a user like others. A ring is
    /// closed in any of them.
    pub fn exec(&mut self, file: &FileCreds, nosuid: bool, newer: bool) -> Result<(), u32>
        ensures by_the_file { Becomes self.old self.new result (exec_in newer self.old file.now nosuid) }
    {
        if self.is_refused(file, nosuid) {
            return Err(EPERM);
        }
        let uids = self.exec_uids(file, nosuid, newer);
        let gids = self
            .gids
            .after_exec(self.honours_ids(nosuid, newer), file.setgid);
        let permitted = self.exec_permitted(file, nosuid, newer);
        let effective = self.exec_effective(file, nosuid, newer);
        self.ambient = self.exec_ambient(file, nosuid, newer);
        self.permitted = permitted;
        self.effective = effective;
        self.uids = uids;
        self.gids = gids;
        self.ring = false;
        self.keepcaps = false;
        Ok(())
    }
}
