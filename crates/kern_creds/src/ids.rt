//! The three ids of a process, and which of them an unprivileged process may take: credentials(7), setresuid(2).

ghost use Rattle.std.specs.Prelude.{◌≡◌};
ghost use Rattle.kern_creds.specs.Ids.{may_take, may_take_all, kept_id, kept_ids, all_of};
ghost use Rattle.kern_creds.specs.RootChange.{has_root};

use cap_sets::linux_numbers::limits::NO_ID;

/// The real, the effective and the saved id, of a user or of a group.
#[derive(Clone, Copy)]
pub struct Ids {
    /// The id of the user or group that owns the process.
    pub real: u32,
    /// The id that the kernel checks for permissions.
    pub effective: u32,
    /// An id that the process can make effective again.
    pub saved: u32,
}

fn kept_id(old: u32, id: u32) -> u32
    ensures { result ≡ kept_id old id }
{
    if id == NO_ID { old } else { id }
}

impl Ids {
    // Makes all three ids this one.
    pub(crate) fn all_of(id: u32) -> Ids
        ensures { result ≡ all_of id }
    {
        Ids {
            real: id,
            effective: id,
            saved: id,
        }
    }

    // Whether one of the three ids is 0.
    pub(crate) fn has_root(&self) -> bool
        ensures { result ≡ has_root self.now }
    {
        self.real == 0 || self.effective == 0 || self.saved == 0
    }

    fn may_take(&self, id: u32) -> bool
        ensures { result ≡ may_take self.now id }
    {
        id == NO_ID || (id == self.real || id == self.effective || id == self.saved)
    }

    // Whether each of the three new ids is -1 or one of the old ones.
    pub(crate) fn may_take_all(&self, real: u32, effective: u32, saved: u32) -> bool
        ensures { result ≡ may_take_all self.now real effective saved }
    {
        self.may_take(real) && self.may_take(effective) && self.may_take(saved)
    }

    // Replaces each id by the new one, unless that is -1.
    pub(crate) fn with(&self, real: u32, effective: u32, saved: u32) -> Ids
        ensures { result ≡ kept_ids self.now real effective saved }
    {
        Ids {
            real: kept_id(self.real, real),
            effective: kept_id(self.effective, effective),
            saved: kept_id(self.saved, saved),
        }
    }
}
