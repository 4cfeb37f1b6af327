//! Lists the types of namespaces that RestrictNamespaces= knows, and says which of them are permitted (systemd.exec(5)).

ghost use Rattle.std.specs.Prelude.{◌≡◌};
ghost use Rattle.filter_settings.specs.filter_rules.NamespaceTypes.{all_types, permits};

use dropin_merge::linux_numbers::namespaces::NamespaceType;
use dropin_merge::linux_numbers::namespaces::NamespaceType::{
    Cgroup, Ipc, Mnt, Net, Pid, User, Uts,
};

/// Says which types of namespaces a process may make and enter: true means permitted.
#[derive(Clone, Copy)]
pub struct NamespaceTypes {
    pub cgroup: bool,
    pub ipc: bool,
    pub net: bool,
    pub mnt: bool,
    pub pid: bool,
    pub user: bool,
    pub uts: bool,
}

impl NamespaceTypes {
    /// Returns whether namespaces of this type are permitted.
    pub fn permits(self, kind: NamespaceType) -> bool
        ensures of_the_kind { result ≡ permits self kind }
    {
        match kind {
            Cgroup => self.cgroup,
            Ipc => self.ipc,
            Net => self.net,
            Mnt => self.mnt,
            Pid => self.pid,
            User => self.user,
            Uts => self.uts,
        }
    }
}

/// Returns the types in their order (systemd.exec(5), RestrictNamespaces=).
pub fn all_types() -> &'static [NamespaceType]
    ensures in_order { result.now ≡ all_types }
{
    &[Cgroup, Ipc, Net, Mnt, Pid, User, Uts]
}
