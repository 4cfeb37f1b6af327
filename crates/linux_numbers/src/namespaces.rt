//! Types of namespaces (namespaces(7)) and their flags (clone(2)).

ghost use Rattle.std.specs.Prelude.{◌≡◌};
ghost use Rattle.linux_numbers.specs.Namespaces.{flag_of, name_of};

use NamespaceType::{Cgroup, Ipc, Mnt, Net, Pid, User, Uts};

/// A new cgroup namespace.
pub const CLONE_NEWCGROUP: u32 = 0x0200_0000;

/// A new IPC namespace.
pub const CLONE_NEWIPC: u32 = 0x0800_0000;

/// A new network namespace.
pub const CLONE_NEWNET: u32 = 0x4000_0000;

/// A new mount namespace.
pub const CLONE_NEWNS: u32 = 0x0002_0000;

/// A new PID namespace.
pub const CLONE_NEWPID: u32 = 0x2000_0000;

/// A new user namespace.
pub const CLONE_NEWUSER: u32 = 0x1000_0000;

/// A new UTS namespace.
pub const CLONE_NEWUTS: u32 = 0x0400_0000;

/// A type of namespaces, namespaces(7). Time namespaces are not among them.
#[derive(Clone, Copy)]
pub enum NamespaceType {
    Cgroup,
    Ipc,
    Net,
    Mnt,
    Pid,
    User,
    Uts,
}

impl NamespaceType {
    /// Returns the name of its files in /proc/PID/ns, which RestrictNamespaces= also uses (systemd.exec(5)).
    pub fn name(self) -> &'static str
        ensures as_written { result.now ≡ name_of self }
    {
        match self {
            Cgroup => "cgroup",
            Ipc => "ipc",
            Net => "net",
            Mnt => "mnt",
            Pid => "pid",
            User => "user",
            Uts => "uts",
        }
    }

    /// Returns its flag, CLONE_NEW* of clone(2).
    pub fn flag(self) -> u32
        ensures clone_flag { result ≡ flag_of self }
    {
        match self {
            Cgroup => CLONE_NEWCGROUP,
            Ipc => CLONE_NEWIPC,
            Net => CLONE_NEWNET,
            Mnt => CLONE_NEWNS,
            Pid => CLONE_NEWPID,
            User => CLONE_NEWUSER,
            Uts => CLONE_NEWUTS,
        }
    }
}
