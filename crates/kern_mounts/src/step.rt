//! One entry of a mount table: its mount point, what it shows there, and its flags.

ghost use Rattle.std.specs.Prelude.{◌≡◌, IfOk};
ghost use Rattle.kern_mounts.specs.Mounts.{plain};
ghost use Rattle.kern_mounts.specs.Keeping.{lacks};
ghost use Rattle.kern_mounts.specs.Copying.{locked};

use abs_path::AbsPath;
use std::alloc::{AllocError, Global};

/// The flags of a mount, which restrict the use of the files that it shows, mount(2).
#[derive(Clone, Copy, Debug, Default, PartialEq, Eq)]
pub struct Flags {
    /// No file there can be written, MS_RDONLY.
    pub read_only: bool,
    /// No program there can be executed, MS_NOEXEC.
    pub no_exec: bool,
    /// Set-user-id bits, set-group-id bits and file capabilities have no effect there, MS_NOSUID.
    pub no_suid: bool,
}

impl Flags {
    // Whether `others` lacks one of these flags.
    pub(crate) fn lacks(self, others: Flags) -> bool
        ensures { result ≡ lacks self others }
    {
        (self.read_only && !others.read_only)
            || ((self.no_exec && !others.no_exec) || (self.no_suid && !others.no_suid))
    }
}

/// What a mount shows at its place and below.
#[derive(Drop)]
pub enum What {
    /// The host's file at this path, with all that is below it.
    Host(AbsPath),
    /// An empty file system: a directory with nothing in it.
    Empty,
    /// A file or directory that no process may look at.
    Hidden {
        /// True for a directory, false for a file.
        directory: bool,
    },
}

impl What {
    /// The same again.
    pub fn copy(&self, alloc: Global) -> Result<What, AllocError>
        ensures same { IfOk result (λ what. what ≡ self.now) }
    {
        match self {
            What::Host(source) => {
                let copy = source.copy(alloc)?;
                Ok(What::Host(copy))
            }
            What::Empty => Ok(What::Empty),
            What::Hidden { directory } => Ok(What::Hidden {
                directory: *directory,
            }),
        }
    }
}

/// An entry of a mount table. It also describes the step that adds the entry.
#[derive(Drop)]
pub struct MountStep {
    /// The path of the mount point.
    pub place: AbsPath,
    pub what: What,
    pub flags: Flags,
}

impl MountStep {
    /// The same again.
    pub fn copy(&self, alloc: Global) -> Result<MountStep, AllocError>
        ensures same { IfOk result (λ step. step ≡ self.now) }
    {
        Ok(MountStep {
            place: self.place.copy(alloc)?,
            what: self.what.copy(alloc)?,
            flags: self.flags,
        })
    }
}

/// A mount of a namespace: an entry of its table, and the restrictions that a less privileged namespace cannot undo
/// (mount_namespaces(7), "Restrictions on mount namespaces").
#[derive(Drop)]
pub struct Mount {
    pub step: MountStep,
    /// The mount was copied from a more privileged namespace, so it cannot be unmounted alone.
    pub locked: bool,
    /// Flags that no remount can clear.
    pub kept: Flags,
}

impl Mount {
    // Makes a mount that is not locked and keeps no flags.
    pub(crate) fn plain(step: MountStep) -> Mount
        ensures plain { result ≡ plain step }
    {
        Mount {
            step,
            locked: false,
            kept: Flags::default(),
        }
    }

    // The same again.
    pub(crate) fn copy(&self, alloc: Global) -> Result<Mount, AllocError>
        ensures same { IfOk result (λ mount. mount ≡ self.now) }
    {
        Ok(Mount {
            step: self.step.copy(alloc)?,
            locked: self.locked,
            kept: self.kept,
        })
    }

    // Copies the mount, locks the copy, and keeps its flags.
    pub(crate) fn locked_copy(&self, alloc: Global) -> Result<Mount, AllocError>
        ensures locked { IfOk result (λ mount. mount ≡ locked self.now) }
    {
        Ok(Mount {
            step: self.step.copy(alloc)?,
            locked: true,
            kept: self.step.flags,
        })
    }
}
