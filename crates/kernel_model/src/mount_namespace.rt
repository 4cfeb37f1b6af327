//! A mount namespace: its mount table and the user namespace that owns it.

ghost use Rattle.std.specs.Prelude.{◌≡◌, IfOk};
ghost use Rattle.kernel_model.specs.MountNamespaces.{copy_for, first_namespace};

use kern_mounts::MountTable;
use std::alloc::{AllocError, Global};

/// A mount namespace of a world, mount_namespaces(7).
#[derive(Drop)]
pub struct MountNamespace {
    /// Its mount table.
    pub table: MountTable,
    /// The number of the user namespace that owns it, from 1, user_namespaces(7).
    pub owner: u32,
}

impl MountNamespace {
    /// Makes the first mount namespace. It has the host's table and belongs to the first user namespace.
    pub(crate) fn first(alloc: Global) -> Result<MountNamespace, AllocError>
        ensures { IfOk result (λ namespace. namespace ≡ first_namespace) }
    {
        Ok(MountNamespace {
            table: MountTable::new(alloc)?,
            owner: 1,
        })
    }

    /// Copies the mount namespace for a user namespace. The copy's table is locked if this one belongs to another user namespace.
    pub(crate) fn copy_for(&self, user: u32) -> Result<MountNamespace, AllocError>
        ensures { IfOk result (λ copy. copy ≡ copy_for self.now user) }
    {
        let table = if self.owner == user {
            self.table.copy()?
        } else {
            self.table.copy_locked()?
        };
        Ok(MountNamespace { table, owner: user })
    }
}
