//! A process: its credentials, its filter programs and its namespaces.

ghost use Rattle.std.specs.Prelude.{◌≡◌, IfOk};
ghost use Rattle.kernel_model.specs.World.{first_process};

use bpf_code::Stack;
use kern_creds::Creds;
use std::alloc::{AllocError, Global};

/// A process of a world.
#[derive(Drop)]
pub struct Process {
    /// Its credentials, credentials(7).
    pub creds: Creds,
    /// Its filter programs, seccomp(2), the oldest first.
    pub stack: Stack,
    /// The number of its mount namespace, from 1, mount_namespaces(7).
    pub namespace: u32,
    /// The number of its user namespace, from 1, user_namespaces(7).
    pub user: u32,
    /// True until the process ends.
    pub alive: bool,
}

impl Process {
    /// Makes the first process. It lives, runs as root, and has no filter programs.
    pub(crate) fn first(alloc: Global) -> Process
        ensures { result ≡ first_process }
    {
        Process {
            creds: Creds::start(alloc),
            stack: Stack::new(alloc),
            namespace: 1,
            user: 1,
            alive: true,
        }
    }

    /// Copies the process.
    pub(crate) fn copy(&self) -> Result<Process, AllocError>
        ensures { IfOk result (λ process. process ≡ self.now) }
    {
        Ok(Process {
            creds: self.creds.copy()?,
            stack: self.stack.copy()?,
            namespace: self.namespace,
            user: self.user,
            alive: self.alive,
        })
    }
}
