//! Why a service is not launched.

ghost use Rattle.std.specs.Prelude.{◌≡◌};
ghost use Rattle.launcher.specs.declared.error.LaunchError.TheVariants.{Memory};

use abs_path::AbsPath;
use std::alloc::AllocError;
use std::fmt::{self, Debug, Formatter, Write};
use thiserror::Error;

/// Why a service is not launched.
#[derive(Drop, Error)]
pub enum LaunchError {
    /// The program of this path has a set-id bit or capabilities (execve(2)), so it would not run as the settings say.
    #[error("the program {} is privileged", .0.text())]
    PrivilegedProgram(AbsPath),
    /// This step, counted from 1, is refused with this errno.
    #[error("step {step} is refused with errno {errno}")]
    Refused { step: u32, errno: u32 },
    /// At this step, counted from 1, a filter kills the process.
    #[error("step {step} kills the process")]
    Killed { step: u32 },
    /// Memory ran out.
    #[error("out of memory")]
    Memory,
}

impl From<AllocError> for LaunchError {
    ghost from_gives = { λ _ e. e ≡ Memory };

    fn from(_: AllocError) -> Self {
        LaunchError::Memory
    }
}

impl Debug for LaunchError {
    fn fmt<W: Write>(&self, f: &mut Formatter<W>) -> fmt::Result {
        write!(f, "{self}")
    }
}
