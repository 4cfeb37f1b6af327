//! Why a line of a script gives no call.

ghost use Rattle.std.specs.Prelude.{◌≡◌};
ghost use Rattle.script_text.specs.declared.line_fault.LineFault.TheVariants.{NoMemory};

use crate::error::ScriptCause;
use std::alloc::{AllocError, AllocFailed};

/// Why a line gives no call.
#[derive(Clone, Copy)]
pub(crate) enum LineFault {
    /// The first thing that is wrong with it.
    Faulty(ScriptCause),
    /// There is no memory left.
    NoMemory,
}

impl From<AllocError> for LineFault {
    ghost from_gives = { λ _ e. e ≡ NoMemory };

    fn from(_: AllocError) -> Self {
        LineFault::NoMemory
    }
}

impl<T: Drop> From<AllocFailed<T>> for LineFault {
    ghost from_gives = { λ _ e. e ≡ NoMemory };

    fn from(_: AllocFailed<T>) -> Self {
        LineFault::NoMemory
    }
}
