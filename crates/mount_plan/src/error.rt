//! Says why there is no plan.

ghost use Rattle.std.specs.Prelude.{◌≡◌};
ghost use Rattle.mount_plan.specs.declared.error.PlanError.TheVariants.{Memory};

use abs_path::AbsPath;
use std::alloc::AllocError;
use std::fmt::{self, Debug, Formatter, Write};
use thiserror::Error;

/// Says why there is no plan, by the first refusal in byte order of the mentions' paths.
#[derive(Drop, Error)]
pub enum PlanError {
    /// The site has no row at this path, which is the path or the source of a mention that is not optional.
    #[error("the site has no row {}", .0.text())]
    Missing(AbsPath),
    /// At this path a file would cover a directory, or a directory a file.
    #[error("a directory and a file would cover one another at {}", .0.text())]
    Kind(AbsPath),
    /// Memory ran out.
    #[error("out of memory")]
    Memory,
}

impl Debug for PlanError {
    fn fmt<W: Write>(&self, f: &mut Formatter<W>) -> fmt::Result {
        write!(f, "{self}")
    }
}

impl From<AllocError> for PlanError {
    ghost from_gives = { λ _ e. e ≡ Memory };

    fn from(_: AllocError) -> Self {
        PlanError::Memory
    }
}
