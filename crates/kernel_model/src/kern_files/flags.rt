//! Tests of a call's flags by masks, and the flags of a path's mount.

ghost use Rattle.std.specs.Prelude.{◌≡◌};
ghost use Rattle.kern_mounts.specs.Mounts.{steps_of};
ghost use Rattle.kernel_model.specs.kern_files.Bits.{has_some, has_all};
ghost use Rattle.kernel_model.specs.kern_files.Looking.{flags_at};

use crate::kern_files::find::entry_of;
use abs_path::AbsPath;
use kern_mounts::{Flags, MountTable};

/// Whether some bit of the mask is set.
pub fn has_some(mask: u32, flags: u32) -> bool
    ensures some_flag { result ≡ has_some mask flags }
{
    flags & mask != 0
}

/// Whether every bit of the mask is set.
pub fn has_all(mask: u32, flags: u32) -> bool
    ensures each_flag { result ≡ has_all mask flags }
{
    flags & mask == mask
}

/// Returns the flags of the mount that the path is on, mount(2).
pub fn flags_at(table: &MountTable, path: &AbsPath) -> Flags
    ensures by_the_mount { result ≡ flags_at (steps_of table.now) path.now }
{
    entry_of(table, path).flags
}
