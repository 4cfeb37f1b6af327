//! Tests which ids a service can get.

ghost use Rattle.std.specs.Prelude.{◌≡◌};
ghost use Rattle.ceilings.specs.kernel_laws.Bound.{ceiling};
ghost use Rattle.ceilings.specs.kernel_laws.Launched.{Launch};
ghost use Rattle.ceilings.specs.Own.{IsCeilingOf};

use ceilings::Ceiling;

// Returns whether a process can have the effective uid.
pub(crate) fn is_uid_open(top: &Ceiling, id: u32) -> bool
    ensures { (launch : Launch) → IsCeilingOf launch top.now → result ≡ (ceiling launch).uid id }
{
    top.any_uid || top.uids.contains(id)
}

// Returns whether a process can have the gid, effective or among its groups.
pub(crate) fn is_gid_open(top: &Ceiling, id: u32) -> bool
    ensures { (launch : Launch) → IsCeilingOf launch top.now → result ≡ (ceiling launch).gid id }
{
    top.any_gid || top.gids.contains(id)
}
