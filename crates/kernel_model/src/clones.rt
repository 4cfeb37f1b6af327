//! The effects of clone(2) and unshare(2), which their flags decide.

ghost use Rattle.kernel_model.specs.Effects.{clone_effect, unshare_effect};
ghost use Rattle.kernel_model.specs.Parts.{Leaves};

use crate::outcome::Outcome;
use crate::reply::Reply;
use kern_creds::Creds;
use kern_mounts::linux_numbers::capabilities::CAP_SYS_ADMIN;
use kern_mounts::linux_numbers::errnos::{EINVAL, EPERM};
use kern_mounts::linux_numbers::namespaces::{
    CLONE_NEWCGROUP, CLONE_NEWIPC, CLONE_NEWNET, CLONE_NEWNS, CLONE_NEWPID, CLONE_NEWUSER,
    CLONE_NEWUTS,
};

// CLONE_THREAD: the child is a thread of the caller.
const CLONE_THREAD: u32 = 0x1_0000;

// The flags of all types of namespaces but user namespaces.
const OTHER_SPACES: u32 = CLONE_NEWNS
    | CLONE_NEWCGROUP
    | CLONE_NEWUTS
    | CLONE_NEWIPC
    | CLONE_NEWPID
    | CLONE_NEWNET;

// The bits that name no namespace.
const NO_SPACES: u32 = !(OTHER_SPACES | CLONE_NEWUSER);

/// clone(2). Returns EINVAL for a thread. Returns EPERM if the caller asks for another namespace but no user namespace, and
/// lacks CAP_SYS_ADMIN.
pub(crate) fn clone(creds: &Creds, flags: u32) -> Outcome
    ensures { Leaves result (clone_effect creds.now flags) }
{
    if flags & CLONE_THREAD != 0 {
        return Outcome::Replied(Reply::Refused(EINVAL));
    }
    if flags & CLONE_NEWUSER != 0 {
        return Outcome::MakesUserChild {
            own_mounts: flags & CLONE_NEWNS != 0,
        };
    }
    if flags & OTHER_SPACES == 0 {
        return Outcome::MakesChild { own_mounts: false };
    }
    if !creds.effective().contains(CAP_SYS_ADMIN) {
        return Outcome::Replied(Reply::Refused(EPERM));
    }
    Outcome::MakesChild {
        own_mounts: flags & CLONE_NEWNS != 0,
    }
}

/// unshare(2). Returns EINVAL for a flag that names no namespace. Returns EPERM if the caller asks for another namespace but no
/// user namespace, and lacks CAP_SYS_ADMIN.
pub(crate) fn unshare(creds: &Creds, flags: u32) -> Outcome
    ensures { Leaves result (unshare_effect creds.now flags) }
{
    if flags & NO_SPACES != 0 {
        return Outcome::Replied(Reply::Refused(EINVAL));
    }
    if flags & CLONE_NEWUSER != 0 {
        return Outcome::MakesOwnUser {
            own_mounts: flags & CLONE_NEWNS != 0,
        };
    }
    if flags & OTHER_SPACES == 0 {
        return Outcome::Replied(Reply::Done(0));
    }
    if !creds.effective().contains(CAP_SYS_ADMIN) {
        return Outcome::Replied(Reply::Refused(EPERM));
    }
    if flags & CLONE_NEWNS != 0 {
        Outcome::MakesTable
    } else {
        Outcome::Replied(Reply::Done(0))
    }
}
