//! Makes the rules of RestrictSUIDSGID=: no file can get the set-user-ID or the set-group-ID bit.
ghost use Rattle.std.specs.Prelude.{◌≡◌, ◌≤◌, Some, IfOk, IfSome};
ghost use Rattle.filter_settings.specs.filter_rules.Suid.{mode_argument};
ghost use Rattle.filter_settings.specs.filter_rules.SuidChoice.{mode_test, mode_choice, suid_choice, suid_choice_in};

use crate::filter_rules::choice::{Choice, NOT_THERE, always, bits, refused_where};
use call_rules::Test;
use dropin_merge::Version;
use std::alloc::{AllocError, Global};

/// S_ISUID, inode(7).
const SET_USER_ID: u32 = 0x800;

/// S_ISGID, inode(7).
const SET_GROUP_ID: u32 = 0x400;

/// O_CREAT, open(2).
const O_CREAT: u32 = 0x40;

// Returns which argument of a call of this name is the mode.
fn mode_argument(name: &str) -> Option<u8>
    ensures mode { result ≡ mode_argument name.now }
    ensures is_argument { IfSome result (λ at. at ≤ 5) }
{
    match name {
        "chmod" | "fchmod" | "mkdir" | "mknod" | "creat" => Some(1),
        "fchmodat" | "mkdirat" | "mknodat" | "open" => Some(2),
        "openat" => Some(3),
        _ => None,
    }
}

// Returns the test that a call of this name has a mode. None if each such call has one.
fn mode_test(name: &str) -> Option<Test>
    ensures { result ≡ mode_test name.now }
{
    match name {
        "open" => Some(bits(1, O_CREAT)),
        "openat" => Some(bits(2, O_CREAT)),
        _ => None,
    }
}

fn mode_choice(alloc: Global, given: Option<Test>, at: u8) -> Result<Choice, AllocError>
    requires { at ≤ 5 }
    ensures { IfOk result (λ choice. choice ≡ mode_choice given at) }
{
    let choice = refused_where(alloc, &[bits(at, SET_USER_ID), bits(at, SET_GROUP_ID)])?;
    Ok(Choice { given, ..choice })
}

// Returns what the rules do to calls of this name, if they have a mode.
fn base_choice(alloc: Global, name: &str) -> Result<Option<Choice>, AllocError>
    ensures { IfOk result (λ choice. choice ≡ suid_choice name.now) }
{
    match mode_argument(name) {
        Some(at) => Ok(Some(mode_choice(alloc, mode_test(name), at)?)),
        None => Ok(None),
    }
}

// Returns the same by the rules of a version of systemd. No filter sees the mode of openat2(2), which is in memory.
fn later_choice(alloc: Global, version: Version, name: &str) -> Result<Option<Choice>, AllocError>
    ensures { IfOk result (λ choice. choice ≡ suid_choice_in (Some version) name.now) }
{
    match name {
        "openat2" => Ok(Some(always(alloc, NOT_THERE))),
        "fchmodat2" => Ok(Some(mode_choice(alloc, None, 2)?)),
        _ => base_choice(alloc, name),
    }
}

/// Returns what the rules do to calls of this name, if they can set a mode.
pub fn suid_choice(
    alloc: Global,
    systemd: Option<Version>,
    name: &str,
) -> Result<Option<Choice>, AllocError>
    ensures by_the_call { IfOk result (λ choice. choice ≡ suid_choice_in systemd name.now) }
{
    match systemd {
        None => base_choice(alloc, name),
        Some(version) => later_choice(alloc, version, name),
    }
}
