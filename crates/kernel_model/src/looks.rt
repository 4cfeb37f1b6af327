//! Calls that change nothing: stat(2) and similar calls, open(2), creat(2), truncate(2), socket(2), socketcall(2),
//! socketpair(2), sched_setscheduler(2), sched_setattr(2), and calls that only check a capability. None of them takes memory.

ghost use Rattle.std.specs.Prelude.{◌≡◌, option_copied};
ghost use Rattle.call_table.specs.Lookups.{numbered};
ghost use Rattle.site_table.specs.Table.{row_at};
ghost use Rattle.kern_mounts.specs.Finds.{finds};
ghost use Rattle.kern_mounts.specs.Mounts.{steps_of};
ghost use Rattle.kernel_model.specs.kern_files.Looking.{flags_at, valued, see_answer, write_answer, open_answer};
ghost use Rattle.kernel_model.specs.Effects.{Answer, attributes_effect, schedule_answer, socket_effect, sockets_effect, with_cap_of, first_alone, socketcall_effect, socketpair_effect};
ghost use Rattle.kernel_model.specs.Replies.{Answers, value_reply};

use crate::kern_files::{open_file, see, write_file};
use crate::reply::{Reply, value_reply};
use crate::told::Told;
use abs_path::AbsPath;
use call_table::{CallLine, CallTable};
use kern_creds::Creds;
use kern_mounts::MountTable;
use kern_mounts::linux_numbers::capabilities::CAP_SYS_NICE;
use kern_mounts::linux_numbers::errnos::{EAFNOSUPPORT, EINVAL, EOPNOTSUPP, EPERM};

// The first descriptor after the three standard ones.
const DESCRIPTOR: u64 = 3;

// The family whose sockets come in pairs, address_families(7).
const AF_UNIX: u32 = 1;

// The operation of socketcall(2) that makes a socket, linux/net.h.
const SYS_SOCKET: u32 = 1;

// The first and the last of socketcall's other operations.
const SYS_BIND: u32 = 2;

const SYS_SENDMMSG: u32 = 20;

// SCHED_OTHER, SCHED_FIFO, SCHED_RR, SCHED_BATCH and SCHED_IDLE, sched(7).
const POLICIES: [u32; 5] = [0, 1, 2, 3, 5];

// Returns this value in a reply, unless the rule refuses.
fn done(value: u64, outcome: Result<(), u32>) -> Reply
    ensures { result ≡ value_reply (valued value outcome) }
{
    match outcome {
        Ok(()) => Reply::Done(value),
        Err(errno) => Reply::Refused(errno),
    }
}

impl<'a> Told<'a> {
    /// stat(2), access(2) and other calls that only look a path up.
    pub fn see(&self, table: &MountTable, path: &AbsPath) -> Reply
        ensures by_the_place { result ≡ value_reply (see_answer 0 (finds (row_at self.now.site.now.rows) (steps_of table.now) path.now)) }
    {
        done(0, see(table, self.site, path))
    }

    /// open(2) and openat(2), with these flags.
    pub fn open(&self, table: &MountTable, path: &AbsPath, flags: u32) -> Reply
        ensures by_the_place { result ≡ value_reply (open_answer flags (flags_at (steps_of table.now) path.now) (finds (row_at self.now.site.now.rows) (steps_of table.now) path.now)) }
    {
        value_reply(open_file(table, self.site, path, flags))
    }

    /// creat(2) of a file that exists: opens it for writing.
    pub fn create(&self, table: &MountTable, path: &AbsPath) -> Reply
        ensures by_the_place { result ≡ value_reply (write_answer 3 (flags_at (steps_of table.now) path.now) (finds (row_at self.now.site.now.rows) (steps_of table.now) path.now)) }
    {
        done(DESCRIPTOR, write_file(table, self.site, path))
    }

    /// truncate(2).
    pub fn truncate(&self, table: &MountTable, path: &AbsPath) -> Reply
        ensures by_the_place { result ≡ value_reply (write_answer 0 (flags_at (steps_of table.now) path.now) (finds (row_at self.now.site.now.rows) (steps_of table.now) path.now)) }
    {
        done(0, write_file(table, self.site, path))
    }

    // A call that makes sockets and has this value. Returns EAFNOSUPPORT if the table lacks the family, and EPERM without
    // the family's capability.
    fn sockets(&self, creds: &Creds, newer: bool, family: u32, value: u64) -> Reply
        ensures { Answers result (sockets_effect value newer creds.now (numbered family self.now.calls.now.families)) }
    {
        match family_of(self.calls, family) {
            None => Reply::Refused(EAFNOSUPPORT),
            Some(line) => with_cap_of(line.cap, creds, newer, value),
        }
    }

    /// socket(2). Returns EAFNOSUPPORT if the table lacks the family, and EPERM without the family's capability.
    pub fn socket(&self, creds: &Creds, newer: bool, family: u32) -> Reply
        ensures by_the_family { Answers result (socket_effect newer creds.now (numbered family self.now.calls.now.families)) }
    {
        self.sockets(creds, newer, family, DESCRIPTOR)
    }

    /// socketpair(2): like socket(2) for AF_UNIX. Returns EOPNOTSUPP for any other family of the table.
    pub fn socketpair(&self, creds: &Creds, newer: bool, family: u32) -> Reply
        ensures by_the_family { Answers result (socketpair_effect newer creds.now family (numbered family self.now.calls.now.families)) }
    {
        if family == AF_UNIX {
            return self.sockets(creds, newer, family, 0);
        }
        match family_of(self.calls, family) {
            None => Reply::Refused(EAFNOSUPPORT),
            Some(_) => Reply::Refused(EOPNOTSUPP),
        }
    }

    /// socketcall(2): like socket(2) for SYS_SOCKET. Returns EINVAL for an unknown operation.
    pub fn socketcall(&self, creds: &Creds, newer: bool, op: u32, family: u32) -> Reply
        ensures by_the_family { Answers result (socketcall_effect newer creds.now op (numbered family self.now.calls.now.families)) }
    {
        match op {
            SYS_SOCKET => self.socket(creds, newer, family),
            SYS_BIND..=SYS_SENDMMSG => Reply::Done(0),
            _ => Reply::Refused(EINVAL),
        }
    }
}

fn line_numbered(lines: &[CallLine], number: u32) -> Option<&CallLine>
    ensures { option_copied result ≡ numbered number lines.now }
{
    lines.iter().find(|line| line.number == number)
}

// Returns the line of the family with this number.
fn family_of(calls: &CallTable, number: u32) -> Option<&CallLine>
    ensures { option_copied result ≡ numbered number calls.now.families }
{
    line_numbered(calls.families(), number)
}

/// The reply to a call that needs this capability, or none, and has this value. Returns EPERM unless the capability is
/// effective in the first user namespace.
pub(crate) fn with_cap_of(cap: Option<u8>, creds: &Creds, newer: bool, value: u64) -> Reply
    ensures { Answers result (first_alone newer cap (with_cap_of cap creds.now (Answer value))) }
{
    match cap {
        Some(cap) if newer || !creds.effective().contains(cap) => Reply::Refused(EPERM),
        _ => Reply::Done(value),
    }
}

/// sched_setscheduler(2). Returns EINVAL for an unknown policy.
pub(crate) fn schedule(policy: u32) -> Reply
    ensures { result ≡ value_reply (schedule_answer policy) }
{
    if POLICIES.contains(&policy) {
        Reply::Done(0)
    } else {
        Reply::Refused(EINVAL)
    }
}

/// sched_setattr(2). Returns EPERM unless CAP_SYS_NICE is effective in the first user namespace, and EINVAL for an unknown
/// policy.
pub(crate) fn set_attributes(creds: &Creds, newer: bool, policy: u32) -> Reply
    ensures { Answers result (attributes_effect newer creds.now policy) }
{
    if newer || !creds.effective().contains(CAP_SYS_NICE) {
        return Reply::Refused(EPERM);
    }
    schedule(policy)
}
