//! The rules of all calls, applied to the caller and its table only.

ghost use Rattle.std.specs.Prelude.{◌≡◌, true, false, IfOk, IsOk, OnErr};
ghost use Rattle.kernel_model.specs.kernel_calls.Seen.{seen};
ghost use Rattle.kernel_model.specs.Effects.{effect_of, Answer, with_mapped_ids};
ghost use Rattle.kernel_model.specs.Memory.{asks_for_room};
ghost use Rattle.kernel_model.specs.Parts.{parts, caller_by, done_here};
ghost use Rattle.kernel_model.specs.Replies.{zero_reply, Answers};
ghost use Rattle.kernel_model.specs.State.{host_with};
ghost use Rattle.kernel_model.specs.World.{ended};
ghost use Rattle.kernel_model.specs.declared.outcome.Outcome.TheVariants.{Replied};
ghost use Rattle.kernel_model.specs.declared.reply.Reply.TheVariants.{Done};

use crate::clones::{clone, unshare};
use crate::identity::setgroups;
use crate::kernel_calls::Operation;
use crate::looks::{schedule, set_attributes, with_cap_of};
use crate::memory::{attach, protect};
use crate::mounts::umount;
use crate::outcome::Outcome;
use crate::outcome::Outcome::{MakesChild, Replied};
use crate::process::Process;
use crate::reply::{Reply, zero_reply};
use crate::seccomp::seccomp;
use crate::told::Told;
use kern_mounts::MountTable;
use kern_mounts::linux_numbers::errnos::{EBADF, EINVAL};
use std::alloc::{AllocError, Global};

// The number of the first user namespace.
const FIRST_USER: u32 = 1;

// The id -1, which leaves an id unchanged, setresuid(2).
const NO_ID: u32 = 4_294_967_295;

// The outcome of a call without a value of its own: only the reply.
fn left(outcome: Result<(), u32>) -> Outcome
    ensures { result ≡ Replied (zero_reply outcome) }
{
    Replied(zero_reply(outcome))
}

// exit(2) and exit_group(2): the caller ends.
fn end(caller: &mut Process) -> Outcome
    ensures replies { result ≡ Replied (Done 0) }
    ensures ends { caller.new ≡ ended caller.old }
{
    caller.alive = false;
    Replied(Reply::Done(0))
}

// setresuid(2) and setresgid(2) in a user namespace whose ids are not mapped: only -1 is valid, and leaves an id unchanged.
fn unmapped(real: u32, effective: u32, saved: u32) -> Reply
    ensures { Answers result (with_mapped_ids true real effective saved (Answer 0)) }
{
    if real == NO_ID && effective == NO_ID && saved == NO_ID {
        Reply::Done(0)
    } else {
        Reply::Refused(EINVAL)
    }
}

/// Performs the part of a call that changes only the caller and its table.
#[tactic(auto, using(crate::proofs::Outcomes::looked, crate::proofs::Outcomes::answered, crate::proofs::Outcomes::changed, crate::proofs::Outcomes::became, crate::proofs::Outcomes::mounted, crate::proofs::Outcomes::pushed))]
pub(crate) fn perform(
    alloc: Global,
    told: &Told<'_>,
    caller: &mut Process,
    table: &mut MountTable,
    owns: bool,
    operation: &Operation<'_>,
) -> Result<Outcome, AllocError>
    ensures performs { IfOk result (λ outcome. (outcome, parts caller.new table.new)
        ≡ done_here (parts caller.old table.old) (effect_of (host_with told.now) (caller_by caller.old table.old owns) (seen operation.now))) }
    ensures needs_no_memory { asks_for_room (seen operation.now) ≡ false → IsOk result }
    ensures stays_the_caller { OnErr result (caller.new ≡ caller.old) }
    ensures stays_the_table { OnErr result (table.new ≡ table.old) }
{
    let newer = caller.user != FIRST_USER;
    match *operation {
        Operation::See(path) => Ok(Replied(told.see(table, path))),
        Operation::Open(flags, _, path) => Ok(Replied(told.open(table, path, flags))),
        Operation::Create(_, path) => Ok(Replied(told.create(table, path))),
        Operation::Truncate(path) => Ok(Replied(told.truncate(table, path))),
        Operation::Execve(path) => Ok(left(told.execute(&mut caller.creds, newer, table, path))),
        Operation::SetMode(_) | Operation::Personality(_) => Ok(Replied(Reply::Done(0))),
        Operation::Map(protection) | Operation::Protect(protection) => {
            Ok(Replied(protect(&caller.creds, protection)))
        }
        Operation::Attach(flags) => Ok(Replied(attach(&caller.creds, flags))),
        Operation::Schedule(policy) => Ok(Replied(schedule(policy))),
        Operation::SetAttributes(policy) => {
            Ok(Replied(set_attributes(&caller.creds, newer, policy)))
        }
        Operation::Socket(family) => Ok(Replied(told.socket(&caller.creds, newer, family))),
        Operation::Socketcall(op, family) => {
            Ok(Replied(told.socketcall(&caller.creds, newer, op, family)))
        }
        Operation::Socketpair(family) => Ok(Replied(told.socketpair(&caller.creds, newer, family))),
        Operation::Enter => Ok(Replied(Reply::Refused(EBADF))),
        Operation::Fork => Ok(MakesChild { own_mounts: false }),
        Operation::Clone(flags) => Ok(clone(&caller.creds, flags)),
        Operation::Unshare(flags) => Ok(unshare(&caller.creds, flags)),
        Operation::Exit => Ok(end(caller)),
        Operation::Mount(source, target, flags) => {
            Ok(Replied(told.mount(alloc, &caller.creds, owns, table, source, target, flags)?))
        }
        Operation::Umount(path, flags) => Ok(Replied(umount(
            &caller.creds,
            owns,
            table,
            path,
            flags,
        ))),
        Operation::Setuid(_) | Operation::Setgid(_) if newer => Ok(Replied(Reply::Refused(EINVAL))),
        Operation::Setresuid(real, effective, saved) | Operation::Setresgid(real, effective, saved)
            if newer => { Ok(Replied(unmapped(real, effective, saved))) }
        Operation::Setuid(id) => Ok(left(caller.creds.setuid(id))),
        Operation::Setgid(id) => Ok(left(caller.creds.setgid(id))),
        Operation::Setresuid(ruid, euid, suid) => Ok(left(
            caller.creds.setresuid(ruid, euid, suid),
        )),
        Operation::Setresgid(rgid, egid, sgid) => Ok(left(
            caller.creds.setresgid(rgid, egid, sgid),
        )),
        Operation::Setgroups(ids) => Ok(Replied(setgroups(&mut caller.creds, newer, ids)?)),
        Operation::Capset(permitted, effective, inheritable) => {
            Ok(left(caller.creds.capset(permitted, effective, inheritable)))
        }
        Operation::Prctl(option, value, third, fourth, fifth) => Ok(Replied(told.prctl(
            &mut caller.creds,
            option,
            value,
            third,
            fourth,
            fifth,
        ))),
        Operation::Seccomp(op, flags, bytes) => {
            let stack = &mut caller.stack;
            Ok(Replied(seccomp(alloc, &caller.creds, stack, op, flags, bytes)?))
        }
        Operation::SetUpRing => Ok(Replied(told.set_up_ring(&mut caller.creds))),
        Operation::Submit(request) => Ok(Replied(told.submit(caller, newer, table, request))),
        Operation::Plain(cap) => Ok(Replied(with_cap_of(cap, &caller.creds, newer, 0))),
    }
}
