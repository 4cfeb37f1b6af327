//! The lines of a replay: one for each call, and the last one.
ghost use Rattle.std.specs.Prelude.{◌≡◌, ◌++◌, IfOk, OnOk};
ghost use Rattle.replay_command.specs.Lines.{call_line, reply_words};
ghost use Rattle.replay_command.specs.Texts.{count_line};

use asked_service::{Call, CallTable, Reply, print_call, push_u64};
use std::alloc::{AllocError, Global};

// Appends the reply of a call: its value, its errno, or that the caller was killed.
fn push_reply(line: &mut Vec<u8>, reply: Reply) -> Result<(), AllocError>
    ensures { OnOk result (line.new.items ≡ line.old.items ++ reply_words reply) }
{
    match reply {
        Reply::Done(value) => {
            line.extend_from_slice(b"ok ")?;
            push_u64(line, value)
        }
        Reply::Refused(errno) => {
            line.extend_from_slice(b"errno ")?;
            push_u64(line, u64::from(errno))
        }
        Reply::Killed => line.extend_from_slice(b"killed"),
    }
}

/// The line of a call and its reply.
pub fn call_line(
    alloc: Global,
    call: &Call,
    reply: Reply,
    calls: &CallTable,
) -> Result<Vec<u8>, AllocError>
    ensures tells_call_and_reply { IfOk result (λ line. line.items ≡ call_line calls.now call.now reply) }
{
    let mut line = print_call(alloc, call, calls)?;
    line.extend_from_slice(b" -> ")?;
    push_reply(&mut line, reply)?;
    line.push(b'\n')?;
    Ok(line)
}

/// How many calls there are.
pub fn count_line(alloc: Global, count: usize) -> Result<Vec<u8>, AllocError>
    ensures counts { IfOk result (λ line. line.items ≡ count_line count) }
{
    Ok(format!(in alloc; "calls {count}\n")?.into_bytes())
}
