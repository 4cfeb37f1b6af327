//! Makes the calls of a script in sequence, and compares the replies.

ghost use Rattle.std.specs.Prelude.{◌≡◌, ◌≢◌, IfOk, IsTrue, false, length};
ghost use Rattle.asked_service.specs.kernel_model.Runs.{replies};
ghost use Rattle.derive_command.specs.trace_profile.Foretelling.{fates, is_same};
ghost use Rattle.derive_command.specs.trace_profile.Replies.{Compares};

use crate::trace_profile::fates::{Fate, fate_of};
use asked_service::{Call, Reply, World};
use std::alloc::{AllocError, Global};

/// The replies to a script, and what the programs of the callers did to its calls.
#[derive(Drop)]
pub struct Heard {
    /// The replies, in the order of the calls.
    pub said: Vec<Reply>,
    /// What the programs of the callers do, one for each call.
    pub fates: Vec<Fate>,
}

/// Makes the calls, and records each reply and what the programs of the caller do to the call.
pub fn hear(alloc: Global, world: &mut World, script: &[Call]) -> Result<Heard, AllocError>
    ensures replies { IfOk result (λ heard. heard.said.items ≡ replies world.old script.now) }
    ensures fates { IfOk result (λ heard. heard.fates.items ≡ fates world.old script.now) }
    ensures one_each { IfOk result (λ heard. length heard.said.items ≡ length script.now) }
    ensures a_fate_each { IfOk result (λ heard. length heard.fates.items ≡ length script.now) }
{
    let mut said = Vec::new(alloc);
    let mut fates = Vec::new(alloc);
    for call in script {
        let fate = fate_of(world, call);
        let reply = world.step(alloc, call)?;
        said.push(reply)?;
        fates.push(fate)?;
    }
    Ok(Heard { said, fates })
}

/// Whether one reply is the other.
pub fn are_same(one: Reply, other: Reply) -> bool
    ensures tells { result ≡ is_same one other }
    ensures same { IsTrue result → one ≡ other }
    ensures others { result ≡ false → one ≢ other }
{
    match (one, other) {
        (Reply::Done(one), Reply::Done(other)) => one == other,
        (Reply::Refused(one), Reply::Refused(other)) => one == other,
        (Reply::Killed, Reply::Killed) => true,
        _ => false,
    }
}

/// Whether the replies are these. After the first different reply no more calls are made.
pub fn are_replies(
    alloc: Global,
    world: &mut World,
    script: &[Call],
    said: &[Reply],
) -> Result<bool, AllocError>
    requires one_each { length said.now ≡ length script.now }
    ensures compares_the_replies { IfOk result (Compares (replies world.old script.now) said.now) }
{
    for (at, call) in script.iter().enumerate() {
        if !are_same(world.step(alloc, call)?, said[at]) {
            return Ok(false);
        }
    }
    Ok(true)
}
