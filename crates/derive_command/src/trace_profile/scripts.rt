//! Calls of a script that ask to push a program.

ghost use Rattle.std.specs.Prelude.{◌≡◌, ◌<◌, IfSome, length, position};
ghost use Rattle.derive_command.specs.trace_profile.Scripts.{first_seccomp, is_seccomp};

use asked_service::{Call, CallTable};

// Whether the call has the number of seccomp(2) in its ABI.
fn is_seccomp(calls: &CallTable, call: &Call) -> bool
    ensures { result ≡ is_seccomp calls.now call.now }
{
    match calls.name_in(call.abi, call.nr) {
        Some(name) => name == "seccomp",
        None => false,
    }
}

// The place of the first such call.
fn seccomp_at(calls: &CallTable, script: &[Call]) -> Option<usize>
    ensures first { result ≡ position (is_seccomp calls.now) script.now }
    ensures within { IfSome result (λ place. place < length script.now) }
{
    script.iter().position(|call| is_seccomp(calls, call))
}

/// The first such call, counted from 1.
pub fn first_seccomp(calls: &CallTable, script: &[Call]) -> Option<u64>
    ensures first_of_the_script { result ≡ first_seccomp calls.now script.now }
{
    match seccomp_at(calls, script) {
        Some(place) => Some(place as u64 + 1),
        None => None,
    }
}
