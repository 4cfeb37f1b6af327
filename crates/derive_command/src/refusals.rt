//! The line of a script that asks to push a program.

ghost use Rattle.std.specs.Prelude.{◌≡◌, IfOk};
ghost use Rattle.derive_command.specs.Refusals.{seccomp_cause, seccomp_line};

use asked_service::refused_line;
use std::alloc::{AllocError, Global};

fn seccomp_cause(alloc: Global, number: u64) -> Result<Vec<u8>, AllocError>
    ensures { IfOk result (λ cause. cause.items ≡ seccomp_cause number) }
{
    Ok(format!(in alloc; "call {number} seccomp")?.into_bytes())
}

/// The line of a script whose call of this number, from 1, is the first that asks to push a program, seccomp(2).
pub fn seccomp_line(alloc: Global, path: &str, number: u64) -> Result<Vec<u8>, AllocError>
    ensures tells_the_call { IfOk result (λ line. line.items ≡ seccomp_line path.now number) }
{
    let cause = seccomp_cause(alloc, number)?;
    refused_line(alloc, path, cause.as_slice())
}
