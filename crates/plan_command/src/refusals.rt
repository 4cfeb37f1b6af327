//! The lines of units whose mounts have no plan.
ghost use Rattle.std.specs.Prelude.{◌≡◌, IfOk};
ghost use Rattle.plan_command.specs.Refusals.{cause_at, error_line};

use abs_path::AbsPath;
use mount_plan::PlanError;
use std::alloc::{AllocError, Global};
use unit_inputs::command_answers::refused_line;
use unit_inputs::push_word;

// A cause, and the path that it is about.
fn cause_at(alloc: Global, cause: &[u8], path: &AbsPath) -> Result<Vec<u8>, AllocError>
    ensures { IfOk result (λ why. why.items ≡ cause_at cause.now path.now) }
{
    let mut why = cause.to_vec(alloc)?;
    why.push(b' ')?;
    push_word(&mut why, path.text())?;
    Ok(why)
}

/// Makes the line of a unit whose mounts have no plan: `no-path` if the site has no row at a path, `kind` if a directory and a
/// file would cover one another. If memory runs out, there is no line.
pub fn plan_line(alloc: Global, unit: &str, error: &PlanError) -> Result<Vec<u8>, AllocError>
    ensures tells_the_refusal { IfOk result (λ line. line.items ≡ error_line unit.now error.now) }
{
    let why = match error {
        PlanError::Missing(path) => cause_at(alloc, b"no-path", path)?,
        PlanError::Kind(path) => cause_at(alloc, b"kind", path)?,
        PlanError::Memory => Vec::new(alloc),
    };
    refused_line(alloc, unit, why.as_slice())
}
