//! The lines of launches.
ghost use Rattle.std.specs.Prelude.{◌≡◌, IfOk};
ghost use Rattle.report_text.specs.Launches.{killed_line, launched_line, privileged_line, refused_line, yes_or_no};

use abs_path::AbsPath;
use exposure_score::push_word;
use std::alloc::{AllocError, Global};

/// The printed facts of a launch that ended well.
#[derive(Clone, Copy)]
pub struct Launched {
    /// The user that the program runs as.
    pub uid: u32,
    /// Its group.
    pub gid: u32,
    /// Whether execve(2) can give it no new privileges.
    pub no_new_privs: bool,
    /// How many steps the launch took.
    pub steps: u32,
}

fn yes_or_no(yes: bool) -> &'static str
    ensures { result.now ≡ yes_or_no yes }
{
    if yes { "yes" } else { "no" }
}

/// Returns the line of a launch that ended well: the user, the group, whether there are new privileges, and the
/// steps.
pub fn launched_line(alloc: Global, launched: Launched) -> Result<Vec<u8>, AllocError>
    ensures tells_the_launch { IfOk result (λ line. line.items ≡ launched_line launched) }
{
    let Launched {
        uid,
        gid,
        no_new_privs,
        steps,
    } = launched;
    let nnp = yes_or_no(no_new_privs);
    Ok(format!(in alloc; "launched uid {uid} gid {gid} nnp {nnp} steps {steps}\n")?.into_bytes())
}

/// Returns the line of a launch at whose step the kernel refuses a call.
pub fn refused_line(alloc: Global, step: u32, errno: u32) -> Result<Vec<u8>, AllocError>
    ensures tells_step_and_errno { IfOk result (λ line. line.items ≡ refused_line step errno) }
{
    Ok(format!(in alloc; "launch refused step {step} errno {errno}\n")?.into_bytes())
}

/// Returns the line of a launch at whose step the service is killed.
pub fn killed_line(alloc: Global, step: u32) -> Result<Vec<u8>, AllocError>
    ensures tells_the_step { IfOk result (λ line. line.items ≡ killed_line step) }
{
    Ok(format!(in alloc; "launch killed step {step}\n")?.into_bytes())
}

/// Returns the line of a launch whose program has a set-id bit or capabilities.
pub fn privileged_line(alloc: Global, program: &AbsPath) -> Result<Vec<u8>, AllocError>
    ensures names_the_program { IfOk result (λ line. line.items ≡ privileged_line program.now) }
{
    let mut line = b"launch privileged ".to_vec(alloc)?;
    push_word(&mut line, program.text())?;
    line.push(b'\n')?;
    Ok(line)
}
