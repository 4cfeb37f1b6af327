//! The lines of a table of mounts.
ghost use Rattle.std.specs.Prelude.{◌≡◌, ◌++◌, IfOk, OnOk};
ghost use Rattle.plan_command.specs.Lines.{count_line, executing, flags_words, mount_line, shown_words, unprivileged, writing};

use mount_plan::{Flags, MountStep, What};
use std::alloc::{AllocError, Global};
use unit_inputs::push_word;

fn writing(flags: Flags) -> &'static str
    ensures { result.now ≡ writing flags.read_only }
{
    if flags.read_only { "ro" } else { "rw" }
}

fn executing(flags: Flags) -> &'static str
    ensures { result.now ≡ executing flags.no_exec }
{
    if flags.no_exec { "noexec" } else { "exec" }
}

fn unprivileged(flags: Flags) -> &'static str
    ensures { result.now ≡ unprivileged flags.no_suid }
{
    if flags.no_suid { " nosuid" } else { "" }
}

// Appends how what is shown may be used.
fn push_flags(line: &mut Vec<u8>, flags: Flags) -> Result<(), AllocError>
    ensures { OnOk result (line.new.items ≡ line.old.items ++ flags_words flags) }
{
    line.push(b' ')?;
    line.extend_from_slice(writing(flags).as_bytes())?;
    line.push(b' ')?;
    line.extend_from_slice(executing(flags).as_bytes())?;
    line.extend_from_slice(unprivileged(flags).as_bytes())
}

// Appends what a mount shows. Nobody may use what is hidden, so nothing is said of how.
fn push_shown(line: &mut Vec<u8>, step: &MountStep) -> Result<(), AllocError>
    ensures { OnOk result (line.new.items ≡ line.old.items ++ shown_words step.now.what step.now.flags) }
{
    match &step.what {
        What::Host(source) => {
            line.extend_from_slice(b" host ")?;
            push_word(line, source.text())?;
            push_flags(line, step.flags)
        }
        What::Empty => {
            line.extend_from_slice(b" empty")?;
            push_flags(line, step.flags)
        }
        What::Hidden { .. } => line.extend_from_slice(b" hidden"),
    }
}

/// The line of a mount.
pub fn mount_line(alloc: Global, step: &MountStep) -> Result<Vec<u8>, AllocError>
    ensures tells_the_mount { IfOk result (λ line. line.items ≡ mount_line step.now) }
{
    let mut line = b"mount ".to_vec(alloc)?;
    push_word(&mut line, step.place.text())?;
    push_shown(&mut line, step)?;
    line.push(b'\n')?;
    Ok(line)
}

/// The last line of all.
pub fn count_line(alloc: Global, count: usize) -> Result<Vec<u8>, AllocError>
    ensures counts { IfOk result (λ line. line.items ≡ count_line count) }
{
    Ok(format!(in alloc; "mounts {count}\n")?.into_bytes())
}
