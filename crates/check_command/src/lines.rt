//! The lines of comparisons.
ghost use Rattle.std.specs.Prelude.{◌≡◌, ◌++◌, flat_map, IfOk, OnOk};
ghost use Rattle.check_command.specs.Lines.{arg_text, differs_line, outcome_text, same_line};

use filter_check::{CallData, Outcome};
use std::alloc::{AllocError, Global};
use unit_inputs::push_u64;

// How many paths a program has that decides every call alike.
fn same_line(alloc: Global, count: u32) -> Result<Vec<u8>, AllocError>
    ensures { IfOk result (λ line. line.items ≡ same_line count) }
{
    Ok(format!(in alloc; "same paths {count}\n")?.into_bytes())
}

// Writes numbers, with a space before each.
fn push_args(out: &mut Vec<u8>, args: &[u64]) -> Result<(), AllocError>
    ensures { OnOk result (out.new.items ≡ out.old.items ++ flat_map arg_text args.now) }
{
    for arg in args {
        out.push(b' ')?;
        push_u64(out, *arg)?;
    }
    Ok(())
}

// The call data at which two programs answer otherwise, and both answers.
fn differs_line(alloc: Global, at: &CallData, theirs: u32, ours: u32) -> Result<Vec<u8>, AllocError>
    ensures { IfOk result (λ line. line.items ≡ differs_line at.now theirs ours) }
{
    let nr = at.nr;
    let arch = at.arch;
    let ip = at.ip;
    let mut line = format!(in alloc; "differs nr {nr} arch {arch} ip {ip} args")?.into_bytes();
    push_args(&mut line, &at.args)?;
    line.extend_from_slice(format!(in alloc; " theirs {theirs} ours {ours}\n")?.as_bytes())?;
    Ok(line)
}

/// The line of a comparison: that the program decides every call alike, with the number of its paths, or the least call data at
/// which it does not, with both answers. Numbers are decimal.
pub fn outcome_line(alloc: Global, outcome: &Outcome) -> Result<Vec<u8>, AllocError>
    ensures tells_the_outcome { IfOk result (λ line. line.items ≡ outcome_text outcome.now) }
{
    match outcome {
        Outcome::Same(count) => same_line(alloc, *count),
        Outcome::Differs { at, theirs, ours } => differs_line(alloc, at, *theirs, *ours),
    }
}
