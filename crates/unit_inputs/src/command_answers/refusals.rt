// Writes the lines of refused inputs.
ghost use Rattle.std.specs.Prelude.{◌≡◌, IfOk};
ghost use Rattle.unit_inputs.specs.command_answers.Refusals.{refused_line};

use exec_settings::push_word;
use std::alloc::{AllocError, Global};

/// Returns the line of a refused input: its name as an escaped word, and why it is refused.
pub fn refused_line(alloc: Global, what: &str, why: &[u8]) -> Result<Vec<u8>, AllocError>
    ensures tells_what_and_why { IfOk result (λ line. line.items ≡ refused_line what.now why.now) }
{
    let mut line = b"refused ".to_vec(alloc)?;
    push_word(&mut line, what)?;
    line.push(b' ')?;
    line.extend_from_slice(why)?;
    line.push(b'\n')?;
    Ok(line)
}
