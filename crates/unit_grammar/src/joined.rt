// Joins a line that continues in the next.
//
// Only a joined line has a text of its own; any other line is read at its place in the file.
ghost use Rattle.std.specs.Prelude.{◌≡◌, IfOk, true};
ghost use Rattle.unit_grammar.specs.Spaces.{continues};
ghost use Rattle.unit_grammar.specs.Joining.{opened, extended};

use crate::spaces::without_backslash;
use crate::texts::Text;
use std::alloc::{AllocError, Global};

/// A line of the file, or several joined lines.
#[derive(Drop)]
pub struct Line {
    /// The number of its first line, from 1.
    pub number: u64,
    pub text: Text,
}

// Returns the line that has begun with a part after it, or the part alone if no line has begun.
fn extend(alloc: Global, begun: Option<Line>, number: u64, text: &str) -> Result<Line, AllocError>
    ensures { IfOk result (λ line. line ≡ extended begun (record { number = number; text = text.now })) }
{
    match begun {
        Some(mut line) => {
            line.text.push(text)?;
            Ok(line)
        }
        None => Ok(Line {
            number,
            text: Text::new(alloc, text)?,
        }),
    }
}

/// Returns the same for a part that continues in the next line, with a space in place of its last backslash.
pub fn extend_open(
    alloc: Global,
    begun: Option<Line>,
    number: u64,
    text: &str,
) -> Result<Line, AllocError>
    requires { continues text.now ≡ true }
    ensures goes_on { IfOk result (λ line. line ≡ extended begun (opened (record { number = number; text = text.now }))) }
{
    let mut line = extend(alloc, begun, number, without_backslash(text))?;
    line.text.push(" ")?;
    Ok(line)
}
