// Sorts calls by their numbers.
ghost use Rattle.std.specs.Prelude.{◌≡◌, IfOk};
ghost use Rattle.call_table.specs.Lookups.{AreOnce};
ghost use Rattle.call_table.specs.ByNumber.{numbered_lines, AscendsByNumber};

use crate::listed::CallLine;
use std::alloc::{AllocError, Global};

/// The number of a line, and the position of that line from 0.
#[derive(Clone, Copy)]
pub struct Numbered {
    pub number: u32,
    pub position: usize,
}

// Returns the number of each line with its position, in the order of the lines.
fn numbered_lines(alloc: Global, lines: &[CallLine]) -> Result<Vec<Numbered>, AllocError>
    ensures { IfOk result (λ order. order.items ≡ numbered_lines lines.now) }
{
    let mut order = Vec::new(alloc);
    for (position, line) in lines.iter().enumerate() {
        order.push(Numbered {
            number: line.number,
            position,
        })?;
    }
    Ok(order)
}

/// Returns the numbers of lines with their positions, ascending by number.
pub fn by_number(alloc: Global, lines: &[CallLine]) -> Result<Vec<Numbered>, AllocError>
    requires { AreOnce lines.now }
    ensures ascending { IfOk result (λ order. AscendsByNumber lines.now order.items) }
{
    let mut order = numbered_lines(alloc, lines)?;
    order.sort_unstable_by_key(|numbered| numbered.number);
    Ok(order)
}
