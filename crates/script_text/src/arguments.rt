//! The numbers of a line: of the process, and the words of the call.

ghost use Rattle.std.specs.Prelude.{◌≡◌, map, slice_index};
ghost use Rattle.script_text.specs.Numbers.{pid_of, numbers_of, six_words};
ghost use Rattle.script_text.specs.Progress.{ReadsList};
ghost use Rattle.script_text.specs.declared.error.ScriptCause.TheVariants.{Number as NumberCause};

use crate::error::ScriptCause;
use crate::line_fault::LineFault;
use kernel_model::{read_decimal, read_u64};
use std::alloc::Global;

/// The number of a process: decimal, from 1, below 2^32.
#[tactic(auto, unfolding(crate::specs::Numbers::pid_of))]
pub(crate) fn read_pid(word: &str) -> Option<u32>
    ensures { result ≡ pid_of word.now }
{
    let number = read_decimal(word)?;
    if number == 0 {
        return None;
    }
    u32::try_from(number).ok()
}

/// Returns the numbers that words write, if each of them writes one.
///
/// `Number` is the cause if one does not.
pub(crate) fn read_numbers(alloc: Global, words: &[&str]) -> Result<Vec<u64>, LineFault>
    ensures { ReadsList (numbers_of (map (λ word. word.now) words.now)) NumberCause result }
{
    let mut numbers = Vec::new(alloc);
    for word in words {
        let Some(number) = read_u64(word) else {
            return Err(LineFault::Faulty(ScriptCause::Number));
        };
        numbers.push(number)?;
    }
    Ok(numbers)
}

fn word_at(numbers: &[u64], at: usize) -> u64
    ensures { result ≡ slice_index numbers.now at }
{
    match numbers.get(at) {
        Some(number) => *number,
        None => 0,
    }
}

/// The six words of a call whose first ones are these, and the others 0.
pub(crate) fn six_words(numbers: &[u64]) -> [u64; 6]
    ensures { result ≡ six_words numbers.now }
{
    [
        word_at(numbers, 0),
        word_at(numbers, 1),
        word_at(numbers, 2),
        word_at(numbers, 3),
        word_at(numbers, 4),
        word_at(numbers, 5),
    ]
}
