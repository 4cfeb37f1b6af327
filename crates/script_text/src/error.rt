//! Why a script is refused.

ghost use Rattle.std.specs.Prelude.{◌≡◌};
ghost use Rattle.script_text.specs.Causes.{cause_text};

use ScriptCause::{Name, Number, Payload, Pid, Words};
use thiserror::Error;

/// What is wrong with a line; of several, the first in this order.
#[derive(Clone, Copy, Debug, PartialEq, Eq)]
pub enum ScriptCause {
    /// PID is not a decimal number from 1 and below 2^32.
    Pid,
    /// NAME is no call of its ABI, and not `#` with a decimal number below 2^32, or the table lacks the ABI.
    Name,
    /// The payload of the call is missing, or not of its form.
    Payload,
    /// A WORD is not a decimal number, or `0x` and hex digits, below 2^64.
    Number,
    /// There is no NAME, or there are more than six numbers.
    Words,
}

/// Why a script is refused.
#[derive(Clone, Copy, Debug, Error)]
pub enum ScriptError {
    /// The bytes are not UTF-8, or have a NUL.
    #[error("no text")]
    NotText,
    /// The first faulty line, from 1, and its cause.
    #[error("line {0}: {1:?}")]
    Line(u64, ScriptCause),
    /// There are more than 16,384 calls before any faulty line.
    #[error("too many calls")]
    TooMany,
    /// There is no memory left.
    #[error("out of memory")]
    Memory,
}

impl ScriptCause {
    /// The word that is printed for the cause.
    pub fn text(self) -> &'static str
        ensures printed_word { result.now ≡ cause_text self }
    {
        match self {
            Pid => "pid",
            Name => "name",
            Payload => "payload",
            Number => "number",
            Words => "words",
        }
    }
}
