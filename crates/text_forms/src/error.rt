//! Defines why a text is no list of words.

use thiserror::Error;

/// Why a text is no list of words. If a text has several faults, the fault listed first here is reported.
#[derive(Clone, Copy, Debug, PartialEq, Eq, Error)]
pub enum WordsError {
    /// A backslash precedes a byte that systemd.syntax(7) does not allow there, or its escape is cut.
    #[error("an escape cannot be read")]
    Escape,
    /// A quote is open at the end.
    #[error("a quote is not closed")]
    Quote,
    /// A word is not UTF-8.
    #[error("a word is not UTF-8")]
    NotText,
    /// Memory ran out for the words.
    #[error("out of memory")]
    Memory,
}
