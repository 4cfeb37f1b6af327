// Defines why calls.txt is refused.
ghost use Rattle.std.specs.Prelude.{◌≡◌};
ghost use Rattle.call_table.specs.Causes.{cause_text};
ghost use Rattle.call_table.specs.declared.causes.CallsError.TheVariants.{Memory};

use crate::names::Name;
use std::alloc::AllocError;
use thiserror::Error;

/// The fault of a line. If a line has several faults, the fault listed first here is reported.
#[derive(Clone, Copy, Debug, PartialEq, Eq)]
pub enum CallsCause {
    /// The line has an unknown first word, a wrong number of words, or an ill-formed name. Or `abi` is misplaced: the line at
    /// the front is no `abi` line, or this line is a third one. Or this line is a second `abi` line with the name `native` or
    /// without a line `version 2`.
    Words,
    /// An ill-formed NUMBER or ARCH.
    Number,
    /// CAP is no name of a capability, or differs from the CAP of the call in the other ABI. A call with a CAP differs from a
    /// call without one.
    Cap,
    /// The line writes a CAP for a call that takes no CAP.
    Modelled,
    /// An earlier line of the kind, or of the ABI for a call, has the same name or the same number. Or a second `abi` line has the
    /// name or the ARCH of the first.
    Duplicate,
    /// No earlier line names a member.
    Member,
    /// The table has more than 512 calls of an ABI, 128 families or 128 groups.
    TooMany,
}

impl CallsCause {
    /// Returns the printed word for the cause.
    pub fn text(self) -> &'static str
        ensures printed_word { result.now ≡ cause_text self }
    {
        match self {
            CallsCause::Words => "words",
            CallsCause::Number => "number",
            CallsCause::Cap => "cap",
            CallsCause::Modelled => "modelled",
            CallsCause::Duplicate => "duplicate",
            CallsCause::Member => "member",
            CallsCause::TooMany => "too-many",
        }
    }
}

/// Why calls.txt is refused.
#[derive(Debug, Drop, Error)]
pub enum CallsError {
    /// The bytes are not UTF-8, or have a NUL.
    #[error("no text")]
    NotText,
    /// The first faulty line, from 1, has this cause.
    #[error("line {0}: {1:?}")]
    Line(u64, CallsCause),
    /// The file has no line for an `abi` line: all lines except a first `version 2` are skipped.
    #[error("no abi line")]
    NoAbi,
    /// The native ABI lacks this call, the first such call that every launch makes.
    #[error("no call {0}")]
    NoCall(Name),
    /// Memory ran out.
    #[error("out of memory")]
    Memory,
}

impl From<AllocError> for CallsError {
    ghost from_gives = { λ _ e. e ≡ Memory };

    fn from(_: AllocError) -> Self {
        CallsError::Memory
    }
}
