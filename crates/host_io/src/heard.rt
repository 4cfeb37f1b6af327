//! Remembers the answers of a folder, for proofs alone: it takes no memory, and does nothing when the program runs.
ghost use Rattle.std.specs.Prelude.{◌≡◌, List, []};
ghost use Rattle.std.specs.Borrow.{ftrue};
ghost use Rattle.host_io.specs.Heard.{Answer, answers_code};

use crate::reading::ShelfError;
use std::marker::Model;

/// The answers so far, the last one first.
#[derive(Drop)]
pub(crate) struct Heard {
    ghost answers: { List Answer } by { answers_code },
}

impl Model for Heard {
    ghost also_owns = { λ _. ftrue };
}

/// An answer of a folder, with its question.
#[derive(Clone, Copy, Drop)]
pub(crate) enum Said<'a> {
    /// The answer to a read of the file at this path with this limit.
    File(&'a str, u64, &'a Result<Vec<u8>, ShelfError>),
    /// The answer to a listing of this folder.
    Folder(&'a str, &'a Result<Vec<String>, ShelfError>),
}

impl Heard {
    ghost use Rattle.host_io.specs.Noting.{noted};

    /// No answer so far.
    pub(crate) fn new() -> Heard
        ensures { result.answers ≡ [] }
    {
        Heard {}
    }

    /// Adds an answer.
    #[inline(always)]
    pub(crate) fn and(&self, _said: &Said<'_>) -> Heard
        ensures { result.answers ≡ noted self.now.answers _said.now }
    {
        Heard {}
    }
}
