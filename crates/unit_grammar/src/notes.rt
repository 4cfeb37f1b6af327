// Defines notes on lines that have no effect.
//
// The grammar makes two of the causes; the readers of the values make the others.
ghost use Rattle.std.specs.Prelude.{◌≡◌};
ghost use Rattle.unit_grammar.specs.Causes.{cause_text};

use NoteCause::{NoEquals, NoSection, Specifier, Unjudged, UnknownName, Value};
use std::alloc::{AllocError, Global};
use text_forms::item_list::ItemList;

/// Why a line, or a part of it, has no effect.
#[derive(Clone, Copy, Debug, PartialEq, Eq)]
pub enum NoteCause {
    /// An assignment precedes the first section header.
    NoSection,
    /// A line has no `=`, or nothing before it.
    NoEquals,
    /// A value cannot be read.
    Value,
    /// Lentsheep does not judge a setting.
    Unjudged,
    /// A value has a specifier that cannot be expanded.
    Specifier,
    /// A value has an unknown name.
    UnknownName,
}

/// A note on a line of a file.
#[derive(Clone, Copy)]
pub struct Note {
    /// The number of the line, from 1. A joined line has the number of its first line.
    pub line: u64,
    pub cause: NoteCause,
}

impl NoteCause {
    /// Returns the printed word for the cause.
    pub fn text(self) -> &'static str
        ensures printed_word { result.now ≡ cause_text self }
    {
        match self {
            NoSection => "no-section",
            NoEquals => "no-equals",
            Value => "value",
            Unjudged => "unjudged",
            Specifier => "specifier",
            UnknownName => "unknown-name",
        }
    }
}

/// Notes, which contracts see as a list.
pub type Notes = ItemList<Note>;
