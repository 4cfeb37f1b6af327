// Defines a text that contracts see as its bytes.
//
// In contracts, records with such texts are records of lists and can be compared.
ghost use Rattle.std.specs.Prelude.{◌≡◌, ◌++◌, IfOk, OnOk, OnErr};

use std::alloc::{AllocError, Global};
use std::marker::Model;

/// A text, which contracts see as its bytes.
#[derive(Debug, Drop)]
pub struct Text {
    inner: String,
}

impl Model for Text {
    ghost use Rattle.std.specs.Prelude.{List, ℕ};
    ghost use Rattle.std.specs.String.{string_bytes};

    ghost Value = { List ℕ };

    ghost view = { λ t. string_bytes t.inner };
}

impl From<String> for Text {
    ghost use Rattle.std.specs.Prelude.{◌≡◌};
    ghost use Rattle.std.specs.String.{string_bytes};

    ghost from_gives = { λ text made. made ≡ string_bytes text };

    fn from(text: String) -> Self {
        Text { inner: text }
    }
}

impl Text {
    /// Returns a copy of a text.
    pub fn new(alloc: Global, text: &str) -> Result<Text, AllocError>
        ensures same_text { IfOk result (λ made. made ≡ text.now) }
    {
        Ok(Text {
            inner: String::from_str(alloc, text)?,
        })
    }

    /// Returns the text.
    pub fn as_str(&self) -> &str
        ensures same_text { result.now ≡ self.now }
    {
        self.inner.as_str()
    }

    /// Appends a piece to the text.
    pub fn push(&mut self, piece: &str) -> Result<(), AllocError>
        ensures longer { OnOk result (self.new ≡ self.old ++ piece.now) }
        ensures unchanged { OnErr result (self.new ≡ self.old) }
    {
        self.inner.push_str(piece)
    }
}
