//! Identifiers of tests, which contracts see as their bytes.

ghost use Rattle.std.specs.Prelude.{◌≡◌, Some, IfOk, string_bytes};

use std::alloc::{AllocError, Global};
use std::fmt;
use std::marker::Model;

/// The identifier of a test: the name of a member of a policy.
#[derive(Debug, Drop)]
pub struct TestId {
    text: String,
}

impl Model for TestId {
    ghost use Rattle.std.specs.Prelude.{List, ℕ, string_bytes};

    ghost Value = { List ℕ };

    ghost view = { λ id. string_bytes id.text };
}

impl fmt::Display for TestId {
    ghost output = { λ id. Some id };

    fn fmt<W: fmt::Write>(&self, f: &mut fmt::Formatter<W>) -> fmt::Result {
        f.write_str(self.text.as_str())
    }
}

impl TestId {
    /// A copy of a text.
    pub fn new(alloc: Global, text: &str) -> Result<TestId, AllocError>
        ensures same_text { IfOk result (λ id. id ≡ text.now) }
    {
        Ok(TestId {
            text: String::from_str(alloc, text)?,
        })
    }

    /// The identifier of this text.
    pub fn from_string(text: String) -> TestId
        ensures same_text { result ≡ string_bytes text }
    {
        TestId { text }
    }

    /// The text of the identifier.
    pub fn as_str(&self) -> &str
        ensures same_text { result.now ≡ self.now }
    {
        self.text.as_str()
    }
}
