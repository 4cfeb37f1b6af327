//! What is derived, and why nothing is.

ghost use Rattle.std.specs.Prelude.{◌≡◌};
ghost use Rattle.derive_command.specs.declared.trace_profile.derived.DeriveError.TheVariants.{NotLaunched};

use asked_service::{ItemList, Refusal};

/// Places of lines among the call lines of calls.txt, from 0, ascending. Contracts see them as a list.
pub type Names = ItemList<u32>;

/// A derived list.
#[derive(Drop)]
pub struct Derived {
    /// The calls to be allowed beside `@default`, each by the first line of its name.
    pub names: Names,
}

/// Why no list is derived.
#[derive(Drop)]
pub enum DeriveError {
    /// This call of the script, counted from 1, is the first that asks to push a program, seccomp(2). Its reply depends on the
    /// lengths of the launch's programs, which are not the same for all lists.
    Seccomp(u64),
    /// The unit that allows every call is not launched, or memory ran out.
    NotLaunched(Refusal),
}

impl From<Refusal> for DeriveError {
    ghost from_gives = { λ refusal e. e ≡ NotLaunched refusal };

    fn from(refusal: Refusal) -> Self {
        DeriveError::NotLaunched(refusal)
    }
}
