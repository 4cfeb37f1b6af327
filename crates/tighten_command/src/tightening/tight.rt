//! How far a unit can be tightened, and why it cannot.

ghost use Rattle.std.specs.Prelude.{◌≡◌};
ghost use Rattle.asked_service.specs.declared.launching.refusal.Refusal.TheVariants.{Memory};
ghost use Rattle.tighten_command.specs.declared.tightening.tight.TightenError.TheVariants.{NotLaunched};

use asked_service::{ItemList, Refusal};
use std::alloc::AllocError;

/// Numbers of items, from 1; contracts see them as a list.
pub type Items = ItemList<u8>;

/// How far a unit can be tightened.
#[derive(Drop)]
pub struct Tight {
    /// The items that can be added, ascending.
    pub items: Items,
    /// How many questions the unit itself denies.
    pub denied_before: u64,
    /// How many are open.
    pub open_before: u64,
    /// How many it denies with the items.
    pub denied_after: u64,
    /// How many are open then.
    pub open_after: u64,
}

/// Why a unit is not tightened.
#[derive(Drop)]
pub enum TightenError {
    /// The unit itself is not launched, or memory ran out.
    NotLaunched(Refusal),
    /// This question of those to be kept, counted from 1, is the first that the unit itself denies.
    Keep(u64),
    /// This wish, counted from 1, is the first that answers false for the unit itself.
    Wish(u64),
}

impl From<AllocError> for TightenError {
    ghost from_gives = { λ _ e. e ≡ NotLaunched Memory };

    fn from(_: AllocError) -> Self {
        TightenError::NotLaunched(Refusal::Memory)
    }
}

impl From<Refusal> for TightenError {
    ghost from_gives = { λ refusal e. e ≡ NotLaunched refusal };

    fn from(refusal: Refusal) -> Self {
        TightenError::NotLaunched(refusal)
    }
}
