//! Searches for things that serve together, of which none can be left out.

ghost use Rattle.std.specs.Prelude.{◌≡◌, ◌++◌, ◌∷◌, IfOk};
ghost use Rattle.why_command.specs.deciding_lines.Least.{AreNeeded, IsPartOf};
ghost use Rattle.why_command.specs.deciding_lines.LeavingOut.{IsRound, LeavesOut};

use std::alloc::{AllocError, Global};

/// Things; some sets of them serve.
pub trait Search {
    ghost use Rattle.std.specs.Prelude.{IfOk, List};
    ghost use Rattle.why_command.specs.deciding_lines.Least.{Tells};

    /// One of the things.
    type Thing: Copy;

    /// What a search finds with things that serve.
    type Found: Drop;

    /// The condition for trying things.
    ghost can_try: { Self → Type 0 };

    /// These things serve, and give this result.
    ghost serves: { Self → List Self.Thing → Self.Found → Type 0 };

    /// These things do not serve.
    ghost fails: { Self → List Self.Thing → Type 0 };

    /// Returns the result of these things if they serve.
    fn attempt(
        &self,
        alloc: Global,
        things: &[Self::Thing],
    ) -> Result<Option<Self::Found>, AllocError>
        requires can_try { can_try self.now }
        ensures tells { IfOk result (Tells (serves self.now things.now) (fails self.now things.now)) };
}

/// Things that serve, with their result.
#[derive(Drop)]
pub struct Serving<T, F> {
    /// The things.
    pub things: Vec<T>,
    /// The result of these things.
    pub found: F,
}

// Appends the second list to the first.
fn joined<T: Copy>(alloc: Global, before: &[T], behind: &[T]) -> Result<Vec<T>, AllocError>
    ensures { IfOk result (λ all. all.items ≡ before.now ++ behind.now) }
{
    let mut all = Vec::from_slice(alloc, before)?;
    all.extend_from_slice(behind)?;
    Ok(all)
}

// Puts a thing before others.
fn in_front<T: Copy>(alloc: Global, thing: T, behind: &[T]) -> Result<Vec<T>, AllocError>
    ensures { IfOk result (λ all. all.items ≡ thing ∷ behind.now) }
{
    let mut all = Vec::new(alloc);
    all.push(thing)?;
    all.extend_from_slice(behind)?;
    Ok(all)
}

// Leaves a thing out if the things before and after it serve without it; otherwise keeps it.
fn leave_out<S: Search>(
    alloc: Global,
    search: &S,
    before: &[S::Thing],
    thing: S::Thing,
    kept: Serving<S::Thing, S::Found>,
) -> Result<Serving<S::Thing, S::Found>, AllocError>
    requires can_try { S.can_try search.now }
    requires serves { S.serves search.now (before.now ++ (thing ∷ kept.things.items)) kept.found }
    ensures { IfOk result (LeavesOut (S.serves search.now) (S.fails search.now) before.now thing kept.things.items) }
{
    let others = joined(alloc, before, &kept.things)?;
    match search.attempt(alloc, &others)? {
        Some(found) => Ok(Serving {
            things: kept.things,
            found,
        }),
        None => Ok(Serving {
            things: in_front(alloc, thing, &kept.things)?,
            found: kept.found,
        }),
    }
}

// Tries to leave out each of the things, from the last to the first.
fn round<S: Search>(
    alloc: Global,
    search: &S,
    things: &[S::Thing],
    found: S::Found,
) -> Result<Serving<S::Thing, S::Found>, AllocError>
    requires can_try { S.can_try search.now }
    requires serves { S.serves search.now things.now found }
    ensures { IfOk result (IsRound (S.serves search.now) (S.fails search.now) things.now) }
{
    let mut left = things;
    let mut kept = Serving {
        things: Vec::new(alloc),
        found,
    };
    while let Some((thing, before)) = left.split_last() {
        let next = leave_out(alloc, search, before, *thing, kept)?;
        kept = next;
        left = before;
    }
    Ok(kept)
}

/// Leaves out things until none can be left out. After each success it tries all others again.
///
/// More things need not serve where fewer do, so another order of the things may give another result.
pub fn least<S: Search>(
    alloc: Global,
    search: &S,
    things: Vec<S::Thing>,
    found: S::Found,
) -> Result<Serving<S::Thing, S::Found>, AllocError>
    requires can_try { S.can_try search.now }
    requires serves { S.serves search.now things.items found }
    ensures serves { IfOk result (λ left. S.serves search.now left.things.items left.found) }
    ensures each_is_needed { IfOk result (λ left. AreNeeded (S.fails search.now) left.things.items) }
    ensures some_in_their_order { IfOk result (λ left. IsPartOf left.things.items things.items) }
{
    let kept = round(alloc, search, &things, found)?;
    if kept.things.len() == things.len() {
        Ok(kept)
    } else {
        least(alloc, search, kept.things, kept.found)
    }
}
