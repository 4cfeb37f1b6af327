//! Groups ends by their answers and conditions.
//!
//! The end with the least data may represent its group. Groups are found by hashes. A wrong guess costs time, but the result
//! is the same, because each representative is tested before an end is left out.
ghost use Rattle.std.specs.Prelude.{◌≡◌, length, IfOk};

use crate::filter_paths::End;
use crate::order::comes_before;
use std::alloc::{AllocError, Global};
use std::collections::HashMap;
use std::hash::{FoldHasher, Hash, Hasher};

// Returns a hash of the end's answer and its conditions on these words.
fn hash_of(end: &End, loaded: &[bool; 16]) -> u64 {
    let mut hasher = FoldHasher::default();
    end.answer.hash(&mut hasher);
    for at in 0..16 {
        if loaded[at] {
            end.region.word(at).conditions.as_slice().hash(&mut hasher);
        }
    }
    hasher.finish()
}

fn hashes_of(alloc: Global, ends: &[End], loaded: &[bool; 16]) -> Result<Vec<u64>, AllocError>
    ensures one_each { IfOk result (λ hashes. length hashes.items ≡ length ends.now) }
{
    let mut hashes = Vec::with_capacity(alloc, ends.len())?;
    for end in ends {
        hashes.push(hash_of(end, loaded))?;
    }
    Ok(hashes)
}

// Returns whether the end at one place has lesser data than the end at the other place.
fn is_less(ends: &[End], one: usize, other: usize) -> bool {
    if one >= ends.len() || other >= ends.len() {
        return false;
    }
    comes_before(&ends[one].least, &ends[other].least)
}

// Finds, for each hash, the place of the end with the least data.
fn least_places(
    alloc: Global,
    ends: &[End],
    hashes: &[u64],
) -> Result<HashMap<u64, usize>, AllocError> {
    let mut places = HashMap::new(alloc);
    for (at, hash) in hashes.iter().enumerate() {
        let old = places.get(hash).copied().unwrap_or(at);
        if old == at || is_less(ends, at, old) {
            places.insert(*hash, at)?;
        }
    }
    Ok(places)
}

/// Finds for each end the place of the end that may represent it.
pub fn find_representatives(
    alloc: Global,
    ends: &[End],
    loaded: &[bool; 16],
) -> Result<Vec<usize>, AllocError>
    ensures one_each { IfOk result (λ chosen. length chosen.items ≡ length ends.now) }
{
    let hashes = hashes_of(alloc, ends, loaded)?;
    let places = least_places(alloc, ends, hashes.as_slice())?;
    let mut chosen = Vec::new(alloc);
    for hash in &hashes {
        chosen.push(places.get(hash).copied().unwrap_or(0))?;
    }
    Ok(chosen)
}
