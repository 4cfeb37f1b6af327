//! Reads ids of users and groups.

ghost use Rattle.std.specs.Prelude.{◌≡◌, IfOk, is_some};
ghost use Rattle.std.specs.List.{filter_map, list_all};
ghost use Rattle.toml.specs.View.{view};
ghost use Rattle.site_table.specs.Ids.{count_of, spaces_at, id_of, id_at, is_out_of_range, as_id, ids_at, are_ids};

use crate::texts::Ids;
use std::alloc::{AllocError, Global};
use toml::Value;
use toml_shapes::{elements_at, number_at};

/// The greatest id. The next number means no id, for example in setresuid(2).
const GREATEST_ID: i64 = 4_294_967_294;

/// The most user namespaces that a site may allow.
const MOST_SPACES: i64 = 64;

fn id_of(number: i64) -> Option<u32>
    ensures { result ≡ id_of number }
{
    if 0 <= number && number <= GREATEST_ID {
        Some(number as u32)
    } else {
        None
    }
}

/// Returns the id at a key, if the key has a number in range.
pub fn id_at(value: &Value, key: &str) -> Option<u32>
    ensures id_or_none { result ≡ id_at key.now (view value.now) }
{
    id_of(number_at(value, key)?)
}

/// Returns whether the key has a number out of range.
pub fn is_out_of_range(value: &Value, key: &str) -> bool
    ensures past_the_ids { result ≡ is_out_of_range key.now (view value.now) }
{
    number_at(value, key).is_some_and(|number| id_of(number).is_none())
}

// returns the number, if a site may allow so many
fn count_of(number: i64) -> Option<u32>
    ensures { result ≡ count_of number }
{
    if 0 <= number && number <= MOST_SPACES {
        Some(number as u32)
    } else {
        None
    }
}

/// Returns the number of user namespaces that may be made: 0 if the key is missing, and None if the number is
/// out of range.
pub fn spaces_at(site: &Value) -> Option<u32>
    ensures count_in_range { result ≡ spaces_at (view site.now) }
{
    match number_at(site, "user_namespaces") {
        None => Some(0),
        Some(number) => count_of(number),
    }
}

fn as_id(value: &Value) -> Option<u32>
    ensures { result ≡ as_id (view value.now) }
{
    id_of(value.as_integer()?)
}

fn ids(alloc: Global, values: &[Value]) -> Result<Vec<u32>, AllocError>
    ensures { IfOk result (λ ids. ids.items ≡ filter_map (λ value. as_id (view value)) values.now) }
{
    values
        .iter()
        .filter_map(|value| as_id(value))
        .collect(alloc)
}

fn all_ids(values: &[Value]) -> bool
    ensures { result ≡ list_all (λ value. is_some (as_id (view value))) values.now }
{
    values.iter().all(|value| as_id(value).is_some())
}

/// Returns the ids of the array at a key.
pub fn ids_at(alloc: Global, value: &Value, key: &str) -> Result<Ids, AllocError>
    ensures listed_ids { IfOk result (λ ids. ids ≡ ids_at key.now (view value.now)) }
{
    let ids = ids(alloc, elements_at(value, key))?;
    Ok(Ids::new(ids))
}

/// Returns whether each element of the array at a key is an id.
pub fn are_ids(value: &Value, key: &str) -> bool
    ensures all_are_ids { result ≡ are_ids key.now (view value.now) }
{
    all_ids(elements_at(value, key))
}
