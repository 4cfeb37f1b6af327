//! Looks up keys in tables of TOML, and tests if a table has the keys that it may have.
//!
//! `text_at(&table, "path")` is `Some("/")` in the table of `path = "/"`. That table has the keys `KEYS` of one key
//! `("path", Shape::Text, Need::Must)`. `toml` gives the tree of a text.
#![tactic(auto)]

mod keys;
mod tree;

pub use keys::{Key, Need, Shape, has_keys};
pub use tree::{elements_at, elements_of, flag_at, number_at, text_at};
