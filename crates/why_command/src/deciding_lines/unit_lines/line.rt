//! An assignment in force.

use asked_service::{Place, Text};

/// An assignment in force: a line of `[Service]` in a file of a unit, whose key is read.
#[derive(Drop)]
pub struct UnitLine {
    /// The place of the line.
    pub place: Place,
    /// The key.
    pub key: Text,
    /// The value, as written; lines that a `\` joins are one value.
    pub value: Text,
}
