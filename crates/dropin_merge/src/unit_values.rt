//! Reads the values that a unit gives to a key, over all its files, and reads keys of the common kinds.
//!
//! It takes the files in order and expands each value. It notes and skips a value that cannot be expanded. systemd.unit(5)
//! and systemd.syntax(7) have the rules. `dropin_merge` provides the files, and `unit_names` expands the specifiers.
//! Settings are read from these values, as booleans, words and lines of words. Each answer carries its notes.
//!
//! `flag_of_key(alloc, &unit, "NoNewPrivileges")?.what` is the value of a boolean key.

mod assignments;
mod flags;
mod force;
mod keyed;
mod lasting;
mod laws;
mod lines;
mod listed;
mod noting;
mod reading;
mod value;
mod words;
mod written;

pub(crate) use assignments::is_of_service;
pub use assignments::{ServiceAssignments, service_assignments};
pub use flags::flag_of_key;
pub use force::in_force;
pub use lasting::{KeyValue, last_of_key, last_text_of_key};
pub use laws::other_sections;
pub use lines::{Line, Words, read_line, read_words};
pub use listed::{Listed, lines_of_key};
pub use noting::{note_causes, note_value};
pub use reading::{value_at, values_of_key};
pub use value::{FileNote, Place, Said, Value};
pub use words::words_of_key;
pub use written::written_values;
