//! Finds the files that define a unit, and reads the values that they give to its keys.
//!
//! `resolve(alloc, &mut shelf, "web.service")?` has the files in force, in the order of use. They are the unit's fragment and the
//! drop-ins that change it, from several locations (systemd.unit(5)). The crate reads them from a `host_io` shelf.
//!
//! - [`unit_values`] reads the values of a key over all files of a unit, as booleans, words or lines.
#![tactic(auto)]

mod dropins;
mod errors;
mod files;
mod fragment;
mod listing;
mod places;
mod resolved;
mod resolving;
mod spots;
mod unit_files;
pub mod unit_values;
mod winners;

pub use errors::ResolveError;
pub use resolved::{Resolved, UnitFile};
pub use resolving::resolve;
pub use unit_files::UnitFiles;
pub use unit_grammar::{
    Assignment, Assignments, Held, HeldList, ItemList, Line, NoteCause, Notes, Text, UnitError,
    UnitText, linux_numbers, push_u64, push_word, read_bool, read_decimal, read_lines, read_text,
    read_unit, words,
};
pub use unit_names::{ExpandError, NameError, UnitName, Version, expand};
