//! Reads what the keys of a unit say of users, groups and capabilities.
//!
//! The crate reads the values of each key in their order (systemd.exec(5)). It skips a value that it cannot read, with a
//! note. `unit_values` has the values, `site_table` the users and groups, and `cap_sets` the capabilities.
//!
//! `identity_of_unit(alloc, &unit, &site, false)?.what` has the ids that a service runs with.
#![tactic(auto)]

mod accounts;
mod ambient;
mod bounding;
mod cap_lists;
mod cap_names;
mod cap_sums;
mod error;
mod groups;
mod identities;
mod ids;
pub mod laws;
mod new_privileges;
mod users;

pub use accounts::{Gids, Identity};
pub use ambient::ambient_set;
pub use bounding::bounding_set;
pub use dropin_merge::unit_values::{
    FileNote, Place, Value, flag_of_key, in_force, note_value, read_words, service_assignments,
    values_of_key, words_of_key, written_values,
};
pub use dropin_merge::{
    Assignment, Assignments, Held, HeldList, ItemList, Line, NoteCause, Notes, ResolveError,
    Resolved, Text, UnitError, UnitFile, UnitFiles, UnitText, linux_numbers, push_u64, push_word,
    read_bool, read_decimal, read_lines, read_text, read_unit, resolve, words,
};
pub use error::IdentityError;
pub use identities::identity_of_unit;
pub use new_privileges::{is_no_new_privileges_set, keeps_capabilities, no_new_privs};
pub use site_table::{CapSet, Row, RowCause, RowKind, SiteError, SiteTable, Version, read_site};
