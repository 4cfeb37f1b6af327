//! The assignments in force of a unit, and the unit without some of them.
//!
//! An administrator of a service asks what a line of its files does. A line counts if it is in `[Service]` of the fragment or
//! of a drop-in and sets a key that is read. The module uses `unit_values` for the lines of the service and `exec_settings` for
//! the keys.
//!
//! `without(alloc, &unit, &[lines(alloc, &unit)?[0].place])?` is the same unit, whose files lack its first line in force.

mod in_force;
mod less;
mod line;
mod listing;
mod place_row;
mod place_set;

pub(crate) use less::all_but;
pub use less::without;
pub use line::UnitLine;
pub use listing::lines;
