//! Reads the inputs of a command on a unit: the unit with its drop-ins, calls.txt, site.toml, and the settings from them.
//!
//! `read_inputs(alloc, &mut shelf, "web.service")?` has the unit and the tables of both files; `settle_unit` adds the settings.
//! The inputs are read in this order, and the first refusal ends the command with a line that says why. A command on all units
//! reads only the tables.
//!
//! - [`command_answers`] reads, prints and ends a command.
#![tactic(auto)]

mod calls;
pub mod command_answers;
mod files;
mod inputs;
mod refusals;
mod settling;
mod site;
mod units;

pub use calls::read_table;
pub use exec_settings::{
    CallTable, Filter, ItemList, Line, NameError, Settings, SettingsError, SiteTable, UnitName,
    push_u64, push_word, read_decimal, read_lines, read_text, settings,
};
pub use files::read_input;
pub use inputs::{UnitInputs, read_inputs};
pub use refusals::settings_line;
pub use settling::{SettledUnit, settle, settle_unit};
pub use site::read_site;
pub use units::unit_line;
