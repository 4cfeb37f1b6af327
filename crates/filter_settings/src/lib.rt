//! Reads the settings of a unit that ask for system call filters, and turns them into rules.
//!
//! `filter_settings(alloc, &unit, &table)?` has the settings that `filter_rules::filters` takes, and notes. The crate
//! reads the values of each key in their order (systemd.exec(5)). It notes and ignores values that it cannot read and
//! names that it does not know.
//!
//! - [`filter_rules`]: what the filters of settings mean, and their rules.
#![tactic(auto)]

mod architectures;
mod call_lists;
mod call_words;
mod domains;
mod error_actions;
mod family_lists;
pub mod filter_rules;
mod key_lists;
mod lines;
mod list_words;
mod modes;
mod namespaces;
mod settings;

pub use call_rules::{CallData, Decision, Insn, Program};
pub use call_table::call_names::{Kernel, is_known};
pub use call_table::call_words::name_at;
pub use call_table::{CallLine, CallTable, CallsCause, CallsError, GroupLine, read_calls};
pub use dropin_merge::linux_numbers;
pub use settings::filter_settings;
