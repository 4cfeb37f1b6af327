//! Reads the description of a site from `site.toml`: its files, users and groups.
//!
//! A site is read exactly or refused with the first refusal: `read_site(alloc, b"dynamic_uid = 61184\n")?` has the
//! two rows `/` and `/proc`.
//!
//! The crate `toml` defines TOML: TOML 1.1 in UTF-8, with integers of 64 bits, and with arrays, inline tables and dotted keys
//! nested at most 80 deep. `read_site` refuses other bytes as `NotToml`, however long or deep they are, and no bytes make a
//! call panic.
#![tactic(auto)]

mod accounts;
mod caps;
mod error;
mod files;
mod find;
mod ids;
mod keys;
mod kinds;
pub mod laws;
mod order;
mod owners;
mod paths;
mod reader;
mod rings;
mod row;
mod rows;
mod seen;
mod table;
mod texts;
mod versions;

pub use accounts::{Group, User};
pub use cap_sets::CapSet;
pub use error::{RowCause, SiteError};
pub use kinds::RowKind;
pub use reader::read_site;
pub use row::Row;
pub use table::SiteTable;
pub use texts::{Ids, Name};
pub use unit_names::Version;
