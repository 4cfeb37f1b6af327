//! Reads the settings of a service from the files of its unit.
//!
//! The crate reads every key that matters to the sandbox (systemd.exec(5), systemd.service(5)). Values that cannot be
//! read, and keys that are not judged, get notes. A unit that asks for something outside of the model is refused with the
//! first reason.
//!
//! `filter_settings` reads the filters of system calls, `cred_settings` users, groups and capabilities, and
//! `mount_settings` paths.
//!
//! `settings(alloc, &unit, &calls, &site)?` has the program, the ids, the capabilities, the filters with their rules,
//! the mentions of paths, and the notes.
#![tactic(auto)]

mod bounding;
mod commands;
mod credentials;
mod dynamic;
mod errors;
mod filters;
mod groups;
mod judged;
mod keys;
mod known_commands;
mod launched;
pub mod laws;
mod mounts;
mod notes;
mod privileges;
mod profile;
mod program;
mod reading;
mod search;
mod service;

pub use cred_settings::{
    Assignment, Assignments, CapSet, FileNote, Held, HeldList, ItemList, Line, Notes, Place,
    ResolveError, Resolved, Row, RowCause, RowKind, SiteError, SiteTable, Text, UnitError,
    UnitFile, UnitFiles, UnitText, flag_of_key, identity_of_unit, linux_numbers, push_u64,
    push_word, read_decimal, read_lines, read_site, read_text, read_unit, resolve,
    service_assignments, words, words_of_key,
};
pub use errors::SettingsError;
pub use filter_settings::filter_rules::{
    Filter, FilterName, FilterSettings, all_types, allowed_calls, allows_call, permits_family,
};
pub use filter_settings::{
    CallLine, CallTable, CallsCause, CallsError, GroupLine, Kernel, filter_settings, name_at,
    read_calls,
};
pub use judged::is_read;
pub use mount_settings::{
    HomeProtection, Mentioned, Mentions, MountSettingsError, NameError, PathKey, Protections,
    Switches, SystemProtection, UnitName, Version, WrittenPath, WrittenPaths, expand,
    mount_settings, written_paths,
};
pub use reading::settings;
pub use service::Settings;
