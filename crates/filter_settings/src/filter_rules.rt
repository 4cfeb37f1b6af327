//! Turns the settings of a unit into filters, as rules by number.
//!
//! A setting has names of system calls, of address families and of types of namespaces; a filter tests numbers.
//! [`filters`] makes the rules of each setting that is on. They decide every call as the setting says
//! (systemd.exec(5)). `call_table` has the names and numbers, and `call_rules` says what rules
//! mean. The readers of unit files fill [`FilterSettings`].
//!
//! `filters(alloc, &table, &settings)?` has one [`Filter`] for each setting that is on, in the order in which filters are
//! installed. [`permits_family`], [`allows_call`] and [`allowed_calls`] say what two of the settings let through.

mod blocked;
mod calls;
mod choice;
mod covers;
mod families;
mod giving_up;
mod installed;
mod mapping;
mod marks;
mod mentions;
mod names;
mod namespace_types;
mod namespaces;
mod order;
mod personality;
mod realtime;
mod rules;
mod settings;
mod suid;

pub use calls::{allowed_calls, allows_call, denies_no_call};
pub use families::{denies_no_family, permits_family};
pub use giving_up::may_give_up;
pub use installed::{Filter, filters};
pub use mentions::{CallList, FamilyList, FamilyMention, FamilyMentions, Mention, Mentions, Mode};
pub use names::{FilterName, FilterPlace};
pub use namespace_types::{NamespaceTypes, all_types};
pub use personality::Domain;
pub use settings::{FilterSettings, marks_memory};
