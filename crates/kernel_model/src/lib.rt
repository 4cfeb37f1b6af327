//! Models a Linux kernel: processes that share mount tables, and the result of each of their calls (syscalls(2)).
//!
//! `World::start(alloc, &calls, &site)?.step(alloc, &call)?` is the reply to the first call. A new `World` borrows a table of
//! calls and a site. It has one process, which runs as root and has no filter programs.
//!
//! - [`kern_files`]: calls on paths.
//! - [`kernel_calls`]: what a call asks for, and the kernel's rule for each call of a table.
//! - [`laws`]: laws of the kernel's steps, for example that a refused call changes nothing.
#![tactic(auto)]

mod calls;
mod clones;
mod identity;
pub mod kern_files;
pub mod kernel_calls;
pub mod laws;
mod looks;
mod makers;
mod memory;
mod mount_namespace;
mod mounts;
mod outcome;
mod perform;
mod prctl;
mod process;
mod reply;
mod rings;
mod seccomp;
mod state;
mod steps;
mod told;
mod world;

pub use call_table::call_names::{
    Argument, CallRule, Kernel, KnownCall, PayloadForm, form_of, is_known, known_call,
};
pub use call_table::call_words::{push_abi, spelled};
pub use call_table::{
    CallLine, CallTable, ItemList, Line, push_u64, push_word, read_decimal, read_lines, read_text,
    read_u64, words,
};
pub use kern_mounts::{Flags, MountStep, MountTable, What};
pub use mount_namespace::MountNamespace;
pub use process::Process;
pub use reply::Reply;
pub use site_table::{CapSet, Group, Row, RowKind, SiteTable, User};
pub use world::World;
