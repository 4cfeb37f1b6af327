//! Calls that name paths in a modelled Linux kernel, on a mount table and the rows of a site (path_resolution(7), stat(2),
//! open(2), execve(2), mount(2), umount2(2)).
//!
//! This module does not check capabilities: the kernel checks before whether the caller may make the call. `see(&table, &site,
//! &path)?` returns `()` if the path exists and is not hidden.

mod find;
mod flags;
pub mod laws;
mod looks;
mod mounting;
mod planning;
mod program;

pub use looks::{open_file, see, write_file};
pub use mounting::{mount, umount};
pub use program::{Program, program_at};
