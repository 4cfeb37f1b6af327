//! The table of a mount namespace in a modelled Linux kernel (mount_namespaces(7)): its entries, the entry that a path belongs
//! to, and the changes that mount(2) and umount2(2) make.
//!
//! A later mount covers an earlier one, so a path belongs to the last entry whose mount point leads to it.
//! `MountTable::new(alloc)?` shows the host itself.
#![tactic(auto)]

mod error;
pub mod laws;
mod step;
mod table;

pub use error::MountError;
pub use linux_numbers;
pub use step::{Flags, Mount, MountStep, What};
pub use table::MountTable;
