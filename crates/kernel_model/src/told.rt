//! The kernel's tables of calls and files. No call changes them.

use call_table::CallTable;
use site_table::SiteTable;

/// The calls, address families and files that the kernel knows.
#[derive(Drop)]
pub(crate) struct Told<'a> {
    pub calls: &'a CallTable,
    pub site: &'a SiteTable,
}
