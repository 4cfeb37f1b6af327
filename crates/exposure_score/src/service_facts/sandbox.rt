//! What the tests look at.

use exec_settings::{CapSet, FilterSettings, Protections};

/// The settings of a service that tests look at, as they are in effect.
#[derive(Drop)]
pub struct Sandbox {
    pub uid: u32,
    /// Whether SupplementaryGroups= names a group.
    pub names_groups: bool,
    pub no_new_privs: bool,
    pub bounding: CapSet,
    pub ambient: CapSet,
    pub filters: FilterSettings,
    pub protections: Protections,
}
