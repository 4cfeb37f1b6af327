//! What is known of the settings of a service.

ghost use Rattle.std.specs.Prelude.{◌<◌, ◌^◌};

use crate::policy_file::TestId;
use exec_settings::{CapSet, ItemList};

/// How bad a service is by one test that its settings decide.
#[derive(Drop)]
pub struct Fact {
    pub id: TestId,
    /// 0 where nothing is bad.
    pub badness: u32,
    pub ghost badness_fits: { badness < 2 ^ 32 },
}

/// Facts in their order.
pub type FactList = ItemList<Fact>;

/// The facts that a test may look at: the settings of a service, and how bad they are by the tests that they decide
/// (systemd.exec(5), systemd-analyze(1), security). A contract about all facts holds for all facts whose numbers and sets these
/// types can hold.
#[derive(Drop)]
pub struct Facts {
    /// The uid of the program.
    pub uid: u32,
    /// The bounding set of capabilities.
    pub bounding: CapSet,
    /// The ambient set of capabilities.
    pub ambient: CapSet,
    /// Whether `no_new_privs` is set.
    pub no_new_privs: bool,
    /// How many paths are written or bound.
    pub writable_paths: u32,
    /// The tests that the settings decide.
    pub tests: FactList,
    pub ghost uid_fits: { uid < 2 ^ 32 },
    pub ghost bounding_fits: { bounding < 2 ^ 41 },
    pub ghost ambient_fits: { ambient < 2 ^ 41 },
    pub ghost writable_paths_fit: { writable_paths < 2 ^ 32 },
}
