//! Finds the groups of calls that settings need and the table lacks (systemd.exec(5), SystemCallFilter=).
ghost use Rattle.std.specs.Prelude.{◌≡◌};
ghost use Rattle.std.specs.Option.{option_copied};
ghost use Rattle.exec_settings.specs.Groups.{begins_with_default, is_missing, missing_group};

use filter_settings::CallTable;
use filter_settings::filter_rules::{CallList, FilterSettings, Mode};

// Returns whether the list begins with `@default`, as each list that allows does.
fn begins_with_default(calls: &Option<CallList>) -> bool
    ensures { result ≡ begins_with_default calls.now }
{
    match calls {
        Some(list) => list.mode == Mode::Allow,
        None => false,
    }
}

fn is_missing(table: &CallTable, name: &str) -> bool
    ensures { result ≡ is_missing table.now name.now }
{
    table.members(name).is_none()
}

/// Returns the first group that the settings need and that the table lacks. The order is `default` for a list that
/// allows, `raw-io` for PrivateDevices=, `module` for ProtectKernelModules=, and `clock` for ProtectClock=.
#[tactic(auto, unfolding(crate::specs::Groups::missing_group))]
pub fn missing_group(table: &CallTable, settings: &FilterSettings) -> Option<&'static str>
    ensures first_that_is_missing { option_copied result ≡ missing_group table.now settings.now }
{
    if begins_with_default(&settings.calls) && is_missing(table, "default") {
        Some("default")
    } else if settings.private_devices && is_missing(table, "raw-io") {
        Some("raw-io")
    } else if settings.protect_kernel_modules && is_missing(table, "module") {
        Some("module")
    } else if settings.protect_clock && is_missing(table, "clock") {
        Some("clock")
    } else {
        None
    }
}
