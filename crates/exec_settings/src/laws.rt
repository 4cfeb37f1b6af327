//! States the laws of the settings. Each is the contract of a function that does nothing.
ghost use Rattle.std.specs.Prelude.{◌≡◌, Option, true};
ghost use Rattle.exec_settings.specs.Bare.{CommandAloneIsBare};
ghost use Rattle.exec_settings.specs.OtherSites.{RefusalRestsOnFew, SettingsRestOnFew};
ghost use Rattle.exec_settings.specs.Sections.{OtherSectionsChangeNothing};
ghost use Rattle.mount_settings.specs.unit_names.declared.version.Version.{Version};
ghost use Rattle.exec_settings.specs.Keys.{ascend_strictly, has_path_keys};

/// The table of keys of each systemd is in byte order. So no key occurs twice, and the first key that refuses a unit is
/// the first in byte order. The table has every name of a key that names paths.
#[tactic(auto, unfolding(crate::specs::Keys::keys, crate::specs::Keys::ascend_strictly, crate::specs::Keys::has_path_keys))]
pub fn table_of_keys()
    ensures in_byte_order { (systemd : Option Version) → ascend_strictly systemd ≡ true }
    ensures every_path_key { (systemd : Option Version) → has_path_keys systemd ≡ true }
{}

/// Only its command can refuse a service that has ExecStart= alone. Otherwise the service runs as the superuser, without
/// further groups, with all capabilities in its bounding set and none in its ambient set. No filter is on and no path is
/// mentioned. All notes are of the grammar of unit files.
pub fn command_alone()
    ensures bare { CommandAloneIsBare }
{}

/// Other sections than `[Service]` change nothing. Without their assignments, a unit is refused for the same reason and
/// has the same settings.
pub fn other_sections()
    ensures no_change { OtherSectionsChangeNothing }
{}

/// Few facts of a site decide about a unit. These are its ids and accounts, and the kinds of its rows at two sets of
/// paths: those that keys in force imply, and those at which the program is looked up. Two sites that agree on these
/// facts refuse the unit for the same reason, or give it the same settings.
pub fn few_of_a_site()
    ensures rest_on_few { SettingsRestOnFew }
    ensures refusal_rests_on_few { RefusalRestsOnFew }
{}
