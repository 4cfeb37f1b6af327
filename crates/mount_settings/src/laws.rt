//! States the laws of written and implied paths. Each is the contract of a function that does nothing.

ghost use Rattle.std.specs.Prelude.{◌≡◌, ◌+◌, ◌≤◌, true, None, List, [], length, flat_map, unwrap_or};
ghost use Rattle.std.specs.List.{filter_map, list_all};
ghost use Rattle.path_settings.specs.declared.dialect.Dialect.TheVariants.{Base};
ghost use Rattle.path_settings.specs.declared.keys.PathKey.{PathKey};
ghost use Rattle.path_settings.specs.Keys.{is_of_base, mention_of, name_of};
ghost use Rattle.dropin_merge.specs.declared.resolved.Resolved.{Resolved};
ghost use Rattle.dropin_merge.specs.unit_names.declared.version.Version.{Version};
ghost use Rattle.site_table.specs.Table.{Site};
ghost use Rattle.dropin_merge.specs.unit_values.Values.{in_force, values_of};
ghost use Rattle.dropin_merge.specs.unit_values.Words.{split};
ghost use Rattle.dropin_merge.specs.declared.unit_values.value.Value.{Value};
ghost use Rattle.mount_settings.specs.declared.protections.Protections.{Protections};
ghost use Rattle.mount_settings.specs.declared.protections.Switches.{Switches};
ghost use Rattle.mount_settings.specs.declared.written.WrittenPath.{WrittenPath};
ghost use Rattle.mount_settings.specs.Assigned.{assigned_of, dialect_of};
ghost use Rattle.mount_settings.specs.Effects.{stands};
ghost use Rattle.mount_settings.specs.Implied.{implied};
ghost use Rattle.mount_settings.specs.Written.{of_key, unit_written};
ghost use Rattle.mount_settings.specs.OneKey.{values_named, values_to, listed_by};
ghost use Rattle.mount_settings.specs.Settings.{entries_by, mentions_of};
ghost use Rattle.mount_settings.specs.declared.systemd.keys.FurtherKeys.{FurtherKeys};
ghost use Rattle.mount_settings.specs.systemd.Mentions.{implied_of, shows_row};

/// No other key changes what a key says. The values of a key are the values that the unit assigns to its names. In the
/// base profile it has one name, and `values_of_key` gives the same values. The written paths of a key are the paths of
/// the words after its last empty value.
pub fn each_key_by_itself()
    ensures its_own_values { (unit : Resolved) (key : PathKey) → values_to key (assigned_of unit) ≡ values_named unit key }
    ensures its_words_in_force { (unit : Resolved) (key : PathKey) → of_key key (unit_written unit) ≡ listed_by (dialect_of unit.systemd) key (values_named unit key) }
    ensures one_name_in_base { (unit : Resolved) (key : PathKey) → unit.systemd ≡ None → is_of_base key ≡ true → values_named unit key ≡ values_of unit (name_of key) }
    ensures one_mention_in_base { (key : PathKey) (values : List Value) → listed_by Base key values ≡ filter_map (mention_of key) (flat_map (λ value. unwrap_or (split value.text) []) (in_force values)) }
{}

/// An implied mention is optional, and its path is a row of the site. There are at most 31 mentions more than written
/// paths, where folders count as written paths.
pub fn implied_mentions()
    ensures optional { (site : Site) (switches : Switches) (protections : Protections) (unit : Resolved) → list_all (λ mention. mention.optional) (implied site switches protections (unit_written unit)) ≡ true }
    ensures have_rows { (site : Site) (switches : Switches) (protections : Protections) (unit : Resolved) → list_all (stands site) (implied site switches protections (unit_written unit)) ≡ true }
    ensures at_most_31_more { (site : Site) (switches : Switches) (protections : Protections) (paths : List WrittenPath) → length (mentions_of site switches protections paths) ≤ length paths + 31 }
{}

/// An implied entry is optional too if a known version of systemd reads the unit. It shows an object that is a row of the
/// site: for a folder the object of another path, else the object at its own path. There are at most 58 entries more
/// than written paths.
pub fn implied_by_a_version()
    ensures optional { (version : Version) (site : Site) (switches : Switches) (protections : Protections) (keys : FurtherKeys) (unit : Resolved) → list_all (λ one. one.optional) (implied_of version site switches protections keys (unit_written unit)) ≡ true }
    ensures have_rows { (version : Version) (site : Site) (switches : Switches) (protections : Protections) (keys : FurtherKeys) (paths : List WrittenPath) → list_all (shows_row site) (implied_of version site switches protections keys paths) ≡ true }
    ensures at_most_58_more { (version : Version) (site : Site) (switches : Switches) (protections : Protections) (keys : FurtherKeys) (paths : List WrittenPath) → length (entries_by version site switches protections keys paths) ≤ length paths + 58 }
{}
