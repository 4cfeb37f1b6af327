//! States the laws of listed entries. Each is the contract of a function that does nothing.

ghost use Rattle.std.specs.Prelude.{◌≡◌, false, List, map};
ghost use Rattle.std.specs.List.{AllByRecursion, Contains};
ghost use Rattle.abs_path.specs.ByteOrder.{AreAscending};
ghost use Rattle.path_settings.specs.declared.systemd.entries.MountEntry.{MountEntry};
ghost use Rattle.path_settings.specs.systemd.Listed.{is_covered, listed};

/// The listed entries are some of the given ones. No path has two of them, and they are in byte order of their paths.
/// None lies below a hidden path.
pub fn one_entry_for_a_path()
    ensures none_is_made_up { (entries : List MountEntry) → AllByRecursion (Contains entries) (listed entries) }
    ensures each_path_once { (entries : List MountEntry) → AreAscending (map (λ one. one.path) (listed entries)) }
    ensures none_below_what_is_hidden { (entries : List MountEntry)
        → AllByRecursion (λ one. is_covered entries one.path ≡ false) (listed entries) }
{}
