//! Reads the mentions of a unit, or refuses a unit that writes too many paths.
ghost use Rattle.std.specs.Prelude.{◌≡◌, ◌++◌, None, IfOk, OnOk, IsTrue};
ghost use Rattle.mount_settings.specs.Protections.{protection_notes};
ghost use Rattle.mount_settings.specs.Roots.{root_key};
ghost use Rattle.mount_settings.specs.path_settings.Mentioned.{leaves_the_root, AreShort};
ghost use Rattle.mount_settings.specs.Written.{unit_written};
ghost use Rattle.exec_settings.specs.Mounts.{paths_refusal, unit_mentions, unit_switches};
ghost use Rattle.exec_settings.specs.Refusals.{RefusesFirst};

use crate::errors::SettingsError;
use cred_settings::{FileNote, Resolved, SiteTable};
use mount_settings::{Mentioned, MountSettingsError, Switches, WrittenPaths, mount_settings};
use std::alloc::Global;

/// Returns the mentions of a unit with these written paths. It adds the notes on the keys that protect the file system
/// after the others.
#[tactic(auto, unfolding(crate::specs::Mounts::unit_mentions))]
pub fn read_mentions(
    alloc: Global,
    unit: &Resolved,
    paths: &WrittenPaths,
    site: &SiteTable,
    switches: Switches,
    notes: &mut Vec<FileNote>,
) -> Result<Mentioned, SettingsError>
    requires of_the_unit { paths.now ≡ unit_written unit.now }
    requires of_its_keys { switches ≡ unit_switches unit.now }
    ensures too_many { RefusesFirst (paths_refusal unit.now) result }
    ensures mentions { IfOk result (λ mentions. mentions ≡ unit_mentions unit.now site.now) }
    ensures leaves_the_root { IfOk result (λ mentions. root_key (unit_written unit.now) ≡ None → IsTrue (leaves_the_root mentions)) }
    ensures short { IfOk result AreShort }
    ensures noted { OnOk result (notes.new.items ≡ notes.old.items ++ protection_notes unit.now) }
{
    match mount_settings(alloc, unit, paths, site, switches) {
        Ok(said) => Ok(said.noted_in(notes)?.mentions),
        Err(MountSettingsError::TooManyPaths) => Err(SettingsError::TooManyPaths),
        Err(MountSettingsError::Memory) => Err(SettingsError::Memory),
    }
}
