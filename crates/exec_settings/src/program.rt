//! Finds the program that a unit launches, or the reason why it launches none.
ghost use Rattle.std.specs.Prelude.{◌≡◌, ◌++◌, Some, None, IfOk, OnOk, option_map};
ghost use Rattle.mount_settings.specs.Roots.{root_key};
ghost use Rattle.mount_settings.specs.Written.{unit_written};
ghost use Rattle.exec_settings.specs.declared.errors.SettingsError.TheVariants.{OutsideProfile};
ghost use Rattle.exec_settings.specs.Launched.{unit_command_notes, unit_leaves_ids};
ghost use Rattle.exec_settings.specs.Profile.{outside_key};
ghost use Rattle.exec_settings.specs.Refusals.{RefusesFirst, command_refusal};
ghost use Rattle.exec_settings.specs.Search.{is_relative, path_of};
ghost use Rattle.exec_settings.specs.Settings.{unit_program};

use crate::commands::Program;
use crate::errors::SettingsError;
use crate::launched::launched_command;
use crate::profile::outside_key;
use crate::search::path_of;
use abs_path::AbsPath;
use cred_settings::{FileNote, Resolved, SiteTable, Text};
use mount_settings::WrittenPaths;
use std::alloc::Global;

/// What a unit launches.
#[derive(Drop)]
pub struct Launched {
    /// The path of the program.
    pub program: AbsPath,
    /// Whether the command leaves the ids as they are.
    pub leaves_ids: bool,
}

// Returns the path of a program, if the unit asks for nothing outside of the model.
fn program_of(
    alloc: Global,
    unit: &Resolved,
    site: &SiteTable,
    paths: &WrittenPaths,
    program: Program,
) -> Result<AbsPath, SettingsError>
    requires of_the_unit { paths.now ≡ unit_written unit.now }
    ensures refuses { RefusesFirst (option_map OutsideProfile (outside_key unit.now (is_relative unit.now site.now program))) result }
    ensures leaves_the_root { IfOk result (λ path. root_key (unit_written unit.now) ≡ None) }
    ensures program { IfOk result (λ path. path_of unit.now site.now program ≡ Some path) }
{
    let path = path_of(alloc, unit, site, program)?;
    if let Some(key) = outside_key(alloc, unit, paths, path.is_none())? {
        return Err(SettingsError::OutsideProfile(Text::new(alloc, key)?));
    }
    match path {
        Some(path) => Ok(path),
        None => unreachable!(),
    }
}

/// Returns what a unit with these written paths launches. It adds notes after the others, on values that cannot be read
/// and on later commands.
pub fn launched_program(
    alloc: Global,
    unit: &Resolved,
    site: &SiteTable,
    paths: &WrittenPaths,
    notes: &mut Vec<FileNote>,
) -> Result<Launched, SettingsError>
    requires of_the_unit { paths.now ≡ unit_written unit.now }
    ensures refuses_first { RefusesFirst (command_refusal unit.now site.now) result }
    ensures program { IfOk result (λ launched. unit_program unit.now site.now ≡ Some launched.program) }
    ensures leaves_ids { IfOk result (λ launched. launched.leaves_ids ≡ unit_leaves_ids unit.now) }
    ensures leaves_the_root { IfOk result (λ launched. root_key (unit_written unit.now) ≡ None) }
    ensures notes_the_others { OnOk result (notes.new.items ≡ notes.old.items ++ unit_command_notes unit.now) }
{
    let Some(command) = launched_command(alloc, unit, notes)? else {
        return Err(SettingsError::NoCommand);
    };
    if command.is_privileged {
        return Err(SettingsError::PrivilegedCommand);
    }
    let leaves_ids = command.leaves_ids;
    let program = program_of(alloc, unit, site, paths, command.program)?;
    Ok(Launched {
        program,
        leaves_ids,
    })
}
