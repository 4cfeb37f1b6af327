//! Reads the written paths, assignment by assignment.
ghost use Rattle.std.specs.Prelude.{◌≡◌, ◌++◌, [], IfOk, OnOk};
ghost use Rattle.std.specs.List.{cons_option};
ghost use Rattle.mount_settings.specs.Assigned.{assigned_by, dialect_of};
ghost use Rattle.mount_settings.specs.Written.{unit_written};
ghost use Rattle.mount_settings.specs.Notes.{notes_by, written_notes};
ghost use Rattle.mount_settings.specs.Steps.{after};

use crate::written::{WrittenPath, WrittenPaths, add_value};
use dropin_merge::unit_values::{FileNote, Place, Said, service_assignments, value_at};
use dropin_merge::{Assignment, Resolved, UnitName, Version};
use path_settings::{Dialect, PathKey};
use std::alloc::{AllocError, Global};

// Returns the rules for names and words of keys, by the systemd that reads the unit.
fn dialect_of(systemd: Option<Version>) -> Dialect
    ensures { result ≡ dialect_of systemd }
{
    match systemd {
        None => Dialect::Base,
        Some(Version::V252) => Dialect::Systemd252,
        Some(Version::V257) => Dialect::Systemd257,
    }
}

// Applies an assignment to the paths so far.
fn add_assigned(
    alloc: Global,
    systemd: Option<Version>,
    name: &UnitName,
    place: Place,
    assignment: &Assignment,
    paths: &mut Vec<WrittenPath>,
    notes: &mut Vec<FileNote>,
) -> Result<(), AllocError>
    ensures means { OnOk result (paths.new.items ≡ after (dialect_of systemd) paths.old.items (cons_option (assigned_by systemd name.now (place, assignment.now)) [])) }
    ensures noted { OnOk result (notes.new.items ≡ notes.old.items ++ notes_by systemd name.now (place, assignment.now)) }
{
    let dialect = dialect_of(systemd);
    let Some(key) = PathKey::named(dialect, assignment.key.as_str()) else {
        return Ok(());
    };
    let value = value_at(alloc, systemd, name, place, assignment)?;
    match value.noted_in(notes)? {
        Some(value) => add_value(alloc, dialect, key, &value, paths, notes),
        None => Ok(()),
    }
}

/// Returns the paths that the files of a unit write and that are in force, in the order of their assignments,
/// whatever the key. An empty value resets its own key alone. The keys are ReadWritePaths=, ReadOnlyPaths=,
/// InaccessiblePaths=, ExecPaths=, NoExecPaths=, BindPaths=, BindReadOnlyPaths=, TemporaryFileSystem=,
/// StateDirectory=, RuntimeDirectory=, CacheDirectory= and LogsDirectory= (systemd.exec(5)). A known version of systemd
/// adds ConfigurationDirectory= and older names of the first three. It also reads links of folders, which are paths too.
///
/// Values that cannot be expanded or split, and words that cannot be read, get notes in this order. The notes stay if a
/// later value resets their key.
#[tactic(auto, unfolding(crate::specs::Written::unit_written, crate::specs::Notes::written_notes))]
pub fn written_paths(alloc: Global, unit: &Resolved) -> Result<Said<WrittenPaths>, AllocError>
    ensures in_order_of_assignments { IfOk result (λ said. said.what ≡ unit_written unit.now) }
    ensures notes_the_unread { IfOk result (λ said. said.notes.items ≡ written_notes unit.now) }
{
    let mut paths = Vec::new(alloc);
    let mut notes = Vec::new(alloc);
    for (place, assignment) in service_assignments(unit) {
        add_assigned(
            alloc,
            unit.systemd,
            &unit.name,
            place,
            assignment,
            &mut paths,
            &mut notes,
        )?;
    }
    Ok(Said {
        what: WrittenPaths::new(paths),
        notes,
    })
}
