//! Looks a path up on a mount table (path_resolution(7)), without building paths and without taking memory.

ghost use Rattle.std.specs.Prelude.{◌≡◌, option_map, true};
ghost use Rattle.site_table.specs.abs_path.Prefix.{is_prefix};
ghost use Rattle.site_table.specs.Table.{row_at};
ghost use Rattle.kern_mounts.specs.Mounts.{steps_of};
ghost use Rattle.kern_mounts.specs.Entry.{entry_of};
ghost use Rattle.kern_mounts.specs.Finds.{row_or_nothing, found_by, finds};
ghost use Rattle.kernel_model.specs.kern_files.Found.{shown};

use abs_path::AbsPath;
use kern_mounts::linux_numbers::errnos::{EACCES, ENOENT};
use kern_mounts::{MountStep, MountTable, What};
use site_table::{Row, SiteTable};

/// The result of a path lookup.
#[derive(Clone, Copy)]
pub enum Found<'a> {
    /// A row of the site.
    Row(&'a Row),
    /// The directory of an empty file system.
    EmptyDirectory,
    /// Nothing that the process may look at, and the errno.
    Nothing(u32),
}

fn row_or_nothing<'a>(row: Option<&'a Row>) -> Found<'a>
    ensures { shown result ≡ row_or_nothing (option_map (λ row. row.now) row.entry) }
{
    row.map_or(Found::Nothing(ENOENT), Found::Row)
}

// looks up what an entry shows at a path to which its place leads
fn found_by<'a>(site: &'a SiteTable, entry: &MountStep, path: &AbsPath) -> Found<'a>
    requires { is_prefix entry.now.place path.now ≡ true }
    ensures { shown result ≡ found_by (row_at site.now.rows) entry.now.what entry.now.place path.now }
{
    match &entry.what {
        What::Host(source) => row_or_nothing(site.row_through(source, &entry.place, path)),
        What::Empty if entry.place == *path => Found::EmptyDirectory,
        What::Empty => Found::Nothing(ENOENT),
        What::Hidden { .. } => Found::Nothing(EACCES),
    }
}

/// Returns the entry that the path belongs to.
pub fn entry_of<'a>(table: &'a MountTable, path: &AbsPath) -> &'a MountStep
    ensures entry { entry_of (steps_of table.now) path.now ≡ Some result.now }
    ensures leads { is_prefix result.now.place path.now ≡ true }
{
    table.entry(table.resolve(path))
}

/// Looks the path up. The entry that the path belongs to decides.
pub fn find<'a>(table: &MountTable, site: &'a SiteTable, path: &AbsPath) -> Found<'a>
    ensures by_the_entry { shown result ≡ finds (row_at site.now.rows) (steps_of table.now) path.now }
{
    found_by(site, entry_of(table, path), path)
}
