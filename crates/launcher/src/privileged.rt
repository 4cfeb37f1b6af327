//! Tests if a program has a set-id bit or capabilities, by the row that its path finds on a plan (execve(2),
//! capabilities(7)).

ghost use Rattle.std.specs.Prelude.{◌≡◌, option_map, option_copied, true, if◌then◌else◌};
ghost use Rattle.exec_settings.specs.abs_path.Prefix.{is_prefix};
ghost use Rattle.exec_settings.specs.site_table.Table.{row_at};
ghost use Rattle.kernel_laws.specs.kern_creds.Exec.{is_privileged};
ghost use Rattle.kernel_laws.specs.kern_mounts.Entry.{entry_of, leads_to};
ghost use Rattle.kernel_laws.specs.kern_mounts.Finds.{row, found_by, finds, row_or_nothing};
ghost use Rattle.launcher.specs.Launch.{is_privileged_row};

use abs_path::AbsPath;
use exec_settings::{CapSet, Row, RowKind, SiteTable};
use kernel_laws::{MountStep, What};

// Returns whether the row is an executable file with a set-id bit or capabilities.
fn is_marked(file: &Row) -> bool
    ensures { result ≡ is_privileged_row (row file.now) }
{
    let is_set_id = file.setuid.is_some() || file.setgid.is_some();
    matches!(file.kind, RowKind::Exe) && (is_set_id || file.caps != CapSet::empty())
}

// Returns whether the row, if there is one, is such a file.
fn is_some_marked(file: Option<&Row>) -> bool
    ensures { result ≡ is_privileged_row (row_or_nothing (option_map (λ row. row.now) file.entry)) }
{
    match file {
        None => false,
        Some(file) => is_marked(file),
    }
}

// Returns the entry if its place leads to the path, otherwise the entry found before.
fn nearer<'p>(
    found: Option<&'p MountStep>,
    entry: &'p MountStep,
    path: &AbsPath,
) -> Option<&'p MountStep>
    ensures { option_copied result ≡ (if leads_to path.now entry.now then Some entry.now else option_copied found.entry) }
{
    if entry.place.is_prefix(path) {
        Some(entry)
    } else {
        found
    }
}

// The entry that the path belongs to: the last whose place leads to it.
fn entry_of<'p>(plan: &'p [MountStep], path: &AbsPath) -> Option<&'p MountStep>
    ensures { option_copied result ≡ entry_of plan.now path.now }
{
    let mut found = None;
    for entry in plan {
        found = nearer(found, entry, path);
    }
    found
}

// Returns whether the entry shows such a file at a path that its place leads to.
fn shows_marked(site: &SiteTable, entry: &MountStep, path: &AbsPath) -> bool
    requires { is_prefix entry.now.place path.now ≡ true }
    ensures { result ≡ is_privileged_row (found_by (row_at site.now.rows) entry.now.what entry.now.place path.now) }
{
    match &entry.what {
        What::Host(source) => is_some_marked(site.row_through(source, &entry.place, path)),
        What::Empty => false,
        What::Hidden { .. } => false,
    }
}

/// Returns whether the program finds an executable file with a set-id bit or capabilities on the plan.
pub fn is_privileged(plan: &[MountStep], site: &SiteTable, program: &AbsPath) -> bool
    ensures by_the_row_that_is_found { result ≡ is_privileged_row (finds (row_at site.now.rows) plan.now program.now) }
{
    match entry_of(plan, program) {
        None => false,
        Some(entry) => shows_marked(site, entry, program),
    }
}
