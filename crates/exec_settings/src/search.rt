//! Looks up a program by its name (systemd.service(5), Command lines; systemd.exec(5), ExecSearchPath=).
ghost use Rattle.std.specs.Prelude.{◌≡◌, [], find, map, IfOk};
ghost use Rattle.std.specs.List.{cons_option, filter_map};
ghost use Rattle.exec_settings.specs.Search.{absolute, folders_of, has_exe, looked_up, path_in, path_of, searches_elsewhere, unit_folders};

use crate::commands::{Program, read_program};
use abs_path::AbsPath;
use cred_settings::{Resolved, RowKind, SiteTable, in_force, written_values};
use mount_settings::Version;
use std::alloc::{AllocError, Global};

// Returns the search path that a systemd is built with.
fn folders_of(systemd: Option<Version>) -> &'static [&'static str]
    ensures { map (λ folder. folder.now) result.now ≡ folders_of systemd }
{
    match systemd {
        None => &[],
        Some(Version::V252) => &[
            "/usr/local/sbin",
            "/usr/local/bin",
            "/usr/sbin",
            "/usr/bin",
            "/sbin",
            "/bin",
        ],
        Some(Version::V257) => &["/usr/local/sbin", "/usr/local/bin", "/usr/sbin", "/usr/bin"],
    }
}

// Returns whether ExecSearchPath= has folders of its own.
fn searches_elsewhere(alloc: Global, unit: &Resolved) -> Result<bool, AllocError>
    ensures { IfOk result (λ elsewhere. elsewhere ≡ searches_elsewhere unit.now) }
{
    let values = written_values(alloc, unit, "ExecSearchPath")?;
    Ok(!in_force(values.as_slice()).is_empty())
}

// Returns the folders in which the program of a unit is looked up.
fn folders(alloc: Global, unit: &Resolved) -> Result<&'static [&'static str], AllocError>
    ensures { IfOk result (λ folders. map (λ folder. folder.now) folders.now ≡ unit_folders unit.now) }
{
    if searches_elsewhere(alloc, unit)? {
        Ok(&[])
    } else {
        Ok(folders_of(unit.systemd))
    }
}

// Returns the path of a program that is a path.
fn absolute(program: Option<Program>) -> Option<AbsPath>
    ensures { result ≡ absolute program }
{
    match program {
        Some(Program::Absolute(path)) => Some(path),
        _ => None,
    }
}

// Returns the path of this name in a folder, if both together are a path.
fn path_in(alloc: Global, name: &str, folder: &str) -> Result<Option<AbsPath>, AllocError>
    ensures { IfOk result (λ path. path ≡ path_in name.now folder.now) }
{
    let text = format!(in alloc; "{folder}/{name}")?;
    Ok(absolute(read_program(alloc, text.as_str())?))
}

// Returns whether the site has an executable at a path.
fn has_exe(site: &SiteTable, path: &AbsPath) -> bool
    ensures { result ≡ has_exe site.now path.now }
{
    match site.row_behind(path, "") {
        Some(row) => matches!(row.kind, RowKind::Exe),
        None => false,
    }
}

// Returns the path of this name in a folder, if the site has an executable there.
fn exe_in(
    alloc: Global,
    site: &SiteTable,
    name: &str,
    folder: &str,
) -> Result<Option<AbsPath>, AllocError>
    ensures { IfOk result (λ path. path ≡ find (has_exe site.now) (cons_option (path_in name.now folder.now) [])) }
{
    match path_in(alloc, name, folder)? {
        Some(path) if has_exe(site, &path) => Ok(Some(path)),
        _ => Ok(None),
    }
}

// Returns the first path of this name in these folders at which the site has an executable.
fn first_exe(
    alloc: Global,
    site: &SiteTable,
    name: &str,
    folders: &'static [&'static str],
) -> Result<Option<AbsPath>, AllocError>
    ensures { IfOk result (λ path. path ≡ find (has_exe site.now) (filter_map (path_in name.now) (map (λ folder. folder.now) folders.now))) }
{
    for folder in folders {
        if let Some(path) = exe_in(alloc, site, name, folder)? {
            return Ok(Some(path));
        }
    }
    Ok(None)
}

// Returns the path of the program with this name.
#[tactic(auto, unfolding(crate::specs::Search::looked_up))]
fn looked_up(
    alloc: Global,
    unit: &Resolved,
    site: &SiteTable,
    name: &str,
) -> Result<Option<AbsPath>, AllocError>
    ensures { IfOk result (λ path. path ≡ looked_up unit.now site.now name.now) }
{
    first_exe(alloc, site, name, folders(alloc, unit)?)
}

/// Returns the path of a program. A name is looked up: its path is the first in the search path at which the site has an
/// executable.
pub fn path_of(
    alloc: Global,
    unit: &Resolved,
    site: &SiteTable,
    program: Program,
) -> Result<Option<AbsPath>, AllocError>
    ensures own_or_looked_up { IfOk result (λ path. path ≡ path_of unit.now site.now program) }
{
    match program {
        Program::Absolute(path) => Ok(Some(path)),
        Program::Relative => Ok(None),
        Program::Named(name) => looked_up(alloc, unit, site, name.as_str()),
    }
}
