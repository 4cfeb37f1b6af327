//! Reads a row of the file on its own.

ghost use Rattle.std.specs.Prelude.{◌≡◌, ◌&&◌, ◌||◌, not, false, Some, drop};
ghost use Rattle.toml.specs.View.{view};
ghost use Rattle.site_table.specs.Kinds.{is_dir, is_exe};
ghost use Rattle.site_table.specs.Rows.{path_of, kind_of, has, has_exe_key, is_always_dir, has_wrong_number, has_wrong_caps, has_both, first_of, own_causes, row_of};
ghost use Rattle.site_table.specs.RowSteps.{is_always_dir_text, plain_file, SaysFile, SaysRow};
ghost use Rattle.std.specs.Option.{option_map_or};

use crate::caps::{are_caps, caps_of};
use crate::error::{RowCause, SiteError};
use crate::ids::{id_at, is_out_of_range};
use crate::keys::ROW_KEYS;
use crate::kinds::RowKind;
use crate::paths::{path_of, tail};
use crate::row::Row;
use abs_path::AbsPath;
use cap_sets::CapSet;
use std::alloc::Global;
use toml::Value;
use toml_shapes::{elements_at, flag_at, has_keys, text_at};

fn has(row: &Value, key: &str) -> bool
    ensures { result ≡ has key.now (view row.now) }
{
    row.get(key).is_some()
}

fn kind_of(row: &Value) -> Option<RowKind>
    ensures { result ≡ kind_of (view row.now) }
{
    RowKind::named(text_at(row, "kind")?)
}

// returns whether the row has a key that only an executable may have
fn has_exe_key(row: &Value) -> bool
    ensures { result ≡ has_exe_key (view row.now) }
{
    has(row, "setuid") || has(row, "setgid") || has(row, "caps") || has(row, "effective")
}

/// Returns whether the row is of kind dir, whatever else it has.
pub fn is_dir(row: &Value) -> bool
    ensures by_its_kind { result ≡ option_map_or is_dir (kind_of (view row.now)) false }
{
    matches!(kind_of(row), Some(RowKind::Dir))
}

/// Returns whether the text belongs to `/` or `/proc`, which are directories even if they are not listed. The text of `/` is
/// empty here.
pub fn is_always_dir_text(text: &str) -> bool
    ensures root_or_proc { result ≡ is_always_dir_text text.now }
{
    text == "" || text == "/proc"
}

// returns the same for a path
fn is_always_dir(path: &AbsPath) -> bool
    ensures { result ≡ is_always_dir path.now }
{
    is_always_dir_text(tail(path))
}

// returns whether the row at this path may be of this kind, given whether it has a key that only an executable may have
fn may_be(kind: RowKind, has_exe_key: bool, path: &AbsPath) -> bool
    ensures { result ≡ ((is_exe kind || not has_exe_key) && (is_dir kind || not (is_always_dir path.now))) }
{
    match kind {
        RowKind::Dir => !has_exe_key,
        RowKind::File | RowKind::Dev => !has_exe_key && !is_always_dir(path),
        RowKind::Exe => !is_always_dir(path),
    }
}

fn has_wrong_number(row: &Value) -> bool
    ensures { result ≡ has_wrong_number (view row.now) }
{
    is_out_of_range(row, "setuid") || is_out_of_range(row, "setgid")
}

// returns whether a capability is unknown, or `effective` has no capabilities
fn has_wrong_caps(row: &Value) -> bool
    ensures { result ≡ has_wrong_caps (view row.now) }
{
    let names = elements_at(row, "caps");
    !are_caps(names) || (has(row, "effective") && names.is_empty())
}

// returns whether the row has both an owner's uid and capabilities
fn has_both(row: &Value) -> bool
    ensures { result ≡ has_both (view row.now) }
{
    has(row, "setuid") && !elements_at(row, "caps").is_empty()
}

// returns the first fault of the keys that only an executable may have
fn exe_cause(row: &Value) -> Option<RowCause>
    ensures { result ≡ first_of (drop 3 (own_causes (view row.now))) }
{
    if has_wrong_number(row) {
        return Some(RowCause::Number);
    }
    if has_wrong_caps(row) {
        return Some(RowCause::Caps);
    }
    if has_both(row) {
        return Some(RowCause::Both);
    }
    None
}

/// Returns the row of a path and a kind without any key that only an executable may have.
pub fn plain_file(path: AbsPath, kind: RowKind) -> Row
    ensures path_and_kind { result ≡ plain_file path kind }
{
    Row {
        path,
        kind,
        setuid: None,
        setgid: None,
        caps: CapSet::empty(),
        effective: false,
    }
}

// returns the file that the row describes at its path, whatever keys the row has
fn whole_file(path: AbsPath, kind: RowKind, row: &Value) -> Row
    requires path { path_of (view row.now) ≡ Some path }
    requires kind { kind_of (view row.now) ≡ Some kind }
    ensures { result ≡ row_of (view row.now) }
{
    Row {
        path,
        kind,
        setuid: id_at(row, "setuid"),
        setgid: id_at(row, "setgid"),
        caps: caps_of(elements_at(row, "caps")),
        effective: flag_at(row, "effective").unwrap_or(false),
    }
}

// returns the file that the row describes at its path, or the first fault of the row
fn read_file(path: AbsPath, row: &Value) -> Result<Row, RowCause>
    requires { path_of (view row.now) ≡ Some path }
    ensures { SaysFile (view row.now) result }
{
    let Some(kind) = kind_of(row) else {
        return Err(RowCause::Kind);
    };
    let has_exe_key = has_exe_key(row);
    if !may_be(kind, has_exe_key, &path) {
        return Err(RowCause::Kind);
    }
    if !has_exe_key {
        return Ok(plain_file(path, kind));
    }
    match exe_cause(row) {
        Some(cause) => Err(cause),
        None => Ok(whole_file(path, kind, row)),
    }
}

/// Returns the row of this number, or the first fault of the row on its own.
pub fn read_row(alloc: Global, number: u64, row: &Value) -> Result<Row, SiteError>
    ensures says_the_row { SaysRow number (view row.now) result }
{
    if !has_keys(&ROW_KEYS, row) {
        return Err(SiteError::Row(number, RowCause::Key));
    }
    let Some(path) = path_of(alloc, row)? else {
        return Err(SiteError::Row(number, RowCause::Path));
    };
    read_file(path, row).map_err(|cause| SiteError::Row(number, cause))
}
