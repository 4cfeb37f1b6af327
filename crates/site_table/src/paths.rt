//! Reads the paths of rows.

ghost use Rattle.std.specs.Prelude.{◌≡◌, IfOk, IsTrue, option_map};
ghost use Rattle.toml.specs.View.{view};
ghost use Rattle.abs_path.specs.Paths.{tail_of, is_normal};
ghost use Rattle.site_table.specs.Paths.{short_path, parent_of};
ghost use Rattle.site_table.specs.Rows.{path_of};

use abs_path::{AbsPath, PathError};
use std::alloc::{AllocError, Global};
use toml::Value;
use toml_shapes::text_at;

/// The most bytes of the path of a row.
const LONGEST: usize = 250;

// returns the path of a text, if the text is a path and is short
fn short_path(alloc: Global, text: &str) -> Result<Option<AbsPath>, AllocError>
    ensures { IfOk result (λ path. path ≡ short_path text.now) }
{
    match AbsPath::read(alloc, text) {
        Ok(path) if path.text().len() <= LONGEST => Ok(Some(path)),
        Err(PathError::Memory) => Err(AllocError),
        _ => Ok(None),
    }
}

/// Returns the path of a row, if it has one.
pub fn path_of(alloc: Global, row: &Value) -> Result<Option<AbsPath>, AllocError>
    ensures path_or_none { IfOk result (λ path. path ≡ path_of (view row.now)) }
{
    match text_at(row, "path") {
        Some(text) => short_path(alloc, text),
        None => Ok(None),
    }
}

/// Returns the text of a path, which is empty for the root.
pub fn tail(path: &AbsPath) -> &str
    ensures tail { result.now ≡ tail_of path.now }
    ensures normal { IsTrue (is_normal path.now) }
{
    if path.tail_len() == 0 {
        ""
    } else {
        path.text()
    }
}

/// Returns the text of the folder of a path, which is empty if that folder is the root. The root itself has no folder.
pub fn parent(path: &AbsPath) -> Option<&str>
    ensures parent { option_map (λ text. text.now) result ≡ option_map tail_of (parent_of path.now) }
{
    match tail(path).rsplit_once('/') {
        Some((front, _)) => Some(front),
        None => None,
    }
}
