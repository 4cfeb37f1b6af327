//! Reads the path of a setting, as `AbsPath` does. It has at most 250 bytes.

ghost use Rattle.std.specs.Prelude.{◌≡◌, IfOk};
ghost use Rattle.path_settings.specs.SettingPaths.{setting_path, if_short};

use abs_path::{AbsPath, PathError};
use std::alloc::{AllocError, Global};

/// The greatest number of bytes in the text of a setting's path.
const LONGEST: usize = 250;

fn if_short(path: AbsPath) -> Option<AbsPath>
    ensures { result ≡ if_short path }
{
    (path.text().len() <= LONGEST).then_some(path)
}

/// Reads a text as the path of a setting: absolute, without `..` and NUL, and at most 250 bytes long once it is
/// folded. None for any other text. Memory may run out on any text.
pub fn read_setting_path(alloc: Global, text: &str) -> Result<Option<AbsPath>, AllocError>
    ensures path_or_none { IfOk result (λ path. path ≡ setting_path text.now) }
{
    match AbsPath::read(alloc, text) {
        Ok(path) => Ok(if_short(path)),
        Err(PathError::Memory) => Err(AllocError),
        Err(_) => Ok(None),
    }
}
