//! Reads words of StateDirectory=, RuntimeDirectory=, CacheDirectory= and LogsDirectory=.

ghost use Rattle.std.specs.Prelude.{◌≡◌, IfOk, string_bytes};
ghost use Rattle.path_settings.specs.Folders.{is_relative, text_below, folder_mention};

use crate::mentions::{Kind, Mention};
use crate::paths::read_setting_path;
use std::alloc::{AllocError, Global};

/// Returns whether a name is not empty and does not begin with a slash.
pub(crate) fn is_relative(name: &str) -> bool
    ensures { result ≡ is_relative name.now }
{
    name.as_bytes().first().is_some_and(|byte| *byte != b'/')
}

/// Returns the text of a name below a folder.
pub(crate) fn text_below(alloc: Global, folder: &str, name: &str) -> Result<String, AllocError>
    ensures { IfOk result (λ text. string_bytes text ≡ text_below folder.now name.now) }
{
    let mut text = String::new(alloc);
    text.push_str(folder)?;
    text.push('/')?;
    text.push_str(name)?;
    Ok(text)
}

/// Reads the mention of a folder by its name below another folder. The service may write there, and a missing folder
/// is skipped. None if the name is empty or begins with a slash, or if both together are no path of a setting.
pub fn read_folder(alloc: Global, folder: &str, name: &str) -> Result<Option<Mention>, AllocError>
    ensures mention_or_none { IfOk result (λ mention. mention ≡ folder_mention folder.now name.now) }
{
    if !is_relative(name) {
        return Ok(None);
    }
    let text = text_below(alloc, folder, name)?;
    let path = read_setting_path(alloc, &text)?;
    Ok(path.map(|path| Mention {
        path,
        kind: Kind::Rw,
        optional: true,
    }))
}
