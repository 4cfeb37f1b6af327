//! Reads words of ReadWritePaths=, ReadOnlyPaths=, InaccessiblePaths=, ExecPaths= and NoExecPaths=.

ghost use Rattle.std.specs.Prelude.{◌≡◌, IfOk};
ghost use Rattle.path_settings.specs.Lists.{path_mention};

use crate::marks::{is_marked, without};
use crate::mentions::{Kind, Mention};
use crate::paths::read_setting_path;
use std::alloc::{AllocError, Global};

/// Reads the mention of a word of a list of paths. A `-` in front makes the mention optional. A `+` after the `-`, or
/// alone in front, changes nothing. None if the rest is no path of a setting.
pub fn read_path(alloc: Global, kind: Kind, word: &str) -> Result<Option<Mention>, AllocError>
    ensures mention_or_none { IfOk result (λ mention. mention ≡ path_mention kind word.now) }
{
    let text = without("+", without("-", word));
    let path = read_setting_path(alloc, text)?;
    let optional = is_marked(word);
    Ok(path.map(|path| Mention {
        path,
        kind,
        optional,
    }))
}
