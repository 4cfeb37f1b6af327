//! Reads words of BindPaths= and BindReadOnlyPaths=.

ghost use Rattle.std.specs.Prelude.{◌≡◌, IfOk, map};
ghost use Rattle.std.specs.Option.{option_map};
ghost use Rattle.path_settings.specs.Binds.{bind_pieces, bind_option, ends_of, bind_between, bind_mention};

use crate::marks::{is_marked, without};
use crate::mentions::{Kind, Mention};
use crate::paths::read_setting_path;
use std::alloc::{AllocError, Global};

/// Returns the pieces of a text between its colons.
pub(crate) fn pieces(alloc: Global, text: &str) -> Result<Vec<&str>, AllocError>
    ensures { IfOk result (λ found. map (λ piece. piece.now) found.items ≡ bind_pieces text.now) }
{
    text.split(':').collect(alloc)
}

// Returns whether the option takes the mounts below the source along: `rbind` does, and `norbind` does not.
fn bind_option(option: &str) -> Option<bool>
    ensures { result ≡ bind_option option.now }
{
    match option {
        "rbind" => Some(true),
        "norbind" => Some(false),
        _ => None,
    }
}

// Returns the texts of the source and of the destination, which is the source if none is written, and the option.
fn ends<'a>(pieces: &[&'a str]) -> Option<(&'a str, &'a str, bool)>
    ensures { option_map (λ ends. (ends.0.now, ends.1.now, ends.2)) result ≡ ends_of (map (λ piece. piece.now) pieces.now) }
{
    match pieces {
        [source] => Some((*source, *source, true)),
        [source, place] => Some((*source, *place, true)),
        [source, place, option] => {
            let recursive = bind_option(*option)?;
            Some((*source, *place, recursive))
        }
        _ => None,
    }
}

fn bind_between(
    alloc: Global,
    read_only: bool,
    optional: bool,
    source: &str,
    place: &str,
    recursive: bool,
) -> Result<Option<Mention>, AllocError>
    ensures { IfOk result (λ mention. mention ≡ bind_between read_only optional (source.now, place.now, recursive)) }
{
    let Some(source) = read_setting_path(alloc, source)? else {
        return Ok(None);
    };
    let Some(path) = read_setting_path(alloc, place)? else {
        return Ok(None);
    };
    Ok(Some(Mention {
        path,
        kind: Kind::Bind {
            source,
            read_only,
            recursive,
        },
        optional,
    }))
}

/// Reads the mention of a word `[-]SOURCE[:DEST[:rbind or norbind]]`: the object at SOURCE is shown at DEST, or at
/// SOURCE if there is no DEST. None if the word has another form, or if SOURCE or DEST is no path of a setting.
pub fn read_bind(alloc: Global, read_only: bool, word: &str) -> Result<Option<Mention>, AllocError>
    ensures mention_or_none { IfOk result (λ mention. mention ≡ bind_mention read_only word.now) }
{
    let pieces = pieces(alloc, without("-", word))?;
    match ends(&pieces) {
        Some((source, place, recursive)) => {
            bind_between(alloc, read_only, is_marked(word), source, place, recursive)
        }
        None => Ok(None),
    }
}
