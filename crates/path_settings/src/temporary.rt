//! Reads words of TemporaryFileSystem=.

ghost use Rattle.std.specs.Prelude.{◌≡◌, IfOk, ◌==◌};
ghost use Rattle.path_settings.specs.Temporary.{asks_for, tmp_with, temporary_at, temporary_mention};

use crate::mentions::{Kind, Mention};
use crate::paths::read_setting_path;
use std::alloc::{AllocError, Global};

// Returns whether one of the options between the commas is this one.
fn asks_for(name: &str, options: &str) -> bool
    ensures { result ≡ asks_for name.now options.now }
{
    options.split(',').any(|option| option == name)
}

fn tmp_with(options: &str) -> Kind
    ensures { result ≡ tmp_with options.now }
{
    Kind::Tmp {
        read_only: asks_for("ro", options),
        no_exec: asks_for("noexec", options),
        no_suid: asks_for("nosuid", options),
    }
}

fn temporary_at(alloc: Global, path: &str, options: &str) -> Result<Option<Mention>, AllocError>
    ensures { IfOk result (λ mention. mention ≡ temporary_at path.now options.now) }
{
    let path = read_setting_path(alloc, path)?;
    let kind = tmp_with(options);
    Ok(path.map(|path| Mention {
        path,
        kind,
        optional: false,
    }))
}

/// Reads the mention of a word `PATH[:OPTIONS]`: an empty file system at PATH. It is read-only if one of the options is
/// `ro`. `noexec` and `nosuid` count only in systemd 252 and 257. None if PATH is no path of a setting.
pub fn read_temporary(alloc: Global, word: &str) -> Result<Option<Mention>, AllocError>
    ensures mention_or_none { IfOk result (λ mention. mention ≡ temporary_mention word.now) }
{
    match word.split_once(':') {
        Some((path, options)) => temporary_at(alloc, path, options),
        None => temporary_at(alloc, word, ""),
    }
}
