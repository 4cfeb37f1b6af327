//! Sorts the paths of mentions in byte order.

ghost use Rattle.std.specs.Prelude.{◌≡◌, OnOk, map};
ghost use Rattle.path_settings.specs.abs_path.ByteOrder.{with_placed};

use abs_path::{AbsPath, put};
use path_settings::Mention;
use std::alloc::{AllocError, Global};

/// Puts the paths of the mentions at their places in a list in byte order.
pub fn put_paths(
    alloc: Global,
    paths: &mut Vec<AbsPath>,
    mentions: &[Mention],
) -> Result<(), AllocError>
    ensures added { OnOk result
        (paths.new.items ≡ with_placed paths.old.items (map (λ mention. mention.path) mentions.now)) }
{
    for mention in mentions {
        put(alloc, paths, &mention.path)?;
    }
    Ok(())
}
