//! Tests if keys would mount something over the root.
ghost use Rattle.std.specs.Prelude.{◌≡◌, ◌&&◌};
ghost use Rattle.mount_settings.specs.Assigned.{is_key};
ghost use Rattle.mount_settings.specs.Roots.{mentions_root};

use crate::written::{WrittenPaths, is_key};
use path_settings::PathKey;

/// Returns whether a path that the key writes is `/`. For BindPaths= and BindReadOnlyPaths= this path is the destination
/// of the bind. A unit that mentions the root with these two, InaccessiblePaths= or TemporaryFileSystem= is not judged.
pub fn mentions_root(paths: &WrittenPaths, key: PathKey) -> bool
    ensures is_written_there { result ≡ mentions_root paths.now key }
{
    paths.list().iter().any(|path| is_key(path.key, key) && path.mention.path.is_root())
}
