//! Keeps the paths that the files of a unit write, each with its key.
ghost use Rattle.std.specs.Prelude.{◌≡◌, ◌++◌, flat_map, OnOk};
ghost use Rattle.mount_settings.specs.Assigned.{is_key};
ghost use Rattle.mount_settings.specs.Written.{of_its_key, word_paths, paths_in};
ghost use Rattle.mount_settings.specs.Notes.{word_notes, value_notes};
ghost use Rattle.mount_settings.specs.Steps.{without_key, with_value};

use dropin_merge::unit_values::{FileNote, Value, note_value, read_words};
use dropin_merge::{NoteCause, Text};
use path_settings::{Dialect, Held, HeldList, Mention, PathKey, read_mentions};
use std::alloc::{AllocError, Global};

/// A path that a file of a unit writes.
#[derive(Drop)]
pub struct WrittenPath {
    /// The key that mentions it.
    pub key: PathKey,
    /// What the key says about it.
    pub mention: Mention,
}

impl Held for WrittenPath {
    ghost use Rattle.mount_settings.specs.Roots.{AreRead};

    ghost AreHeld = { AreRead };
}

/// The paths that the files of a unit write and that are in force, in their order. Only the keys that say which object
/// is at a path hide it, empty it or put another object there. Folders can do so too, but never at the root. Each
/// path, and each source of a bind, has at most 250 bytes.
pub type WrittenPaths = HeldList<WrittenPath>;

/// Returns whether two keys are the same.
pub(crate) fn is_key(one: PathKey, other: PathKey) -> bool
    ensures { result ≡ is_key one other }
{
    one.name() == other.name()
}

// Removes the paths of a key.
fn forget(key: PathKey, paths: &mut Vec<WrittenPath>)
    ensures { paths.new.items ≡ without_key key paths.old.items }
{
    paths.retain(|path| !is_key(path.key, key));
}

// Adds mentions of a key after the others.
fn add_mentions(
    key: PathKey,
    mentions: Vec<Mention>,
    paths: &mut Vec<WrittenPath>,
) -> Result<(), AllocError>
    ensures { OnOk result (paths.new.items ≡ paths.old.items ++ of_its_key key mentions.items) }
{
    for mention in mentions {
        paths.push(WrittenPath { key, mention })?;
    }
    Ok(())
}

// Adds the paths of a word after the others, or notes a word that cannot be read.
fn add_word(
    alloc: Global,
    dialect: Dialect,
    key: PathKey,
    word: &str,
    value: &Value,
    paths: &mut Vec<WrittenPath>,
    notes: &mut Vec<FileNote>,
) -> Result<(), AllocError>
    ensures added { OnOk result (paths.new.items ≡ paths.old.items ++ word_paths dialect key word.now) }
    ensures noted { OnOk result (notes.new.items ≡ notes.old.items ++ word_notes dialect key value.now word.now) }
{
    match read_mentions(alloc, dialect, key, word)? {
        Some(mentions) => add_mentions(key, mentions, paths),
        None => note_value(notes, value, NoteCause::Value),
    }
}

// Adds the paths of the words of a value after the others.
fn add_words(
    alloc: Global,
    dialect: Dialect,
    key: PathKey,
    words: &[Text],
    value: &Value,
    paths: &mut Vec<WrittenPath>,
    notes: &mut Vec<FileNote>,
) -> Result<(), AllocError>
    ensures added { OnOk result (paths.new.items ≡ paths.old.items ++ paths_in dialect key words.now) }
    ensures noted { OnOk result (notes.new.items ≡ notes.old.items ++ flat_map (word_notes dialect key value.now) words.now) }
{
    for word in words {
        add_word(alloc, dialect, key, word.as_str(), value, paths, notes)?;
    }
    Ok(())
}

/// Applies one more value of a key. An empty value removes the paths of the key. Any other value adds the paths of its
/// words after the others.
pub(crate) fn add_value(
    alloc: Global,
    dialect: Dialect,
    key: PathKey,
    value: &Value,
    paths: &mut Vec<WrittenPath>,
    notes: &mut Vec<FileNote>,
) -> Result<(), AllocError>
    ensures means { OnOk result (paths.new.items ≡ with_value dialect paths.old.items (record { key = key; value = value.now })) }
    ensures noted { OnOk result (notes.new.items ≡ notes.old.items ++ value_notes dialect key value.now) }
{
    if value.text.as_str().is_empty() {
        forget(key, paths);
        return Ok(());
    }
    match read_words(alloc, value.text.as_str())? {
        Some(words) => add_words(alloc, dialect, key, words.list(), value, paths, notes),
        None => note_value(notes, value, NoteCause::Value),
    }
}
