//! Keeps what the settings of a unit ask systemd to mount, in the order in which they ask.

ghost use Rattle.std.specs.Prelude.{◌≡◌, ◌↔◌, ◌≤◌, ◌++◌, ◌∷◌, [], length, IsTrue, IfOk, OnOk, OnErr, IsErrOf};
ghost use Rattle.std.specs.List.{list_all};
ghost use Rattle.path_settings.specs.Mentions.{is_path};
ghost use Rattle.path_settings.specs.systemd.Entries.{leaves_the_root, is_whole, has_whole_source};

use crate::error::MentionError;
use crate::systemd::modes::MountMode;
use abs_path::AbsPath;
use std::alloc::{AllocError, Global};
use std::marker::Model;
use text_forms::item_list::ItemList;

/// The greatest number of entries.
const MOST: usize = 192;

/// What a setting mounts at a path.
#[derive(Drop)]
pub struct MountEntry {
    pub path: AbsPath,
    pub mode: MountMode,
    /// Whether the entry is skipped if the path, or the source of a bind, does not exist.
    pub optional: bool,
}

impl MountEntry {
    /// Copies the entry.
    pub fn copy(&self, alloc: Global) -> Result<MountEntry, AllocError>
        ensures same { IfOk result (λ entry. entry ≡ self.now) }
    {
        let path = self.path.copy(alloc)?;
        let mode = self.mode.copy(alloc)?;
        Ok(MountEntry {
            path,
            mode,
            optional: self.optional,
        })
    }
}

/// At most 192 entries: the written ones in their order, and after them the implied ones. Contracts see them as a list.
#[derive(Drop)]
pub struct MountEntries {
    items: ItemList<MountEntry>,
}

impl Model for MountEntries {
    ghost use Rattle.std.specs.Prelude.{List};
    ghost use Rattle.path_settings.specs.declared.systemd.entries.MountEntry.{MountEntry};
    ghost use Rattle.path_settings.specs.systemd.Entries.{AreKept};

    ghost Value = { List MountEntry };

    ghost view = { λ entries. entries.items };

    ghost invariant = { λ entries. AreKept entries.items };
}

// Does nothing. Its contract says that the path is normal and short, as a call of `text` guarantees.
fn know_path(path: &AbsPath)
    ensures { IsTrue (is_path path.now) }
{
    let _text = path.text();
}

// Does nothing. Its contract says the same of the source of a bind.
fn know_source(mode: &MountMode)
    ensures { IsTrue (has_whole_source mode.now) }
{
    match mode {
        MountMode::Bind { source, .. } => know_path(source),
        MountMode::RecursiveBind { source, .. } => know_path(source),
        _ => {}
    }
}

impl MountEntries {
    /// Makes an empty list.
    pub fn new(alloc: Global) -> MountEntries
        ensures empty { result ≡ [] }
    {
        MountEntries {
            items: ItemList::empty(alloc),
        }
    }

    /// Returns the entries in the order in which they were added.
    pub fn list(&self) -> &[MountEntry]
        ensures all_in_order { result.now ≡ self.now }
        ensures at_most_192 { length self.now ≤ 192 }
        ensures whole { IsTrue (list_all is_whole self.now) }
    {
        self.items.list()
    }

    /// Returns whether no entry hides the root, empties it or puts another object there.
    pub fn leaves_the_root(&self) -> bool
        ensures root_is_the_hosts { result ≡ leaves_the_root self.now }
    {
        self.list()
            .iter()
            .all(|one| !(one.path.is_root() && one.mode.is_origin()))
    }

    /// Adds an entry after the others. `Full` if there are 192 of them. On an error the list stays as it was.
    pub fn add(&mut self, one: MountEntry) -> Result<(), MentionError>
        ensures adds_behind { OnOk result (self.new ≡ self.old ++ one ∷ []) }
        ensures full_exactly_at_192 { IsErrOf result MentionError.Full ↔ (length self.old ≡ 192) }
        ensures unchanged_on_error { OnErr result (self.new ≡ self.old) }
    {
        if self.items.list().len() == MOST {
            return Err(MentionError::Full);
        }
        know_path(&one.path);
        know_source(&one.mode);
        self.items.push(one).or(Err(MentionError::Memory))
    }
}
