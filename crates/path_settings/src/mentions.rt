//! Keeps the mentions of paths in the order in which they were written.

ghost use Rattle.std.specs.Prelude.{◌≡◌, ◌↔◌, ◌≤◌, ◌++◌, ◌∷◌, [], length, IsTrue, IfOk, OnOk, OnErr, IsErrOf};
ghost use Rattle.std.specs.Option.{option_map};
ghost use Rattle.std.specs.List.{list_all};
ghost use Rattle.path_settings.specs.Mentions.{hides, is_tmp, is_bind, source_of, is_origin, leaves_the_root, is_path, is_whole, has_whole_source};

use crate::error::MentionError;
use abs_path::AbsPath;
use std::alloc::{AllocError, Global};
use std::marker::Model;
use text_forms::item_list::ItemList;

/// The greatest number of mentions.
const MOST: usize = 192;

/// The effect of a mention at its path (systemd.exec(5), Sandboxing).
#[derive(Drop)]
pub enum Kind {
    /// The service cannot write at the path or below it.
    Ro,
    /// The service can write at the path and below it.
    Rw,
    /// The service can execute files at the path and below it.
    Exec,
    /// The service cannot execute files at the path or below it.
    NoExec,
    /// The service sees nothing at the path.
    Hide,
    /// An empty file system is at the path. The base profile does not look at `no_exec` and `no_suid`.
    Tmp {
        read_only: bool,
        no_exec: bool,
        no_suid: bool,
    },
    /// The object at another path of the host is also at this path. The base profile does not look at `recursive`.
    Bind {
        source: AbsPath,
        read_only: bool,
        recursive: bool,
    },
}

/// The effect of a setting at one path.
#[derive(Drop)]
pub struct Mention {
    pub path: AbsPath,
    pub kind: Kind,
    /// Whether the mention is skipped if the path, or the source of a bind, does not exist.
    pub optional: bool,
}

impl Kind {
    /// Returns whether a mention of this kind says which object is at the path, and not only how the object may be used.
    pub fn is_origin(&self) -> bool
        ensures hides_or_puts { result ≡ is_origin self.now }
    {
        matches!(self, Kind::Hide | Kind::Tmp { .. } | Kind::Bind { .. })
    }

    /// Returns whether the service sees nothing at the path.
    pub fn hides(&self) -> bool
        ensures hides { result ≡ hides self.now }
    {
        matches!(self, Kind::Hide)
    }

    /// Returns whether an empty file system is at the path.
    pub fn is_tmp(&self) -> bool
        ensures empties { result ≡ is_tmp self.now }
    {
        matches!(self, Kind::Tmp { .. })
    }

    /// Returns whether the object at another path is shown at the path.
    pub fn is_bind(&self) -> bool
        ensures binds { result ≡ is_bind self.now }
    {
        matches!(self, Kind::Bind { .. })
    }

    /// Returns the other path of a bind. None for every other kind.
    pub fn source(&self) -> Option<&AbsPath>
        ensures of_a_bind { option_map (λ source. source.now) result ≡ source_of self.now }
    {
        match self {
            Kind::Bind { source, .. } => Some(source),
            _ => None,
        }
    }

    /// Copies the kind.
    pub fn copy(&self, alloc: Global) -> Result<Kind, AllocError>
        ensures same { IfOk result (λ kind. kind ≡ self.now) }
    {
        Ok(match self {
            Kind::Ro => Kind::Ro,
            Kind::Rw => Kind::Rw,
            Kind::Exec => Kind::Exec,
            Kind::NoExec => Kind::NoExec,
            Kind::Hide => Kind::Hide,
            Kind::Tmp {
                read_only,
                no_exec,
                no_suid,
            } => Kind::Tmp {
                read_only: *read_only,
                no_exec: *no_exec,
                no_suid: *no_suid,
            },
            Kind::Bind {
                source,
                read_only,
                recursive,
            } => Kind::Bind {
                source: source.copy(alloc)?,
                read_only: *read_only,
                recursive: *recursive,
            },
        })
    }
}

impl Mention {
    /// Copies the mention.
    pub fn copy(&self, alloc: Global) -> Result<Mention, AllocError>
        ensures same { IfOk result (λ mention. mention ≡ self.now) }
    {
        let path = self.path.copy(alloc)?;
        let kind = self.kind.copy(alloc)?;
        Ok(Mention {
            path,
            kind,
            optional: self.optional,
        })
    }
}

/// At most 192 mentions in the order in which they were written. Contracts see them as a list.
#[derive(Drop)]
pub struct Mentions {
    items: ItemList<Mention>,
}

impl Model for Mentions {
    ghost use Rattle.std.specs.Prelude.{List};
    ghost use Rattle.path_settings.specs.declared.mentions.Mention.{Mention};
    ghost use Rattle.path_settings.specs.Mentions.{AreKept};

    ghost Value = { List Mention };

    ghost view = { λ mentions. mentions.items };

    ghost invariant = { λ mentions. AreKept mentions.items };
}

// Does nothing. Its contract says that the path is normal and short, as a call of `text` guarantees.
fn know_path(path: &AbsPath)
    ensures { IsTrue (is_path path.now) }
{
    let _text = path.text();
}

// Does nothing. Its contract says the same of the source of a bind.
fn know_source(kind: &Kind)
    ensures { IsTrue (has_whole_source kind.now) }
{
    if let Kind::Bind { source, .. } = kind {
        know_path(source);
    }
}

impl Mentions {
    /// Makes an empty list.
    pub fn new(alloc: Global) -> Mentions
        ensures empty { result ≡ [] }
    {
        Mentions {
            items: ItemList::empty(alloc),
        }
    }

    /// Returns the mentions in the order in which they were added.
    pub fn list(&self) -> &[Mention]
        ensures all_in_order { result.now ≡ self.now }
        ensures at_most_192 { length self.now ≤ 192 }
        ensures whole { IsTrue (list_all is_whole self.now) }
    {
        self.items.list()
    }

    /// Returns whether no mention hides the root, empties it or puts another object there.
    pub fn leaves_the_root(&self) -> bool
        ensures root_is_the_hosts { result ≡ leaves_the_root self.now }
    {
        self.list().iter().all(|mention| !(mention.path.is_root() && mention.kind.is_origin()))
    }

    /// Adds a mention after the others. `Full` if there are 192 of them. On an error the list stays as it was.
    pub fn add(&mut self, mention: Mention) -> Result<(), MentionError>
        ensures adds_behind { OnOk result (self.new ≡ self.old ++ mention ∷ []) }
        ensures full_exactly_at_192 { IsErrOf result MentionError.Full ↔ (length self.old ≡ 192) }
        ensures unchanged_on_error { OnErr result (self.new ≡ self.old) }
    {
        if self.items.list().len() == MOST {
            return Err(MentionError::Full);
        }
        know_path(&mention.path);
        know_source(&mention.kind);
        self.items.push(mention).or(Err(MentionError::Memory))
    }
}
