//! Defines lists of calls and of address families, as the words that were written, in their order.
//!
//! A list keeps all its words. If several words name one thing, the last decides.

use call_rules::{Action, ItemList};
use dropin_merge::Text;

/// Says whether a list allows or denies (systemd.exec(5), SystemCallFilter= and RestrictAddressFamilies=).
#[derive(Clone, Copy, PartialEq, Eq)]
pub enum Mode {
    /// Everything on the list is allowed, and nothing else.
    Allow,
    /// Everything on the list is refused, and nothing else.
    Deny,
}

/// One word of a SystemCallFilter= line that is in force.
#[derive(Drop)]
pub struct Mention {
    /// Whether the word puts calls on the list, or takes them off.
    pub adds: bool,
    /// The name of a call, or `@` and the name of a group.
    pub name: Text,
    /// The action that the word's suffix names. Only a word that puts calls on the list has one.
    pub action: Option<Action>,
}

/// Words of SystemCallFilter= lines in their order. Contracts see them as a list.
pub type Mentions = ItemList<Mention>;

/// A list of system calls. If it allows, the reader of the setting puts `@default` first.
#[derive(Drop)]
pub struct CallList {
    pub mode: Mode,
    pub mentions: Mentions,
    /// Whether calls that systemd does not know fail as if the kernel lacked them. These are the calls outside `@known` and
    /// the numbers without a name.
    pub hides_unknown: bool,
}

/// One word of a RestrictAddressFamilies= line that is in force.
#[derive(Clone, Copy)]
pub struct FamilyMention {
    /// Whether the word puts the family on the list, or takes it off.
    pub adds: bool,
    /// The number of the family, AF_* of socket(2).
    pub number: u32,
}

/// Words of RestrictAddressFamilies= lines in their order. Contracts see them as a list.
pub type FamilyMentions = ItemList<FamilyMention>;

/// A list of address families.
#[derive(Drop)]
pub struct FamilyList {
    pub mode: Mode,
    pub mentions: FamilyMentions,
}
