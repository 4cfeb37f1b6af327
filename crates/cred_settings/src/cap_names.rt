//! Reads names of capabilities in lists, in any case (capabilities(7)).
ghost use Rattle.std.specs.Prelude.{◌≡◌, ◌≤◌, ◌++◌, IfSome, OnOk, flat_map};
ghost use Rattle.cred_settings.specs.CapNames.{cap_named, named_caps, word_notes};

use dropin_merge::unit_values::{FileNote, Value, note_value};
use dropin_merge::{NoteCause, Text};
use site_table::CapSet;
use std::alloc::AllocError;

fn cap_named(word: &str) -> Option<u8>
    ensures number { result ≡ cap_named word.now }
    ensures in_range { IfSome result (λ number. number ≤ 40) }
{
    CapSet::from_name(word)
}

/// Returns the set of the capabilities that the words name. It skips words that do not name a capability.
pub fn named_caps(words: &[Text]) -> CapSet
    ensures all_named { result ≡ named_caps words.now }
{
    let mut set = CapSet::empty();
    for word in words {
        if let Some(number) = cap_named(word.as_str()) {
            set = set.with(number);
        }
    }
    set
}

/// Notes the words of a value that do not name a capability.
pub fn note_words(
    notes: &mut Vec<FileNote>,
    value: &Value,
    words: &[Text],
) -> Result<(), AllocError>
    ensures unknown_noted { OnOk result (notes.new.items ≡ notes.old.items ++ flat_map (word_notes value.now) words.now) }
{
    for word in words {
        if cap_named(word.as_str()).is_none() {
            note_value(notes, value, NoteCause::UnknownName)?;
        }
    }
    Ok(())
}
