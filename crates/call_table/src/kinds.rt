// Finds the kind of a line by its words.
ghost use Rattle.std.specs.Prelude.{◌≡◌, map};
ghost use Rattle.std.specs.Option.{option_map};
ghost use Rattle.call_table.specs.Names.{behind_at};
ghost use Rattle.call_table.specs.Kinds.{abi_line, entry_of, named_entry, call_line, family_line, named_group, group_line, kind_by, kind_of, seen_entry, seen};

use crate::names::{behind_at, is_name};

/// The words `NAME NUMBER [CAP]` of a call or a family.
#[derive(Clone, Copy)]
pub struct Entry<'a> {
    pub name: &'a str,
    pub digits: &'a str,
    pub cap_word: Option<&'a str>,
}

/// The kind of a line.
#[derive(Clone, Copy)]
pub enum Kind<'a, 'b> {
    /// `abi NAME ARCH`, with the name and the digits of ARCH.
    Abi(&'a str, &'a str),
    /// `call NAME NUMBER [CAP]`
    Call(Entry<'a>),
    /// `family NAME NUMBER [CAP]`
    Family(Entry<'a>),
    /// `group @NAME MEMBER ..`, with the name and the members.
    Group(&'a str, &'b [&'a str]),
    /// Any other words.
    Malformed,
}

fn abi_line<'a, 'b>(words: &'b [&'a str]) -> Kind<'a, 'b>
    ensures { seen result ≡ abi_line (map (λ word. word.now) words.now) }
{
    match words {
        [name, digits] => Kind::Abi(*name, *digits),
        _ => Kind::Malformed,
    }
}

fn named_entry<'a>(name: &'a str, digits: &'a str, cap_word: Option<&'a str>) -> Option<Entry<'a>>
    ensures { option_map seen_entry result ≡ named_entry name.now digits.now (option_map (λ word. word.now) cap_word.entry) }
{
    is_name(name).then_some(Entry {
        name,
        digits,
        cap_word,
    })
}

fn read_entry<'a>(words: &[&'a str]) -> Option<Entry<'a>>
    ensures { option_map seen_entry result ≡ entry_of (map (λ word. word.now) words.now) }
{
    match words {
        [name, digits] => named_entry(*name, *digits, None),
        [name, digits, cap_word] => named_entry(*name, *digits, Some(*cap_word)),
        _ => None,
    }
}

fn call_line<'a, 'b>(words: &'b [&'a str]) -> Kind<'a, 'b>
    ensures { seen result ≡ call_line (entry_of (map (λ word. word.now) words.now)) }
{
    match read_entry(words) {
        Some(entry) => Kind::Call(entry),
        None => Kind::Malformed,
    }
}

fn family_line<'a, 'b>(words: &'b [&'a str]) -> Kind<'a, 'b>
    ensures { seen result ≡ family_line (entry_of (map (λ word. word.now) words.now)) }
{
    match read_entry(words) {
        Some(entry) => Kind::Family(entry),
        None => Kind::Malformed,
    }
}

fn named_group<'a, 'b>(word: &'a str, members: &'b [&'a str]) -> Kind<'a, 'b>
    ensures { seen result ≡ named_group (map (λ word. word.now) members.now) (behind_at word.now) }
{
    match behind_at(word) {
        Some(name) if is_name(name) => Kind::Group(name, members),
        _ => Kind::Malformed,
    }
}

fn group_line<'a, 'b>(words: &'b [&'a str]) -> Kind<'a, 'b>
    ensures { seen result ≡ group_line (map (λ word. word.now) words.now) }
{
    match words.split_first() {
        Some((word, members)) if !members.is_empty() => named_group(*word, members),
        _ => Kind::Malformed,
    }
}

fn kind_by<'a, 'b>(word: &str, words: &'b [&'a str]) -> Kind<'a, 'b>
    ensures { seen result ≡ kind_by word.now (map (λ word. word.now) words.now) }
{
    match word {
        "call" => call_line(words),
        "group" => group_line(words),
        "family" => family_line(words),
        "abi" => abi_line(words),
        _ => Kind::Malformed,
    }
}

/// Returns the kind of the line of these words.
pub fn kind_of_words<'a, 'b>(words: &'b [&'a str]) -> Kind<'a, 'b>
    ensures by_first_word { seen result ≡ kind_of (map (λ word. word.now) words.now) }
{
    match words.split_first() {
        Some((word, words)) => kind_by(*word, words),
        None => Kind::Malformed,
    }
}
