//! The filter that a name means.
ghost use Rattle.std.specs.Prelude.{◌≡◌, ◌++◌, ◌∷◌, find, option_copied};
ghost use Rattle.std.specs.Str.{bytes_eq};
ghost use Rattle.unit_inputs.specs.filter_settings.filter_rules.Installed.{place_of};
ghost use Rattle.check_command.specs.Naming.{means, means_native, means_with_abi};

use unit_inputs::{CallTable, Filter};

// Whether a word is a filter's name, `@`, and an ABI's name.
fn is_joined(word: &str, name: &str, abi: &str) -> bool
    ensures { result ≡ bytes_eq (name.now ++ 64 ∷ abi.now) word.now }
{
    match word.strip_prefix(name) {
        Some(rest) => is_behind_at(rest, abi),
        None => false,
    }
}

// Whether a text is `@` and the name of an ABI.
fn is_behind_at(text: &str, abi: &str) -> bool
    ensures { result ≡ bytes_eq (64 ∷ abi.now) text.now }
{
    match text.strip_prefix("@") {
        Some(rest) => abi == rest,
        None => false,
    }
}

// Whether a word is the name of this filter, which is for the native ABI.
fn means_native(word: &str, filter: &Filter) -> bool
    ensures { result ≡ means_native word.now (place_of filter.now) }
{
    filter.abi == 0 && filter.name.text() == word
}

// Whether a word is the name of this filter with its ABI's name.
fn means_with_abi(table: &CallTable, word: &str, filter: &Filter) -> bool
    ensures { result ≡ means_with_abi table.now word.now (place_of filter.now) }
{
    let name = filter.name.text();
    match table.abi_name(filter.abi) {
        Some(abi) => is_joined(word, name, abi),
        None => false,
    }
}

// Whether a word means this filter.
fn means(table: &CallTable, word: &str, filter: &Filter) -> bool
    ensures { result ≡ means table.now word.now (place_of filter.now) }
{
    means_native(word, filter) || means_with_abi(table, word, filter)
}

/// The filter that a name means: `NAME` is the program for the native ABI, and `NAME@ABI` that for the ABI of this name.
pub fn named_filter<'a>(table: &CallTable, filters: &'a [Filter], word: &str) -> Option<&'a Filter>
    ensures named { option_copied result ≡ find (λ filter. means table.now word.now (place_of filter)) filters.now }
{
    filters.iter().find(|filter| means(table, word, filter))
}
