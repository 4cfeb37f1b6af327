//! Reads booleans of settings (systemd.syntax(7)).

ghost use Rattle.std.specs.Prelude.{◌≡◌, map};
ghost use Rattle.std.specs.Str.{str_eq_ignore_ascii_case};
ghost use Rattle.text_forms.specs.Booleans.{true_words, false_words, is_one_of, bool_value};

const TRUE_WORDS: &[&str] = &["1", "yes", "true", "on", "y", "t"];

const FALSE_WORDS: &[&str] = &["0", "no", "false", "off", "n", "f"];

fn words_of_true() -> &'static [&'static str]
    ensures { map (λ word. word.now) result.now ≡ true_words }
{
    TRUE_WORDS
}

fn words_of_false() -> &'static [&'static str]
    ensures { map (λ word. word.now) result.now ≡ false_words }
{
    FALSE_WORDS
}

// returns whether two words differ at most in the case of ASCII letters
fn is_same_word(word: &str, text: &str) -> bool
    ensures { result ≡ str_eq_ignore_ascii_case word.now text.now }
{
    word.eq_ignore_ascii_case(text)
}

// returns whether the text is one of the words, in any case
#[tactic(auto, unfolding(crate::specs::Booleans::is_one_of))]
fn is_one_of(words: &[&str], text: &str) -> bool
    ensures { result ≡ is_one_of (map (λ word. word.now) words.now) text.now }
{
    for word in words {
        if is_same_word(word, text) {
            return true;
        }
    }
    false
}

/// Reads `1 yes true on y t` as true and `0 no false off n f` as false, in any ASCII case, and returns None for any other text.
#[tactic(auto, unfolding(crate::specs::Booleans::bool_value))]
pub fn read_bool(text: &str) -> Option<bool>
    ensures by_word { result ≡ bool_value text.now }
{
    if is_one_of(words_of_true(), text) {
        Some(true)
    } else if is_one_of(words_of_false(), text) {
        Some(false)
    } else {
        None
    }
}
