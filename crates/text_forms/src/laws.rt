//! States the laws of the forms. Each is the contract of a function that does nothing.

ghost use Rattle.std.specs.Prelude.{◌≡◌, ◌≢◌, ◌<◌, ◌^◌, ℕ, List, Some, Ok, Err, All, IsTrue, ◌↔◌, codes, decimal, slice_index, false};
ghost use Rattle.text_forms.specs.Numbers.{number_value};
ghost use Rattle.text_forms.specs.Escaped.{escaped_word, word_read};
ghost use Rattle.text_forms.specs.declared.splitting.symbols.Symbol.{Symbol};
ghost use Rattle.text_forms.specs.declared.error.WordsError.TheVariants.{Escape, Quote, NotText};
ghost use Rattle.text_forms.specs.Words.{symbols_of, words_of};
ghost use Rattle.text_forms.specs.Grammar.{Spells, LaysOut};
ghost use Rattle.std.specs.List.{list_all};
ghost use Rattle.std.specs.Str.{is_utf8};

/// A printed number is read back as the same number, and has no leading zero.
pub fn printed_number_read()
    ensures read_again { (n : ℕ) → n < 2 ^ 64 → number_value (decimal n) ≡ Some n }
    ensures zero { decimal 0 ≡ codes "0" }
    ensures no_leading_zero { (n : ℕ) → 0 < n → n < 2 ^ 64 → slice_index (decimal n) 0 ≢ 48 }
{}

/// An escaped word is read back as its text, and has no white space.
pub fn escaped_word_read()
    ensures read_back { (text : List ℕ) → All (λ byte. byte < 256) text → word_read (escaped_word text) ≡ Some text }
    ensures no_white_space { (text : List ℕ) → All (λ byte. 32 < byte) (escaped_word text) }
{}

/// A text is split as the grammar of systemd.syntax(7) says, if its symbols and words follow that grammar. A text whose symbols
/// do not follow it is Escape, a text with an open quote is Quote, and a text with a word that is not UTF-8 is NotText.
pub fn text_split_by_grammar()
    ensures symbols_as_written { (text : List ℕ) (symbols : List Symbol)
        → (symbols_of text ≡ Some symbols) ↔ Spells symbols text }
    ensures words_as_laid_out { (text : List ℕ) (symbols : List Symbol) (words : List (List ℕ))
        → Spells symbols text → LaysOut symbols words → IsTrue (list_all is_utf8 words)
        → words_of text ≡ Ok words }
    ensures escape_where_not_written { (text : List ℕ)
        → (words_of text ≡ Err Escape) ↔ ((symbols : List Symbol) → ¬ (Spells symbols text)) }
    ensures quote_where_not_laid_out { (text : List ℕ) (symbols : List Symbol) → Spells symbols text
        → (words_of text ≡ Err Quote) ↔ ((words : List (List ℕ)) → ¬ (LaysOut symbols words)) }
    ensures not_text_where_not_utf8 { (text : List ℕ) (symbols : List Symbol) (words : List (List ℕ))
        → Spells symbols text → LaysOut symbols words
        → (words_of text ≡ Err NotText) ↔ (list_all is_utf8 words ≡ false) }
{}
