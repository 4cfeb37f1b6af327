//! Reads bytes as text.

ghost use Rattle.std.specs.Prelude.{◌≡◌};
ghost use Rattle.std.specs.Option.{option_map};
ghost use Rattle.text_forms.specs.line_text.Lines.{is_text, text_of};

use std::str;

/// Returns the bytes as text if they are UTF-8 and have no NUL, and None otherwise.
pub fn read_text(bytes: &[u8]) -> Option<&str>
    ensures text { option_map (λ text. text.now) result ≡ text_of bytes.now }
{
    let Ok(text) = str::from_utf8(bytes) else {
        return None;
    };
    if bytes.contains(&0) {
        return None;
    }
    Some(text)
}
