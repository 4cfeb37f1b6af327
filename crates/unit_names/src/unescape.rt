// Unescapes names.
//
// systemd.unit(5), String Escaping for Inclusion in Unit Names, has the rule.
ghost use Rattle.std.specs.Prelude.{◌≡◌, ◌<◌, true};
ghost use Rattle.std.specs.Char.{is_ascii_hexdigit, digit_value};
ghost use Rattle.unit_names.specs.Unescaping.{hex_byte, plain_byte, unescaped};
ghost use Rattle.unit_names.specs.Taking.{TakesPart, AddsMeaning};

use crate::expansion::ExpandError;

// Returns the value of a hexadecimal digit.
fn digit_value(digit: u8) -> u8
    requires { is_ascii_hexdigit digit ≡ true }
    ensures value { result ≡ digit_value digit }
    ensures bound { result < 16 }
{
    match digit {
        b'0'..=b'9' => digit - b'0',
        b'A'..=b'F' => digit - b'A' + 10,
        _ => digit - b'a' + 10,
    }
}

// Returns the byte of two hexadecimal digits, or nothing if one of them is no such digit.
fn hex_byte(high: u8, low: u8) -> Option<u8>
    ensures { result ≡ hex_byte high low }
{
    if high.is_ascii_hexdigit() && low.is_ascii_hexdigit() {
        Some(16 * digit_value(high) + digit_value(low))
    } else {
        None
    }
}

// Unescapes a byte outside `\x`: a dash becomes a slash, and another byte stays.
fn plain_byte(byte: u8) -> u8
    ensures { result ≡ plain_byte byte }
{
    if byte == b'-' { b'/' } else { byte }
}

// Returns the unescaped byte of the first piece of a text, and the text after the piece.
fn first_byte(text: &[u8]) -> Result<Option<(u8, &[u8])>, ExpandError>
    ensures { TakesPart text.now result }
{
    match text {
        [] => Ok(None),
        [b'\\', b'x', high, low, rest @ ..] => {
            let byte = hex_byte(*high, *low).ok_or(ExpandError::Specifier)?;
            Ok(Some((byte, rest)))
        }
        [b'\\', b'x', ..] => Err(ExpandError::Specifier),
        [byte, rest @ ..] => Ok(Some((plain_byte(*byte), rest))),
    }
}

/// Unescapes a text and appends its bytes.
pub fn push_unescaped(bytes: &mut Vec<u8>, text: &[u8]) -> Result<(), ExpandError>
    ensures adds_its_meaning { AddsMeaning bytes.old.items (unescaped text.now) result bytes.new.items }
{
    let mut rest = text;
    while let Some((byte, behind)) = first_byte(rest)? {
        bytes.extend_from_slice(&[byte])?;
        rest = behind;
    }
    Ok(())
}
