//! Prints a text as one escaped word without white space.

ghost use Rattle.std.specs.Prelude.{◌≡◌, ◌<◌, ◌++◌, IsTrue, IfSome, MatchOption, OnOk, OnErr, position, take, length};
ghost use Rattle.text_forms.specs.Escaped.{is_coded, upper_digit, escaped_byte, escaped_word};

use std::alloc::AllocError;

fn is_coded(byte: u8) -> bool
    ensures { result ≡ is_coded byte }
{
    byte <= b' ' || byte == 0x7f || byte == b'%'
}

fn upper_digit(digit: u8) -> u8
    requires { digit < 16 }
    ensures { result ≡ upper_digit digit }
{
    if digit < 10 {
        b'0' + digit
    } else {
        b'A' - 10 + digit
    }
}

// appends the code of a byte
#[tactic(auto, unfolding(crate::specs::Escaped::escaped_byte))]
fn push_coded(out: &mut Vec<u8>, byte: u8) -> Result<(), AllocError>
    requires { IsTrue (is_coded byte) }
    ensures appends { OnOk result (out.new.items ≡ out.old.items ++ escaped_byte byte) }
    ensures unchanged_on_error { OnErr result (out.new.items ≡ out.old.items) }
{
    out.extend_from_slice(&[b'%', upper_digit(byte / 16), upper_digit(byte % 16)])
}

fn coded_at(bytes: &[u8]) -> Option<usize>
    ensures { result ≡ position is_coded bytes.now }
{
    bytes.iter().position(|byte| is_coded(*byte))
}

// returns the bytes before the first coded byte, that byte, and the bytes after it
fn split_at_coded(bytes: &[u8]) -> Option<(&[u8], u8, &[u8])>
    ensures coded { IfSome result (λ parts. IsTrue (is_coded parts.1)) }
    ensures escaped { MatchOption result (escaped_word bytes.now ≡ bytes.now)
        (λ parts. escaped_word bytes.now ≡ parts.0.now ++ (escaped_byte parts.1 ++ escaped_word parts.2.now)) }
    ensures shorter { IfSome result (λ parts. length parts.2.now < length bytes.now) }
{
    let at = coded_at(bytes)?;
    Some((&bytes[..at], bytes[at], &bytes[at + 1..]))
}

// appends the escaped bytes; if memory runs out, it may have appended a part of them
fn push_bytes(out: &mut Vec<u8>, bytes: &[u8]) -> Result<(), AllocError>
    ensures appends { OnOk result (out.new.items ≡ out.old.items ++ escaped_word bytes.now) }
    ensures keeps_the_front { take (length out.old.items) out.new.items ≡ out.old.items }
{
    let mut left = bytes;
    while let Some((plain, coded, rest)) = split_at_coded(left) {
        out.extend_from_slice(plain)?;
        push_coded(out, coded)?;
        left = rest;
    }
    out.extend_from_slice(left)
}

/// Appends the text as an escaped word: each byte up to the space, DEL and `%` becomes `%` and two upper-case hex
/// digits, and all other bytes stay. If memory runs out, `out` stays as it was.
pub fn push_word(out: &mut Vec<u8>, text: &str) -> Result<(), AllocError>
    ensures appends_the_word { OnOk result (out.new.items ≡ out.old.items ++ escaped_word text.now) }
    ensures unchanged_on_error { OnErr result (out.new.items ≡ out.old.items) }
{
    let front = out.len();
    let pushed = push_bytes(out, text.as_bytes());
    if pushed.is_err() {
        out.truncate(front);
    }
    pushed
}
