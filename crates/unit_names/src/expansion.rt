// Expands the specifiers of a value.
//
// `expand` takes the pieces of a value one by one; `specifier` gives the text of each specifier.
ghost use Rattle.std.specs.Prelude.{◌≡◌, ◌∷◌, IfOk, Some, None};
ghost use Rattle.std.specs.String.{string_bytes};
ghost use Rattle.std.specs.Option.{option_map};
ghost use Rattle.unit_names.specs.Specifiers.{percent, meaning, plain_meaning, behind_slashes, rooted, specifier_at, is_kept};
ghost use Rattle.unit_names.specs.Unescaping.{unescaped};
ghost use Rattle.unit_names.specs.Taking.{AddsMeaning, TakesPiece, GivesBytes, GivesText};
ghost use Rattle.unit_names.specs.Expansion.{expansion, short_bytes, if_text, letter_meaning, last_meaning};
ghost use Rattle.unit_names.specs.declared.expansion.ExpandError.TheVariants.{Specifier as NotExpanded, Memory};

use crate::name::UnitName;
use crate::specifier::{Specifier, is_kept};
use crate::unescape::push_unescaped;
use crate::version::Version;
use std::alloc::{AllocError, Global};
use thiserror::Error;

/// The most bytes of an expanded value: systemd's limit of a line.
const LONGEST_VALUE: usize = 1_048_576;

/// Why a value is not expanded.
#[derive(Clone, Copy, Debug, PartialEq, Eq, Error)]
pub enum ExpandError {
    /// A `%` makes no specifier, a text cannot be unescaped, or the result is not UTF-8 or has more
    /// than 1,048,576 bytes.
    #[error("a specifier that cannot be expanded")]
    Specifier,
    /// There is no memory left.
    #[error("out of memory")]
    Memory,
}

impl From<AllocError> for ExpandError {
    ghost from_gives = { λ _ e. e ≡ Memory };

    fn from(_: AllocError) -> Self {
        ExpandError::Memory
    }
}

// Returns the text without the slashes at its front.
fn behind_slashes(text: &[u8]) -> &[u8]
    ensures { result.now ≡ behind_slashes text.now }
{
    let mut rest = text;
    while let [b'/', more @ ..] = rest {
        rest = more;
    }
    rest
}

// Appends the path of an escaped text: a slash, and the unescaped text without the slashes at its front.
fn push_path(alloc: Global, bytes: &mut Vec<u8>, text: &[u8]) -> Result<(), ExpandError>
    ensures { AddsMeaning bytes.old.items (option_map rooted (unescaped text.now)) result bytes.new.items }
{
    let mut path = Vec::new(alloc);
    push_unescaped(&mut path, text)?;
    bytes.extend_from_slice(b"/")?;
    Ok(bytes.extend_from_slice(behind_slashes(path.as_slice()))?)
}

// Appends the text of a specifier to the bytes.
fn push_meaning(
    alloc: Global,
    bytes: &mut Vec<u8>,
    name: &UnitName,
    specifier: Specifier,
) -> Result<(), ExpandError>
    ensures { AddsMeaning bytes.old.items (meaning name.now specifier) result bytes.new.items }
{
    let text = specifier.text(name).as_bytes();
    if specifier.is_path() {
        push_path(alloc, bytes, text)
    } else if specifier.unescapes() {
        push_unescaped(bytes, text)
    } else {
        Ok(bytes.extend_from_slice(text)?)
    }
}

// Appends the text of a `%` and the character after it to the bytes.
fn push_letter(
    alloc: Global,
    bytes: &mut Vec<u8>,
    systemd: Option<Version>,
    name: &UnitName,
    letter: u8,
) -> Result<(), ExpandError>
    ensures { AddsMeaning bytes.old.items (letter_meaning systemd name.now letter) result bytes.new.items }
{
    match Specifier::with_letter(systemd, letter) {
        Some(specifier) => push_meaning(alloc, bytes, name, specifier),
        None if is_kept(systemd, letter) => Ok(bytes.extend_from_slice(&[b'%', letter])?),
        None => Err(ExpandError::Specifier),
    }
}

// Appends a `%` at the end of a value. It stays if the version of systemd is known, and is refused otherwise.
fn push_last_percent(bytes: &mut Vec<u8>, systemd: Option<Version>) -> Result<(), ExpandError>
    ensures { AddsMeaning bytes.old.items (last_meaning systemd) result bytes.new.items }
{
    if systemd.is_none() {
        return Err(ExpandError::Specifier);
    }
    Ok(bytes.extend_from_slice(b"%")?)
}

// Appends the text of a `%` and the character after it to the bytes, and returns the value after that character.
fn push_specifier<'a>(
    alloc: Global,
    bytes: &mut Vec<u8>,
    systemd: Option<Version>,
    name: &UnitName,
    behind: &'a [u8],
) -> Result<&'a [u8], ExpandError>
    ensures { TakesPiece systemd name.now (percent ∷ behind.now) bytes.old.items result bytes.new.items }
{
    match behind.split_first() {
        Some((letter, rest)) => {
            push_letter(alloc, bytes, systemd, name, *letter)?;
            Ok(rest)
        }
        None => {
            push_last_percent(bytes, systemd)?;
            Ok(behind)
        }
    }
}

// Appends the text of a piece to the bytes, and returns the value after the piece.
fn push_piece<'a>(
    alloc: Global,
    bytes: &mut Vec<u8>,
    systemd: Option<Version>,
    name: &UnitName,
    first: u8,
    behind: &'a [u8],
) -> Result<&'a [u8], ExpandError>
    ensures { TakesPiece systemd name.now (first ∷ behind.now) bytes.old.items result bytes.new.items }
{
    if first == b'%' {
        push_specifier(alloc, bytes, systemd, name, behind)
    } else {
        bytes.extend_from_slice(&[first])?;
        Ok(behind)
    }
}

// Returns the bytes of an expanded value, and gives up as soon as they are too many.
fn expanded_bytes(
    alloc: Global,
    systemd: Option<Version>,
    name: &UnitName,
    value: &[u8],
) -> Result<Vec<u8>, ExpandError>
    ensures { GivesBytes (short_bytes systemd name.now value.now) result }
{
    let mut bytes = Vec::new(alloc);
    let mut rest = value;
    while let Some((first, behind)) = rest.split_first() {
        rest = push_piece(alloc, &mut bytes, systemd, name, *first, behind)?;
        if bytes.len() > LONGEST_VALUE {
            return Err(ExpandError::Specifier);
        }
    }
    Ok(bytes)
}

// Returns the bytes as a text, if they are UTF-8.
fn text_of(bytes: Vec<u8>) -> Result<String, ExpandError>
    ensures { GivesText (if_text bytes.items) result }
{
    match String::from_utf8(bytes) {
        Ok(text) => Ok(text),
        Err(_) => Err(ExpandError::Specifier),
    }
}

// Returns the expanded value.
fn expanded(
    alloc: Global,
    systemd: Option<Version>,
    name: &UnitName,
    value: &str,
) -> Result<String, ExpandError>
    ensures { GivesText (expansion systemd name.now value.now) result }
{
    let bytes = expanded_bytes(alloc, systemd, name, value.as_bytes())?;
    text_of(bytes)
}

/// Expands the specifiers of a value as this systemd does. It returns `Specifier` exactly if the value cannot be expanded.
///
/// The specifiers are `%%`, `%n`, `%N`, `%p`, `%i`, `%j`, `%P`, `%I`, `%J`, `%t`, `%S`, `%C`, `%L`, `%E`, `%T`, `%V`,
/// `%u`, `%U` and `%h`, and with a version `%f`, `%g`, `%G` and `%s` too (systemd.unit(5), Specifiers). With a version, a
/// specifier whose text the running machine gives is refused, and any other `%` stays as it is written. Without one, a
/// `%` that makes no specifier is refused. An unescaped text is refused if a `\x` lacks its two digits. A result is
/// refused if it is not UTF-8 or has more than 1,048,576 bytes, the longest line that systemd reads.
pub fn expand(
    alloc: Global,
    systemd: Option<Version>,
    name: &UnitName,
    value: &str,
) -> Result<String, ExpandError>
    ensures expands_the_value { IfOk result (λ text. expansion systemd name.now value.now ≡ Some (string_bytes text)) }
    ensures refuses_the_value { result ≡ Err NotExpanded → expansion systemd name.now value.now ≡ None }
{
    expanded(alloc, systemd, name, value)
}
