//! Reads the payload of a call: what the pointers among its words point to.

ghost use Rattle.std.specs.Prelude.{◌≡◌, ◌==◌, IfOk, map, option_map};
ghost use Rattle.std.specs.List.{list_all, slice_split};
ghost use Rattle.kernel_model.specs.call_table.Numbers.{is_lower_hex, number_of};
ghost use Rattle.script_text.specs.Marks.{before, behind, between_brackets, between_commas};
ghost use Rattle.script_text.specs.Numbers.{all_read};
ghost use Rattle.script_text.specs.Payloads.{path_of, set_of, ids_of, is_code, code_of, path_flags, two_paths, three_sets, payload_of};
ghost use Rattle.script_text.specs.Progress.{ReadsAs, ReadsList, TakesPayload};
ghost use Rattle.script_text.specs.declared.error.ScriptCause.TheVariants.{Payload as PayloadCause};

use crate::error::ScriptCause;
use crate::escapes::read_text;
use crate::line_fault::LineFault;
use crate::names::read_number;
use crate::requests::take_request;
use abs_path::{AbsPath, PathError};
use hex::{FromHexError, decode};
use kernel_model::kernel_calls::{Bytes, IdList, Payload};
use kernel_model::{CapSet, PayloadForm, read_u64};
use std::alloc::{AllocError, Global};

/// The cause of a payload that is missing, or not of its form.
pub(crate) const NO_PAYLOAD: LineFault = LineFault::Faulty(ScriptCause::Payload);

/// Reads a path, as an escaped word.
#[tactic(auto, unfolding(crate::specs::Payloads::path_of))]
pub(crate) fn read_path(alloc: Global, word: &str) -> Result<AbsPath, LineFault>
    ensures { ReadsAs (path_of word.now) PayloadCause result }
{
    let text = read_text(alloc, word)?.ok_or(NO_PAYLOAD)?;
    match AbsPath::read(alloc, text.as_str()) {
        Ok(path) => Ok(path),
        Err(PathError::Memory) => Err(LineFault::NoMemory),
        Err(_) => Err(NO_PAYLOAD),
    }
}

// source and target of a mount
fn read_paths(alloc: Global, source: &str, target: &str) -> Result<Payload, LineFault>
    ensures { ReadsAs (two_paths source.now target.now) PayloadCause result }
{
    let source = read_path(alloc, source)?;
    let target = read_path(alloc, target)?;
    Ok(Payload::TwoPaths(source, target))
}

// a path, and the number of its flags
fn read_path_flags(alloc: Global, path: &str, flags: &str) -> Result<Payload, LineFault>
    ensures { ReadsAs (path_flags path.now flags.now) PayloadCause result }
{
    let path = read_path(alloc, path)?;
    let flags = read_payload_number(flags)?;
    Ok(Payload::PathFlags(path, flags))
}

// a set of capabilities, as the number of its bits
#[tactic(auto, unfolding(crate::specs::Payloads::set_of))]
fn read_set(word: &str) -> Result<CapSet, LineFault>
    ensures { ReadsAs (set_of word.now) PayloadCause result }
{
    let bits = read_u64(word).ok_or(NO_PAYLOAD)?;
    CapSet::from_bits(bits).ok_or(NO_PAYLOAD)
}

// permitted, effective and inheritable set
fn read_sets(permitted: &str, effective: &str, inheritable: &str) -> Result<Payload, LineFault>
    ensures { ReadsAs (three_sets permitted.now effective.now inheritable.now) PayloadCause result }
{
    let permitted = read_set(permitted)?;
    let effective = read_set(effective)?;
    let inheritable = read_set(inheritable)?;
    Ok(Payload::Sets(permitted, effective, inheritable))
}

// the text after `[`
fn behind_bracket(word: &str) -> Option<&str>
    ensures { option_map (λ text. text.now) result ≡ behind 91 word.now }
{
    word.strip_prefix('[')
}

// the text before `]`
fn before_bracket(word: &str) -> Option<&str>
    ensures { option_map (λ text. text.now) result ≡ before 93 word.now }
{
    word.strip_suffix(']')
}

// the text between brackets
fn between_brackets(word: &str) -> Option<&str>
    ensures { option_map (λ text. text.now) result ≡ between_brackets word.now }
{
    before_bracket(behind_bracket(word)?)
}

// the pieces of a text that is cut at each comma
fn pieces_of(alloc: Global, text: &str) -> Result<Vec<&str>, AllocError>
    ensures { IfOk result (λ pieces. map (λ piece. piece.now) pieces.items ≡ slice_split (λ byte. byte == 44) text.now) }
{
    text.split(',').collect(alloc)
}

// the text between commas
fn between_commas(alloc: Global, text: &str) -> Result<Vec<&str>, AllocError>
    ensures { IfOk result (λ pieces. map (λ piece. piece.now) pieces.items ≡ between_commas text.now) }
{
    if text.is_empty() {
        return Ok(Vec::new(alloc));
    }
    pieces_of(alloc, text)
}

// an id each
fn read_each(alloc: Global, pieces: &[&str]) -> Result<Vec<u32>, LineFault>
    ensures { ReadsList (all_read number_of (map (λ piece. piece.now) pieces.now)) PayloadCause result }
{
    let mut ids = Vec::new(alloc);
    for piece in pieces {
        let Some(id) = read_number(piece) else {
            return Err(NO_PAYLOAD);
        };
        ids.push(id)?;
    }
    Ok(ids)
}

// ids in brackets, with commas between them
#[tactic(auto, unfolding(crate::specs::Payloads::ids_of))]
fn read_ids(alloc: Global, word: &str) -> Result<IdList, LineFault>
    ensures { ReadsAs (ids_of word.now) PayloadCause result }
{
    let text = between_brackets(word).ok_or(NO_PAYLOAD)?;
    let pieces = between_commas(alloc, text)?;
    Ok(IdList::new(read_each(alloc, pieces.as_slice())?))
}

/// Reads a number that a call carries.
pub(crate) fn read_payload_number(word: &str) -> Result<u32, LineFault>
    ensures { ReadsAs (number_of word.now) PayloadCause result }
{
    read_number(word).ok_or(NO_PAYLOAD)
}

fn is_lower_hex(byte: u8) -> bool
    ensures { result ≡ is_lower_hex byte }
{
    byte.is_ascii_digit() || (byte >= b'a' && byte <= b'f')
}

fn are_lower_hex(word: &str) -> bool
    ensures { result ≡ list_all is_lower_hex word.now }
{
    word.as_bytes().iter().all(|byte| is_lower_hex(*byte))
}

fn is_code(word: &str) -> bool
    ensures { result ≡ is_code word.now }
{
    !word.is_empty() && (word.len() % 16 == 0 && are_lower_hex(word))
}

// the bytes of a program in hexadecimal; `-` has none
#[tactic(auto, unfolding(crate::specs::Payloads::code_of))]
fn read_code(alloc: Global, word: &str) -> Result<Bytes, LineFault>
    ensures { ReadsAs (code_of word.now) PayloadCause result }
{
    if word == "-" {
        return Ok(Bytes::new(Vec::new(alloc)));
    }
    if !is_code(word) {
        return Err(NO_PAYLOAD);
    }
    match decode(alloc, word) {
        Ok(bytes) => Ok(Bytes::new(bytes)),
        Err(FromHexError::OutOfMemory) => Err(LineFault::NoMemory),
        Err(_) => Err(NO_PAYLOAD),
    }
}

/// A payload, and the words of the line after it.
#[derive(Drop)]
pub(crate) struct TakenPayload<'w, 't> {
    pub payload: Payload,
    pub rest: &'w [&'t str],
}

/// Takes the payload of a form from the front of these words, and returns it with the words after it.
///
/// `Payload` is the cause if a word of it is missing or not of its form.
pub(crate) fn take_payload<'w, 't>(
    alloc: Global,
    form: PayloadForm,
    words: &'w [&'t str],
) -> Result<TakenPayload<'w, 't>, LineFault>
    ensures { TakesPayload (payload_of form (map (λ word. word.now) words.now)) result }
{
    match (form, words) {
        (PayloadForm::Nothing, rest) => Ok(TakenPayload {
            payload: Payload::Nothing,
            rest,
        }),
        (PayloadForm::OnePath, [path, rest @ ..]) => Ok(TakenPayload {
            payload: Payload::OnePath(read_path(alloc, path)?),
            rest,
        }),
        (PayloadForm::TwoPaths, [source, target, rest @ ..]) => Ok(TakenPayload {
            payload: read_paths(alloc, source, target)?,
            rest,
        }),
        (PayloadForm::PathFlags, [path, flags, rest @ ..]) => Ok(TakenPayload {
            payload: read_path_flags(alloc, path, flags)?,
            rest,
        }),
        (PayloadForm::Sets, [permitted, effective, inheritable, rest @ ..]) => Ok(TakenPayload {
            payload: read_sets(permitted, effective, inheritable)?,
            rest,
        }),
        (PayloadForm::Ids, [ids, rest @ ..]) => Ok(TakenPayload {
            payload: Payload::Ids(read_ids(alloc, ids)?),
            rest,
        }),
        (PayloadForm::Number, [number, rest @ ..]) => Ok(TakenPayload {
            payload: Payload::Number(read_payload_number(number)?),
            rest,
        }),
        (PayloadForm::Program, [code, rest @ ..]) => Ok(TakenPayload {
            payload: Payload::Code(read_code(alloc, code)?),
            rest,
        }),
        (PayloadForm::Request, [kind, rest @ ..]) => take_request(alloc, kind, rest),
        _ => Err(NO_PAYLOAD),
    }
}
