//! Reads the requests to a ring that io_uring_enter(2) carries, by the word of their kind.

ghost use Rattle.std.specs.Prelude.{map};
ghost use Rattle.script_text.specs.Payloads.{mode_taken, open_request, open_taken, request_taken, socket_taken, stat_taken};
ghost use Rattle.script_text.specs.Progress.{ReadsAs, TakesPayload};
ghost use Rattle.script_text.specs.declared.error.ScriptCause.TheVariants.{Payload as PayloadCause};

use crate::line_fault::LineFault;
use crate::payloads::{NO_PAYLOAD, TakenPayload, read_path, read_payload_number};
use kernel_model::kernel_calls::{Payload, Request};
use std::alloc::Global;

// a path to look up
fn take_stat<'w, 't>(alloc: Global, words: &'w [&'t str]) -> Result<TakenPayload<'w, 't>, LineFault>
    ensures { TakesPayload (stat_taken (map (λ word. word.now) words.now)) result }
{
    match words {
        [path, rest @ ..] => Ok(TakenPayload {
            payload: Payload::Ring(Request::Stat(read_path(alloc, path)?)),
            rest,
        }),
        _ => Err(NO_PAYLOAD),
    }
}

// a path to open, and the number of its flags
fn read_open(alloc: Global, path: &str, flags: &str) -> Result<Payload, LineFault>
    ensures { ReadsAs (open_request path.now flags.now) PayloadCause result }
{
    let path = read_path(alloc, path)?;
    let flags = read_payload_number(flags)?;
    Ok(Payload::Ring(Request::Open(path, flags)))
}

// the same at the front of words
fn take_open<'w, 't>(alloc: Global, words: &'w [&'t str]) -> Result<TakenPayload<'w, 't>, LineFault>
    ensures { TakesPayload (open_taken (map (λ word. word.now) words.now)) result }
{
    match words {
        [path, flags, rest @ ..] => Ok(TakenPayload {
            payload: read_open(alloc, path, flags)?,
            rest,
        }),
        _ => Err(NO_PAYLOAD),
    }
}

// the family of a socket
fn take_socket<'w, 't>(words: &'w [&'t str]) -> Result<TakenPayload<'w, 't>, LineFault>
    ensures { TakesPayload (socket_taken (map (λ word. word.now) words.now)) result }
{
    match words {
        [family, rest @ ..] => Ok(TakenPayload {
            payload: Payload::Ring(Request::Socket(read_payload_number(family)?)),
            rest,
        }),
        _ => Err(NO_PAYLOAD),
    }
}

// a mode that is given
fn take_mode<'w, 't>(words: &'w [&'t str]) -> Result<TakenPayload<'w, 't>, LineFault>
    ensures { TakesPayload (mode_taken (map (λ word. word.now) words.now)) result }
{
    match words {
        [mode, rest @ ..] => Ok(TakenPayload {
            payload: Payload::Ring(Request::Mode(read_payload_number(mode)?)),
            rest,
        }),
        _ => Err(NO_PAYLOAD),
    }
}

/// Takes a request to a ring from the words after the word of its kind, and returns it with the words after it.
pub(crate) fn take_request<'w, 't>(
    alloc: Global,
    kind: &str,
    words: &'w [&'t str],
) -> Result<TakenPayload<'w, 't>, LineFault>
    ensures { TakesPayload (request_taken kind.now (map (λ word. word.now) words.now)) result }
{
    if kind == "stat" {
        return take_stat(alloc, words);
    }
    if kind == "open" {
        return take_open(alloc, words);
    }
    if kind == "socket" {
        return take_socket(words);
    }
    if kind == "mode" {
        return take_mode(words);
    }
    Err(NO_PAYLOAD)
}
