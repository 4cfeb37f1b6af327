//! Prints calls in the form of lines of a script.

ghost use Rattle.std.specs.Prelude.{◌≡◌, ◌++◌, ◌∷◌, OnOk, IfOk, codes, decimal};
ghost use Rattle.kernel_model.specs.abs_path.Paths.{text_of};
ghost use Rattle.kernel_model.specs.text_forms.Escaped.{escaped_word};
ghost use Rattle.script_text.specs.Numbers.{without_last_zeros};
ghost use Rattle.script_text.specs.Printed.{argument_words, call_text, code_word, each_behind, each_number, has_form, ids_word, front_words, numbered_words, payload_words, request_words, with_commas};
ghost use Rattle.script_text.specs.PrintedAgain.{IsReadAs};

use crate::held::is_held;
use crate::names::form_of_name;
use abs_path::AbsPath;
use hex::encode;
use kernel_model::kernel_calls::{Call, Payload, Request};
use kernel_model::{CallTable, PayloadForm, push_abi, push_u64, push_word};
use std::alloc::{AllocError, Global};

// whether the payload is of the form; a program is whole instructions, of eight bytes each
fn has_form(form: PayloadForm, payload: &Payload) -> bool
    ensures { result ≡ has_form form payload.now }
{
    match (form, payload) {
        (PayloadForm::Nothing, Payload::Nothing)
        | (PayloadForm::OnePath, Payload::OnePath(_))
        | (PayloadForm::TwoPaths, Payload::TwoPaths(_, _))
        | (PayloadForm::PathFlags, Payload::PathFlags(_, _))
        | (PayloadForm::Sets, Payload::Sets(_, _, _))
        | (PayloadForm::Ids, Payload::Ids(_))
        | (PayloadForm::Number, Payload::Number(_))
        | (PayloadForm::Request, Payload::Ring(_)) => true,
        (PayloadForm::Program, Payload::Code(code)) => code.list().len() % 8 == 0,
        _ => false,
    }
}

fn push_space(out: &mut Vec<u8>) -> Result<(), AllocError>
    ensures { OnOk result (out.new.items ≡ out.old.items ++ codes " ") }
{
    out.extend_from_slice(b" ")
}

// a space and a number
fn push_number(out: &mut Vec<u8>, number: u64) -> Result<(), AllocError>
    ensures { OnOk result (out.new.items ≡ out.old.items ++ (codes " " ++ decimal number)) }
{
    push_space(out)?;
    push_u64(out, number)
}

// a space and a path
fn push_path(out: &mut Vec<u8>, path: &AbsPath) -> Result<(), AllocError>
    ensures { OnOk result (out.new.items ≡ out.old.items ++ (codes " " ++ escaped_word (text_of path.now))) }
{
    push_space(out)?;
    push_word(out, path.text())
}

// the ids, each after a comma
fn push_others(out: &mut Vec<u8>, ids: &[u32]) -> Result<(), AllocError>
    ensures { OnOk result (out.new.items ≡ out.old.items ++ each_number (codes ",") ids.now) }
{
    for id in ids {
        out.extend_from_slice(b",")?;
        push_u64(out, u64::from(*id))?;
    }
    Ok(())
}

// the ids with commas between them
fn push_ids(out: &mut Vec<u8>, ids: &[u32]) -> Result<(), AllocError>
    ensures { OnOk result (out.new.items ≡ out.old.items ++ with_commas ids.now) }
{
    let Some((first, others)) = ids.split_first() else {
        return Ok(());
    };
    push_u64(out, u64::from(*first))?;
    push_others(out, others)
}

// a space and ids in brackets
fn push_list(out: &mut Vec<u8>, ids: &[u32]) -> Result<(), AllocError>
    ensures { OnOk result (out.new.items ≡ out.old.items ++ (codes " " ++ ids_word ids.now)) }
{
    out.extend_from_slice(b" [")?;
    push_ids(out, ids)?;
    out.extend_from_slice(b"]")
}

// a space and the bytes of a program in hexadecimal
fn push_code(alloc: Global, out: &mut Vec<u8>, bytes: &[u8]) -> Result<(), AllocError>
    ensures { OnOk result (out.new.items ≡ out.old.items ++ (codes " " ++ code_word bytes.now)) }
{
    push_space(out)?;
    if bytes.is_empty() {
        return out.extend_from_slice(b"-");
    }
    out.extend_from_slice(encode(alloc, bytes)?.as_bytes())
}

// the words of a request to a ring, each after a space
fn push_request(out: &mut Vec<u8>, request: &Request) -> Result<(), AllocError>
    ensures { OnOk result (out.new.items ≡ out.old.items ++ each_behind (codes " ") (request_words request.now)) }
{
    match request {
        Request::Stat(path) => {
            out.extend_from_slice(b" stat")?;
            push_path(out, path)
        }
        Request::Open(path, flags) => {
            out.extend_from_slice(b" open")?;
            push_path(out, path)?;
            push_number(out, u64::from(*flags))
        }
        Request::Socket(family) => {
            out.extend_from_slice(b" socket")?;
            push_number(out, u64::from(*family))
        }
        Request::Mode(mode) => {
            out.extend_from_slice(b" mode")?;
            push_number(out, u64::from(*mode))
        }
    }
}

// the words of a payload, each after a space
fn push_payload(alloc: Global, out: &mut Vec<u8>, payload: &Payload) -> Result<(), AllocError>
    ensures { OnOk result (out.new.items ≡ out.old.items ++ each_behind (codes " ") (payload_words payload.now)) }
{
    match payload {
        Payload::Nothing => Ok(()),
        Payload::OnePath(path) => push_path(out, path),
        Payload::TwoPaths(source, target) => {
            push_path(out, source)?;
            push_path(out, target)
        }
        Payload::PathFlags(path, flags) => {
            push_path(out, path)?;
            push_number(out, u64::from(*flags))
        }
        Payload::Sets(permitted, effective, inheritable) => {
            push_number(out, permitted.bits())?;
            push_number(out, effective.bits())?;
            push_number(out, inheritable.bits())
        }
        Payload::Ids(ids) => push_list(out, ids.list()),
        Payload::Number(number) => push_number(out, u64::from(*number)),
        Payload::Code(code) => push_code(alloc, out, code.list()),
        Payload::Ring(request) => push_request(out, request),
    }
}

// a space and the call by its number
fn push_numbered(out: &mut Vec<u8>, call: &Call, calls: &CallTable) -> Result<(), AllocError>
    ensures { OnOk result (out.new.items ≡ out.old.items ++ each_behind (codes " ") (numbered_words calls.now call.now)) }
{
    push_space(out)?;
    push_abi(out, calls, call.abi)?;
    out.extend_from_slice(b"#")?;
    push_u64(out, u64::from(call.nr))
}

// the call by its name with its payload, where its ABI has it and the payload is of its form; else by its number
fn push_named(
    alloc: Global,
    out: &mut Vec<u8>,
    call: &Call,
    calls: &CallTable,
) -> Result<(), AllocError>
    ensures { OnOk result (out.new.items ≡ out.old.items ++ each_behind (codes " ") (front_words calls.now call.now)) }
{
    let Some(line) = calls.call_numbered(call.abi, call.nr) else {
        return push_numbered(out, call, calls);
    };
    let name = line.name.as_str();
    if !has_form(form_of_name(line.kernel, name), &call.payload) {
        return push_numbered(out, call, calls);
    }
    push_space(out)?;
    push_abi(out, calls, call.abi)?;
    out.extend_from_slice(name.as_bytes())?;
    push_payload(alloc, out, &call.payload)
}

// the words but for the zeros at their end
fn without_last_zeros(args: &[u64]) -> &[u64]
    ensures { result.now ≡ without_last_zeros args.now }
{
    let mut left = args;
    while let Some((last, front)) = left.split_last() {
        if *last != 0 {
            return left;
        }
        left = front;
    }
    left
}

// numbers, each after a space
fn push_numbers(out: &mut Vec<u8>, numbers: &[u64]) -> Result<(), AllocError>
    ensures { OnOk result (out.new.items ≡ out.old.items ++ each_number (codes " ") numbers.now) }
{
    for number in numbers {
        push_number(out, *number)?;
    }
    Ok(())
}

/// Appends the text of a call, as a line of a script has it: `PID NAME [PAYLOAD] [WORD ..]`, without a line feed.
///
/// The call is printed by its name if its ABI has its number and its payload has the form of that name (a program is whole
/// instructions of eight bytes). Otherwise it is printed by `#` and its number, without its payload. If the ABI is not the
/// native one, its name and a colon precede the call. Numbers are decimal, and words that are zero are dropped at the end.
pub fn push_call(
    alloc: Global,
    out: &mut Vec<u8>,
    call: &Call,
    calls: &CallTable,
) -> Result<(), AllocError>
    ensures tells_the_call { OnOk result (out.new.items ≡ out.old.items ++ call_text calls.now call.now) }
{
    push_u64(out, u64::from(call.pid))?;
    push_named(alloc, out, call, calls)?;
    push_numbers(out, without_last_zeros(&call.args))
}

/// Returns the text of a call, as `push_call` appends it.
///
/// The text has one reading as a line, the call itself, under these conditions. The table was read and has the call's
/// ABI. The call has a process from 1 on, and carries nothing or what its name carries.
pub fn print_call(alloc: Global, call: &Call, calls: &CallTable) -> Result<Vec<u8>, AllocError>
    ensures text { IfOk result (λ text. text.items ≡ call_text calls.now call.now) }
    ensures reads_back { IfOk result (λ text. IsReadAs calls.now call.now text.items) }
{
    // These calls say what holds of each call and of each table.
    is_held(call);
    let _abis = calls.abis();
    let _calls = calls.calls_in(call.abi);
    let mut text = Vec::new(alloc);
    push_call(alloc, &mut text, call, calls)?;
    Ok(text)
}
