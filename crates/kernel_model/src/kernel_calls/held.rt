//! What every call in a program satisfies: each number is in the range of its type.

ghost use Rattle.std.specs.Prelude.{◌<◌, ◌^◌, All};
ghost use Rattle.kernel_model.specs.kernel_calls.Calls.{IsPath, FitsRequest, FitsPayload, IsCall};

use crate::kernel_calls::call::Call;
use crate::kernel_calls::payload::Payload;
use crate::kernel_calls::request::Request;
use abs_path::AbsPath;
use site_table::CapSet;

fn words_fit(args: &[u64; 6])
    ensures { All (λ arg. arg < 2 ^ 64) args.now }
{
    for word in args {
        let _word = *word;
    }
}

fn ids_fit(ids: &[u32])
    ensures { All (λ id. id < 2 ^ 32) ids.now }
{
    for id in ids {
        let _id = *id;
    }
}

fn bytes_fit(bytes: &[u8])
    ensures { All (λ byte. byte < 2 ^ 8) bytes.now }
{
    for byte in bytes {
        let _byte = *byte;
    }
}

fn path_fits(path: &AbsPath)
    ensures { IsPath path.now }
{
    let _text = path.text();
}

fn set_fits(set: CapSet)
    ensures { set < 2 ^ 41 }
{
    let _word = set.bits();
}

fn number_fits(number: u32)
    ensures { number < 2 ^ 32 }
{
    let _number = number;
}

fn request_fits(request: &Request)
    ensures { FitsRequest request.now }
{
    match request {
        Request::Stat(path) => path_fits(path),
        Request::Open(path, flags) => {
            path_fits(path);
            number_fits(*flags);
        }
        Request::Socket(number) | Request::Mode(number) => number_fits(*number),
    }
}

fn payload_fits(payload: &Payload)
    ensures { FitsPayload payload.now }
{
    match payload {
        Payload::Nothing => {}
        Payload::OnePath(path) => path_fits(path),
        Payload::TwoPaths(source, target) => {
            path_fits(source);
            path_fits(target);
        }
        Payload::PathFlags(path, flags) => {
            path_fits(path);
            number_fits(*flags);
        }
        Payload::Sets(permitted, effective, inheritable) => {
            set_fits(*permitted);
            set_fits(*effective);
            set_fits(*inheritable);
        }
        Payload::Ids(list) => ids_fit(list.list()),
        Payload::Number(number) => number_fits(*number),
        Payload::Code(code) => bytes_fit(code.list()),
        Payload::Ring(request) => request_fits(request),
    }
}

/// Shows that a program's value of a call is a call that a process can make. The function changes nothing.
pub fn fits(call: &Call)
    ensures within_registers { IsCall call.now }
{
    let _pid = call.pid;
    let _abi = call.abi;
    let _nr = call.nr;
    words_fit(&call.args);
    payload_fits(&call.payload);
}
