//! States that every call in a program has numbers in the ranges of their types, and paths that are texts.

ghost use Rattle.std.specs.Prelude.{◌<◌};
ghost use Rattle.std.specs.List.{All};
ghost use Rattle.kernel_model.specs.abs_path.Paths.{text_of};
ghost use Rattle.script_text.specs.PrintedAgain.{HasTexts, IsHeld, IsText, RequestHasText};

use abs_path::AbsPath;
use kernel_model::kernel_calls::{Call, Payload, Request, fits};

fn bytes_fit(bytes: &[u8])
    ensures { All (λ byte. byte < 256) bytes.now }
{
    for byte in bytes {
        let _byte = *byte;
    }
}

fn is_text(text: &str)
    ensures { IsText text.now }
{
    bytes_fit(text.as_bytes());
}

fn path_is_text(path: &AbsPath)
    ensures { IsText (text_of path.now) }
{
    is_text(path.text());
}

fn request_is_text(request: &Request)
    ensures { RequestHasText request.now }
{
    match request {
        Request::Stat(path) | Request::Open(path, _) => path_is_text(path),
        Request::Socket(_) | Request::Mode(_) => {}
    }
}

fn payload_is_text(payload: &Payload)
    ensures { HasTexts payload.now }
{
    match payload {
        Payload::OnePath(path) | Payload::PathFlags(path, _) => path_is_text(path),
        Payload::TwoPaths(source, target) => {
            path_is_text(source);
            path_is_text(target);
        }
        Payload::Ring(request) => request_is_text(request),
        Payload::Nothing
        | Payload::Sets(_, _, _)
        | Payload::Ids(_)
        | Payload::Number(_)
        | Payload::Code(_) => {}
    }
}

/// States that the numbers of a call are in the ranges of their types and that its paths are texts. The function reads the call
/// and changes nothing.
pub(crate) fn is_held(call: &Call)
    ensures { IsHeld call.now }
{
    fits(call);
    payload_is_text(&call.payload);
}
