//! Finds the call that a line names.

ghost use Rattle.std.specs.Prelude.{◌≡◌, option_map};
ghost use Rattle.kernel_model.specs.call_table.Numbers.{number_of};
ghost use Rattle.script_text.specs.Reading.{form_of_name, named_in, named_call};
ghost use Rattle.script_text.specs.Marks.{behind_hash};
ghost use Rattle.script_text.specs.Views.{view_named};

use kernel_model::{
    CallTable, Kernel, KnownCall, PayloadForm, form_of, known_call, read_decimal, spelled,
};

/// A call, and what it carries beside its words.
#[derive(Clone, Copy)]
pub(crate) struct NamedCall {
    /// The ABI by which it is called.
    pub abi: u8,
    /// The number of the call.
    pub nr: u32,
    /// What it carries.
    pub form: PayloadForm,
}

/// Returns the form of the payload that calls of this name carry, in a kernel.
pub(crate) fn form_of_name(kernel: Kernel, name: &str) -> PayloadForm
    ensures { result ≡ form_of_name kernel name.now }
{
    match known_call(kernel, name) {
        Some(KnownCall::Modelled(rule)) => form_of(rule),
        Some(KnownCall::Absent) | None => PayloadForm::Nothing,
    }
}

fn behind_hash(word: &str) -> Option<&str>
    ensures { option_map (λ digits. digits.now) result ≡ behind_hash word.now }
{
    word.strip_prefix('#')
}

/// The number of a decimal text, below 2^32.
pub(crate) fn read_number(digits: &str) -> Option<u32>
    ensures { result ≡ number_of digits.now }
{
    u32::try_from(read_decimal(digits)?).ok()
}

// the call of an ABI with this name; or, after `#`, the call with this decimal number, without a payload
fn call_in(calls: &CallTable, abi: u8, word: &str) -> Option<NamedCall>
    ensures { option_map view_named result ≡ named_in calls.now abi word.now }
{
    match behind_hash(word) {
        Some(digits) => Some(NamedCall {
            abi,
            nr: read_number(digits)?,
            form: PayloadForm::Nothing,
        }),
        None => {
            let line = calls.call_named(abi, word)?;
            Some(NamedCall {
                abi,
                nr: line.number,
                form: form_of_name(line.kernel, word),
            })
        }
    }
}

/// Returns the call that a word names, of the native ABI or of the ABI before the word's last colon. A name is a call
/// of the table; `#` and a decimal number is any call, without a payload.
#[tactic(auto, unfolding(crate::specs::Reading::named_call))]
pub(crate) fn find_call(calls: &CallTable, word: &str) -> Option<NamedCall>
    ensures { option_map view_named result ≡ named_call calls.now word.now }
{
    let (abi, word) = spelled(calls, word)?;
    call_in(calls, abi, word)
}
