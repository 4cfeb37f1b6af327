//! What a call asks for, in a kernel with a table of calls.

ghost use Rattle.std.specs.Prelude.{◌≡◌};
ghost use Rattle.kernel_model.specs.kernel_calls.Operation.{asked_of};
ghost use Rattle.kernel_model.specs.kernel_calls.Rules.{rules_of};
ghost use Rattle.kernel_model.specs.kernel_calls.Seen.{asked_seen};

use crate::kernel_calls::call::Call;
use crate::kernel_calls::operation::{Operation, operation_of};
use crate::kernel_calls::rules::Rules;
use call_table::CallTable;

/// What a call asks for.
#[derive(Clone, Copy)]
pub enum Asked<'a> {
    /// The kernel lacks the call, and returns ENOSYS.
    Lacking,
    /// The payload does not have the call's form. The kernel returns EFAULT.
    Misformed,
    /// The call asks for this.
    Does(Operation<'a>),
}

impl Rules {
    /// Returns what a call asks for. `calls` must be the table of these rules. Takes no memory.
    pub fn asked<'a>(&self, calls: &CallTable, call: &'a Call) -> Asked<'a>
        requires { self.now ≡ rules_of calls.now }
        ensures by_number_words_and_payload { asked_seen result ≡ asked_of calls.now call.now }
    {
        match self.rule(calls, call.abi, call.nr) {
            None => Asked::Lacking,
            Some(rule) => match operation_of(rule, call) {
                None => Asked::Misformed,
                Some(operation) => Asked::Does(operation),
            },
        }
    }
}
