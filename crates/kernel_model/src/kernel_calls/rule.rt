//! The rule that the kernel follows for a call of a table.

ghost use Rattle.std.specs.Prelude.{◌≡◌};
ghost use Rattle.kernel_model.specs.kernel_calls.Rules.{rule_by, rule_of};

use call_table::CallLine;
use call_table::call_names::{CallRule, KnownCall, known_call};

/// The rule of a call that the kernel has.
#[derive(Clone, Copy)]
pub enum Rule {
    /// The call has a rule of its own.
    Known(CallRule),
    /// The call needs the capability of its line, if there is one, and changes nothing.
    Plain(Option<u8>),
}

fn rule_by(known: Option<KnownCall>, cap: Option<u8>) -> Option<Rule>
    ensures { result ≡ rule_by known cap }
{
    match known {
        None => Some(Rule::Plain(cap)),
        Some(KnownCall::Absent) => None,
        Some(KnownCall::Modelled(rule)) => Some(Rule::Known(rule)),
    }
}

/// Returns the rule of a line of a table, which its kernel gives to its name; None if the kernel lacks the call.
#[tactic(auto, unfolding(crate::specs::kernel_calls::Rules::rule_of))]
pub fn rule_of(line: &CallLine) -> Option<Rule>
    ensures by_its_name { result ≡ rule_of line.now }
{
    rule_by(known_call(line.kernel, line.name.as_str()), line.cap)
}
