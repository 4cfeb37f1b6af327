//! Laws of rules and of what calls ask for. Each is the contract of a function that does nothing.

ghost use Rattle.std.specs.Prelude.{◌≡◌, ◌↔◌, ◌<◌, ℕ, false, List, Option, Some, None, IsSome, slice_get};
ghost use Rattle.call_table.specs.call_names.Known.{known_call, is_known};
ghost use Rattle.call_table.specs.declared.call_names.known.KnownCall.TheVariants.{Absent};
ghost use Rattle.call_table.specs.declared.listed.CallLine.{CallLine};
ghost use Rattle.call_table.specs.Lookups.{AreOnce};
ghost use Rattle.call_table.specs.Table.{Table, calls_in};
ghost use Rattle.kernel_model.specs.declared.kernel_calls.call.Call.{Call};
ghost use Rattle.kernel_model.specs.declared.kernel_calls.payload.Payload.{Payload};
ghost use Rattle.kernel_model.specs.declared.kernel_calls.rule.Rule.{Rule};
ghost use Rattle.kernel_model.specs.declared.kernel_calls.rule.Rule.TheVariants.{Plain};
ghost use Rattle.kernel_model.specs.kernel_calls.Calls.{form_of_payload};
ghost use Rattle.kernel_model.specs.kernel_calls.Operation.{operation_by, asked_of, Lacking, Misformed};
ghost use Rattle.kernel_model.specs.kernel_calls.Rules.{rule_of, rule_at, form_of_rule};
ghost use Rattle.kernel_model.specs.kernel_calls.Words.{low_word};

/// Each call of a table has exactly one rule, which its line gives. The kernel lacks a call if and only if `known_call` lists
/// its name as absent. A call is plain if and only if its name is unknown; it then needs the capability of its line.
pub fn each_call_has_one_rule()
    ensures by_its_line { (calls : List CallLine) (at : ℕ) (line : CallLine)
        → AreOnce calls → slice_get calls at ≡ Some line → rule_at calls line.number ≡ rule_of line }
    ensures absent { (line : CallLine) → ((rule_of line ≡ None) ↔ (known_call line.kernel line.name ≡ Some Absent)) }
    ensures plain { (line : CallLine) (cap : Option ℕ)
        → ((rule_of line ≡ Some (Plain cap)) ↔ ((is_known line.kernel line.name ≡ false) × (line.cap ≡ cap))) }
    ensures absent_calls_are_lacking { (table : Table) (call : Call) (at : ℕ) (line : CallLine)
        → AreOnce (calls_in table call.abi) → slice_get (calls_in table call.abi) at ≡ Some line → call.nr ≡ line.number
        → ((asked_of table call ≡ Lacking) ↔ (known_call line.kernel line.name ≡ Some Absent)) }
{}

/// If the kernel has a call, the call asks for something if and only if its payload has the rule's form.
pub fn form_decides()
    ensures of_the_rule { (rule : Rule) (args : List ℕ) (payload : Payload)
        → ((form_of_payload payload ≡ form_of_rule rule) ↔ IsSome (operation_by rule args payload)) }
    ensures lacking { (table : Table) (call : Call)
        → ((asked_of table call ≡ Lacking) ↔ (rule_at (calls_in table call.abi) call.nr ≡ None)) }
    ensures misformed { (table : Table) (call : Call) (rule : Rule) → rule_at (calls_in table call.abi) call.nr ≡ Some rule
        → ((asked_of table call ≡ Misformed) ↔ (¬ (form_of_payload call.payload ≡ form_of_rule rule))) }
{}

/// Only the low halves of a call's words matter, syscall(2).
pub fn low_halves_decide()
    ensures same { (rule : Rule) (args other : List ℕ) (payload : Payload)
        → ((at : ℕ) → at < 6 → low_word args at ≡ low_word other at)
        → operation_by rule args payload ≡ operation_by rule other payload }
{}
