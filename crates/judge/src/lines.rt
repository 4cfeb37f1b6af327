//! Tests which calls of the table can be made, sockets of which families, and namespaces of which types.

ghost use Rattle.std.specs.Prelude.{◌≡◌, ◌&&◌, slice_get, Some};
ghost use Rattle.std.specs.List.{list_any};
ghost use Rattle.std.specs.Str.{bytes_eq};
ghost use Rattle.ceilings.specs.call_table.Table.{every_call};
ghost use Rattle.ceilings.specs.kernel_model.kernel_calls.Rules.{rule_of};
ghost use Rattle.ceilings.specs.kernel_laws.Bound.{can_have_cap, can_have_for, ceiling, open_at, power_of};
ghost use Rattle.ceilings.specs.kernel_laws.declared.question_types.kind.CallKind.TheVariants.{PlainCall};
ghost use Rattle.ceilings.specs.kernel_laws.declared.question_types.question.Question.TheVariants.{Call, Namespace as Ns, Realtime, Socket};
ghost use Rattle.ceilings.specs.kernel_laws.Launched.{Launch, can_make_user, launch_of, lets, lets_line};
ghost use Rattle.ceilings.specs.Own.{IsCeilingOf};

use ceilings::{
    CAP_SYS_ADMIN, CAP_SYS_NICE, CallLine, Ceiling, can_make_user, is_known, plain_line_at,
};
use questions::{CallKind, NamespaceType, World};

// Returns whether the capability, if one is asked for, can become effective.
fn can_have_cap(top: &Ceiling, cap: Option<u8>) -> bool
    ensures { (launch : Launch) → IsCeilingOf launch top.now → result ≡ can_have_cap (ceiling launch) cap }
{
    match cap {
        None => true,
        Some(cap) => top.effective.contains(cap),
    }
}

// Returns whether the capability of a plain call can become effective.
fn can_have_for(top: &Ceiling, line: &CallLine) -> bool
    ensures { (launch : Launch) → IsCeilingOf launch top.now → result ≡ can_have_for (ceiling launch) (rule_of line.now) }
{
    is_known(line.kernel, line.name.as_str()) || can_have_cap(top, line.cap)
}

// Returns whether a plain call passes that has the name of this line, which is at this position.
#[tactic(auto, using(ceilings::proofs::AllCalls::any_is_found, ceilings::proofs::AllCalls::lent_is))]
fn is_called(world: &World<'_>, at: usize, line: &CallLine) -> bool
    requires { slice_get (every_call (launch_of world.now).calls) at ≡ Some line.now }
    ensures { let launch = launch_of world.now in
        result ≡ list_any (λ other. bytes_eq line.now.name other.name && lets_line launch PlainCall other) (every_call launch.calls) }
{
    plain_line_at(world, at, line).is_some()
}

// Returns whether some call passes that asks for the kind, by the rules that the ceiling keeps.
pub(crate) fn passes(world: &World<'_>, top: &Ceiling, kind: CallKind) -> bool
    requires { IsCeilingOf (launch_of world.now) top.now }
    ensures { result ≡ lets (launch_of world.now) kind }
{
    top.rules.let_through(world, kind)
}

// Returns whether a user namespace can be made.
pub(crate) fn makes_user(world: &World<'_>, top: &Ceiling) -> bool
    requires { IsCeilingOf (launch_of world.now) top.now }
    ensures { result ≡ can_make_user (launch_of world.now) }
{
    can_make_user(world, &top.rules)
}

// Returns whether the call of this number in the table is plain, passes by some ABI, and has its capability.
pub(crate) fn is_call_open(world: &World<'_>, top: &Ceiling, at: usize) -> bool
    requires { IsCeilingOf (launch_of world.now) top.now }
    ensures { let launch = launch_of world.now in result ≡ open_at launch (power_of launch) (ceiling launch) (Call at) }
{
    match world.call_table().call_at(at) {
        None => false,
        Some(line) => is_called(world, at, line) && can_have_for(top, line),
    }
}

// Returns whether a socket of the family of this number in the table can be made, by socket(2), socketcall(2) or socketpair(2),
// or by a request to a ring.
pub(crate) fn is_socket_open(world: &World<'_>, top: &Ceiling, at: usize) -> bool
    requires { IsCeilingOf (launch_of world.now) top.now }
    ensures { let launch = launch_of world.now in result ≡ open_at launch (power_of launch) (ceiling launch) (Socket at) }
{
    match world.call_table().families().get(at) {
        None => false,
        Some(line) => {
            (passes(world, top, CallKind::ForFamily(line.number)) || top.paths.submit)
                && can_have_cap(top, line.cap)
        }
    }
}

// Returns whether a realtime policy can be taken: sched_setscheduler(2) passes, or sched_setattr(2) with its capability.
pub(crate) fn is_realtime_open(world: &World<'_>, top: &Ceiling) -> bool
    requires { IsCeilingOf (launch_of world.now) top.now }
    ensures { let launch = launch_of world.now in result ≡ open_at launch (power_of launch) (ceiling launch) Realtime }
{
    passes(world, top, CallKind::SchedulesRealtime)
        || (passes(world, top, CallKind::SetsRealtime) && can_have_cap(top, Some(CAP_SYS_NICE)))
}

// Returns whether a namespace of the type can be made, clone(2), unshare(2). One of users is made by itself, and
// every other one also in it.
pub(crate) fn is_namespace_open(world: &World<'_>, top: &Ceiling, kind: NamespaceType) -> bool
    requires { IsCeilingOf (launch_of world.now) top.now }
    ensures { let launch = launch_of world.now in
        result ≡ open_at launch (power_of launch) (ceiling launch) (Ns kind) }
{
    match kind {
        NamespaceType::User => makes_user(world, top),
        kind => {
            passes(world, top, CallKind::ForNamespace(kind))
                && (top.effective.contains(CAP_SYS_ADMIN) || makes_user(world, top))
        }
    }
}
