//! Rule sets, as types that keep what a rule set must be: numbers ascend, and a test looks at an argument
//! that a call has.
ghost use Rattle.std.specs.Prelude.{◌≡◌, ◌≤◌, ◌↔◌, map, IsTrue};
ghost use Rattle.std.specs.List.Sorted.{IsStrictlyIncreasing};

use crate::actions::Action;
use std::marker::Model;
use text_forms::item_list::{Held, HeldList, ItemList};

/// A test of an argument: the low 32 bits of argument `arg`, from 0 to 5, and `mask` are `value`.
#[derive(Clone, Copy)]
pub struct Test {
    pub arg: u8,
    pub mask: u32,
    pub value: u32,
}

impl Model for Test {
    ghost use Rattle.std.specs.Prelude.{◌≤◌};
    ghost use Rattle.call_rules.specs.Tested.{Tested};

    ghost Value = { Tested };

    ghost view = { λ t. record { arg = t.arg; mask = t.mask; value = t.value } };

    ghost invariant = { λ t. t.arg ≤ 5 };

    ghost inverse = { λ v. record { arg = v.arg; mask = v.mask; value = v.value } };
}

impl Test {
    /// The test of argument `arg`, which a call has.
    pub fn new(arg: u8, mask: u32, value: u32) -> Self
        requires { arg ≤ 5 }
        ensures as_given { result ≡ record { arg = arg; mask = mask; value = value } }
    {
        Test { arg, mask, value }
    }
}

/// The tests of a case. A call must pass all of them.
pub type Tests = ItemList<Test>;

/// An action for the calls that pass all tests.
#[derive(Drop)]
pub struct Case {
    pub tests: Tests,
    pub action: Action,
}

/// The cases of a call. The first one that passes decides.
pub type Cases = ItemList<Case>;

/// What is done where argument `arg`, from 0 to 5, is wide: its high 32 bits are not 0. Tests do not look at these.
#[derive(Clone, Copy)]
pub struct Wide {
    pub arg: u8,
    pub action: Action,
}

impl Model for Wide {
    ghost use Rattle.std.specs.Prelude.{◌≤◌};
    ghost use Rattle.call_rules.specs.Widened.{Widened};

    ghost Value = { Widened };

    ghost view = { λ w. record { arg = w.arg; action = w.action } };

    ghost invariant = { λ w. w.arg ≤ 5 };

    ghost inverse = { λ v. record { arg = v.arg; action = v.action } };
}

impl Wide {
    /// The action where argument `arg`, which a call has, is wide.
    pub fn new(arg: u8, action: Action) -> Self
        requires { arg ≤ 5 }
        ensures as_given { result ≡ record { arg = arg; action = action } }
    {
        Wide { arg, action }
    }
}

/// The rule of one call number: the action for a wide argument, if it has one, its cases, and the action if no case
/// passes.
#[derive(Drop)]
pub struct CallRule {
    pub number: u32,
    pub wide: Option<Wide>,
    pub cases: Cases,
    pub rest: Action,
}

impl Held for CallRule {
    ghost use Rattle.std.specs.Prelude.{map};
    ghost use Rattle.std.specs.List.Sorted.{IsStrictlyIncreasing};

    ghost AreHeld = { λ calls. IsStrictlyIncreasing (map (λ call. call.number) calls) };
}

/// The rules of some calls, whose numbers ascend strictly, as `are_ascending` tests.
pub type CallRules = HeldList<CallRule>;

/// Returns whether the numbers of these rules ascend strictly.
pub fn are_ascending(calls: &[CallRule]) -> bool
    ensures strictly { IsTrue result ↔ IsStrictlyIncreasing (map (λ call. call.number) calls.now) }
{
    for at in 1..calls.len() {
        if calls[at - 1].number >= calls[at].number {
            return false;
        }
    }
    true
}

/// The rules of a filter: its architecture (an AUDIT_ARCH number), the rules of some calls, the action on
/// every other number, and the action for every other architecture.
#[derive(Drop)]
pub struct RuleSet {
    pub arch: u32,
    pub calls: CallRules,
    pub rest: Action,
    pub other: Action,
}
