//! Says what a filter does to one call: an action if some test holds, and another action for the rest.
ghost use Rattle.std.specs.Prelude.{◌≡◌, ◌≤◌, None, map, IfOk};
ghost use Rattle.filter_settings.specs.filter_rules.Choices.{bits, whole, always, refused_where, wide_as, by_value, allowed_values, case_with, rule_with};

use call_rules::{Action, CallRule, Case, Cases, Test, Tests, Wide};
use dropin_merge::Version;
use dropin_merge::linux_numbers::errnos::{ENOSYS, EPERM};
use std::alloc::{AllocError, Global};

/// The call is not permitted (errno(3)).
pub const NOT_PERMITTED: Action = Action::Errno(EPERM as u16);

/// The call is answered as one that the kernel lacks (errno(3)).
pub const NOT_THERE: Action = Action::Errno(ENOSYS as u16);

/// One action if some test holds, and another for the rest.
#[derive(Drop)]
pub struct Choice {
    /// What is done where an argument is wide, whatever the tests say.
    pub wide: Option<Wide>,
    /// A test without which none of the others counts.
    pub given: Option<Test>,
    pub any: Tests,
    /// The action if one of them holds.
    pub action: Action,
    pub rest: Action,
}

/// Returns the test that these bits are set in the argument. Arguments are counted from 0.
pub fn bits(arg: u8, mask: u32) -> Test
    requires { arg ≤ 5 }
    ensures mask_is_set { result ≡ bits arg mask }
{
    Test::new(arg, mask, mask)
}

/// Returns the test that the argument is this value.
pub fn whole(arg: u8, value: u32) -> Test
    requires { arg ≤ 5 }
    ensures is_the_value { result ≡ whole arg value }
{
    Test::new(arg, 0xffff_ffff, value)
}

/// Returns this action for all arguments.
pub fn always(alloc: Global, action: Action) -> Choice
    ensures no_tests { result ≡ always action }
{
    Choice {
        wide: None,
        given: None,
        any: Tests::new(Vec::new(alloc)),
        action,
        rest: action,
    }
}

/// Not permitted where one of these tests holds.
pub fn refused_where(alloc: Global, tests: &[Test]) -> Result<Choice, AllocError>
    ensures refused { IfOk result (λ choice. choice ≡ refused_where tests.now) }
{
    let mut any = Vec::new(alloc);
    any.extend_from_slice(tests)?;
    Ok(Choice {
        wide: None,
        given: None,
        any: Tests::new(any),
        action: NOT_PERMITTED,
        rest: Action::Allow,
    })
}

// Returns what is done where the argument is wide, with a version of systemd.
fn wide_as(systemd: Option<Version>, arg: u8, action: Action) -> Option<Wide>
    requires { arg ≤ 5 }
    ensures { result ≡ wide_as systemd arg action }
{
    match systemd {
        None => None,
        Some(_) => Some(Wide::new(arg, action)),
    }
}

/// An action where the argument, which counts from 0, is one of the values that are tested for, and another for the
/// rest. With a version of systemd all 64 bits count.
pub fn by_value(
    systemd: Option<Version>,
    arg: u8,
    any: Tests,
    action: Action,
    rest: Action,
) -> Choice
    requires { arg ≤ 5 }
    ensures chooses { result ≡ by_value systemd arg any action rest }
{
    Choice {
        wide: wide_as(systemd, arg, rest),
        given: None,
        any,
        action,
        rest,
    }
}

/// Permitted only where the argument is one of the values that are tested for.
pub fn allowed_values(systemd: Option<Version>, arg: u8, tests: Tests) -> Choice
    requires { arg ≤ 5 }
    ensures allowed { result ≡ allowed_values systemd arg tests }
{
    by_value(systemd, arg, tests, Action::Allow, NOT_PERMITTED)
}

fn case_with(
    alloc: Global,
    given: Option<Test>,
    action: Action,
    test: Test,
) -> Result<Case, AllocError>
    ensures { IfOk result (λ case. case ≡ case_with given action test) }
{
    let mut tests = Vec::new(alloc);
    if let Some(given) = given {
        tests.push(given)?;
    }
    tests.push(test)?;
    Ok(Case {
        tests: Tests::new(tests),
        action,
    })
}

fn cases_of(alloc: Global, choice: &Choice) -> Result<Cases, AllocError>
    ensures { IfOk result (λ cases. cases ≡ map (case_with choice.now.given choice.now.action) choice.now.any) }
{
    let mut cases = Vec::new(alloc);
    for test in choice.any.list() {
        cases.push(case_with(alloc, choice.given, choice.action, *test)?)?;
    }
    Ok(Cases::new(cases))
}

/// Returns the rule for the call with this number.
pub fn rule_with(alloc: Global, number: u32, choice: &Choice) -> Result<CallRule, AllocError>
    ensures of_the_number { IfOk result (λ rule. rule ≡ rule_with number choice.now) }
{
    Ok(CallRule {
        number,
        wide: choice.wide,
        cases: cases_of(alloc, choice)?,
        rest: choice.rest,
    })
}
