//! Asks the filters of a launched service if they let calls of one kind through. No call takes memory.

ghost use Rattle.std.specs.Prelude.{◌≡◌, ◌&&◌, find, option_copied, slice_get, Some};
ghost use Rattle.std.specs.Str.{bytes_eq};
ghost use Rattle.kernel_ways.specs.call_table.Table.{arch_of, every_call};
ghost use Rattle.kernel_ways.specs.kernel_model.kernel_calls.Rules.{rule_of};
ghost use Rattle.kernel_ways.specs.kernel_laws.declared.question_types.kind.CallKind.TheVariants.{PlainCall};
ghost use Rattle.kernel_ways.specs.kernel_laws.Launched.{chosen_words, launch_of, lets_line, lets_rule, lets_words};

use crate::kinds::{wide_words, words};
use kernel_model::kernel_calls::Rule;
use kernel_model::{CallLine, CallTable, KnownCall, World, known_call};
use kernel_ways::{CallData, CallKind, Decision};

/// The rule of a line of the table, by its name; None where the kernel lacks the call.
#[tactic(auto, unfolding(kernel_model::specs::kernel_calls::Rules::rule_of))]
pub fn rule_of(line: &CallLine) -> Option<Rule>
    ensures by_its_name { result ≡ rule_of line.now }
{
    match known_call(line.kernel, line.name.as_str()) {
        None => Some(Rule::Plain(line.cap)),
        Some(KnownCall::Absent) => None,
        Some(KnownCall::Modelled(rule)) => Some(Rule::Known(rule)),
    }
}

// The architecture of the ABI at this position, or 0 if there is no such ABI.
#[tactic(auto, using(crate::proofs::AllCalls::no_arch))]
fn arch_of(table: &CallTable, abi: u8) -> u32
    ensures { result ≡ arch_of table.now abi }
{
    if abi < table.abis() {
        table.arch_of(abi)
    } else {
        0
    }
}

// Returns whether the filters of the first process let a call by this ABI, of this number and with these words,
// through.
fn lets_words(world: &World<'_>, abi: u8, number: u32, args: [u64; 6]) -> bool
    ensures { result ≡ lets_words (launch_of world.now) abi number (Some args) }
{
    let Some(process) = world.process(1) else {
        return true;
    };
    let data = CallData {
        nr: number,
        arch: arch_of(world.call_table(), abi),
        ip: 0,
        args,
    };
    match process.stack.decide(&data) {
        Decision::Pass => true,
        Decision::Errno(_) | Decision::Kill => false,
    }
}

// Returns whether they let the call of this line through with these words, if there are any.
fn lets_some_words(world: &World<'_>, line: &CallLine, args: Option<[u64; 6]>) -> bool
    ensures { result ≡ lets_words (launch_of world.now) line.now.abi line.now.number args }
{
    match args {
        None => false,
        Some(args) => lets_words(world, line.abi, line.number, args),
    }
}

/// The words with which the call of this line, which has this rule, is made: those that ask for the kind first, and
/// wide ones only where the filters of the first process stop these. None where the call cannot ask for the kind.
pub fn chosen_words(
    world: &World<'_>,
    kind: CallKind,
    line: &CallLine,
    rule: Rule,
) -> Option<[u64; 6]>
    ensures by_the_filters { result ≡ chosen_words (launch_of world.now) kind line.now.abi line.now.number rule }
{
    let first = words(kind, rule);
    if lets_some_words(world, line, first) {
        return first;
    }
    match wide_words(kind, rule) {
        Some(wide) => Some(wide),
        None => first,
    }
}

// Returns whether the call of this line, which has this rule, can ask for the kind, and the filters of the first
// process let it through with the words that are chosen for it.
#[tactic(auto, using(crate::proofs::Chosen::lets_either))]
pub(crate) fn lets_rule(
    world: &World<'_>,
    kind: CallKind,
    line: &CallLine,
    rule: Option<Rule>,
) -> bool
    ensures { result ≡ lets_rule (launch_of world.now) kind line.now.abi line.now.number rule }
{
    let Some(rule) = rule else {
        return false;
    };
    let first = lets_some_words(world, line, words(kind, rule));
    let wide = lets_some_words(world, line, wide_words(kind, rule));
    first || wide
}

/// Returns whether the call of this line can ask for the kind, and the filters of the first process let it through
/// with the words that ask for it first or with wide ones, seccomp(2). Calls that cannot ask for the kind are not put to the filters.
pub fn lets_line(world: &World<'_>, kind: CallKind, line: &CallLine) -> bool
    ensures passes_with_the_first_words { result ≡ lets_line (launch_of world.now) kind line.now }
{
    lets_rule(world, kind, line, rule_of(line))
}

// Returns the first of these lines whose call the filters let through for the kind.
fn passing_among<'a>(
    world: &World<'_>,
    kind: CallKind,
    lines: &'a [CallLine],
) -> Option<&'a CallLine>
    ensures { option_copied result ≡ find (lets_line (launch_of world.now) kind) lines.now }
{
    lines.iter().find(|line| lets_line(world, kind, line))
}

/// Returns the first line of the table whose call asks for the kind and passes the filters. The lines of the native
/// ABI come first.
#[tactic(auto, using(crate::proofs::AllCalls::found_in_all))]
pub fn passing_line<'a>(world: &'a World<'_>, kind: CallKind) -> Option<&'a CallLine>
    ensures first_that_passes { let launch = launch_of world.now in
        option_copied result ≡ find (lets_line launch kind) (every_call launch.calls) }
{
    let table = world.call_table();
    match passing_among(world, kind, table.calls()) {
        Some(line) => Some(line),
        None => passing_among(world, kind, table.calls_in(1)),
    }
}

// Returns whether the line has the name, and its plain call passes.
fn is_plain_named(world: &World<'_>, name: &str, line: &CallLine) -> bool
    ensures { result ≡ (bytes_eq name.now line.now.name && lets_line (launch_of world.now) PlainCall line.now) }
{
    name == line.name.as_str() && lets_line(world, CallKind::PlainCall, line)
}

// Returns the first of these lines that has the name and whose plain call passes.
fn plain_among<'a>(world: &World<'_>, name: &str, lines: &'a [CallLine]) -> Option<&'a CallLine>
    ensures { let launch = launch_of world.now in
        option_copied result ≡ find (λ line. bytes_eq name.now line.name && lets_line launch PlainCall line) lines.now }
{
    lines.iter().find(|line| is_plain_named(world, name, line))
}

/// Finds the line of the plain call with this name that the filters of the first process let through: in the native ABI, else
/// in the second one.
#[tactic(auto, using(crate::proofs::AllCalls::found_in_all))]
pub fn plain_line<'a>(world: &'a World<'_>, name: &str) -> Option<&'a CallLine>
    ensures first_that_passes { let launch = launch_of world.now in
        option_copied result ≡ find (λ line. bytes_eq name.now line.name && lets_line launch PlainCall line) (every_call launch.calls) }
{
    let table = world.call_table();
    match plain_among(world, name, table.calls()) {
        Some(line) => Some(line),
        None => plain_among(world, name, table.calls_in(1)),
    }
}

/// The same for the name of a line of the table, by the line's position among all calls, from 0. In the native ABI no other line has
/// the name.
#[tactic(auto, using(crate::proofs::AllCalls::found_in_all))]
pub fn plain_line_at<'a>(
    world: &'a World<'_>,
    at: usize,
    line: &'a CallLine,
) -> Option<&'a CallLine>
    requires its_line { slice_get (every_call (launch_of world.now).calls) at ≡ Some line.now }
    ensures first_that_passes { let launch = launch_of world.now in
        option_copied result ≡ find (λ other. bytes_eq line.now.name other.name && lets_line launch PlainCall other) (every_call launch.calls) }
{
    let table = world.call_table();
    if at >= table.calls().len() {
        return plain_line(world, line.name.as_str());
    }
    if lets_line(world, CallKind::PlainCall, line) {
        return Some(line);
    }
    plain_among(world, line.name.as_str(), table.calls_in(1))
}
