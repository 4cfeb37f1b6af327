//! Finds the rules of the lines of the table of calls once for each line, and asks the filters by them.

ghost use Rattle.std.specs.Prelude.{◌≡◌, map, IfOk};
ghost use Rattle.std.specs.List.{list_any};
ghost use Rattle.kernel_ways.specs.kernel_model.kernel_calls.Rules.{rule_of};
ghost use Rattle.kernel_ways.specs.kernel_laws.Launched.{can_make_user, can_submit, launch_of, lets, lets_line};
ghost use Rattle.ceilings.specs.Ruled.{AreRules};

use crate::calls::{lets_rule, rule_of};
use kernel_model::kernel_calls::Rule;
use kernel_model::{CallLine, World};
use kernel_ways::{CallKind, NamespaceType};
use std::alloc::{AllocError, Global};

/// The rules of all calls, by their positions; None if the kernel lacks the call.
#[derive(Drop)]
pub struct LineRules {
    /// The rules of the native ABI's calls.
    pub native: Vec<Option<Rule>>,
    /// The rules of the second ABI's calls, if there is one.
    pub second: Vec<Option<Rule>>,
}

// The rules of these lines.
fn rules_of(alloc: Global, lines: &[CallLine]) -> Result<Vec<Option<Rule>>, AllocError>
    ensures { IfOk result (λ list. list.items ≡ map rule_of lines.now) }
{
    let mut list = Vec::new(alloc);
    for line in lines {
        list.push(rule_of(line))?;
    }
    Ok(list)
}

// Returns whether the filters let the call of this line through, which has this rule.
fn lets_ruled(world: &World<'_>, kind: CallKind, line: &CallLine, rule: Option<Rule>) -> bool
    requires { rule ≡ rule_of line.now }
    ensures { result ≡ lets_line (launch_of world.now) kind line.now }
{
    lets_rule(world, kind, line, rule)
}

// Returns whether the filters let the call of one of these lines through, which have these rules.
fn lets_some(world: &World<'_>, kind: CallKind, lines: &[CallLine], rules: &[Option<Rule>]) -> bool
    requires { rules.now ≡ map rule_of lines.now }
    ensures { result ≡ list_any (lets_line (launch_of world.now) kind) lines.now }
{
    for (at, line) in lines.iter().enumerate() {
        if lets_ruled(world, kind, line, rules[at]) {
            return true;
        }
    }
    false
}

impl LineRules {
    /// Finds the rules of the calls in the table of a launched service.
    pub(crate) fn of(alloc: Global, world: &World<'_>) -> Result<LineRules, AllocError>
        ensures { IfOk result (AreRules (launch_of world.now)) }
    {
        let table = world.call_table();
        Ok(LineRules {
            native: rules_of(alloc, table.calls())?,
            second: rules_of(alloc, table.calls_in(1))?,
        })
    }

    /// Returns whether the filters of the first process let some call of the table through, by any ABI, that asks for
    /// the kind, seccomp(2): what `lets` says. It takes no memory.
    pub fn let_through(&self, world: &World<'_>, kind: CallKind) -> bool
        requires of_the_table { AreRules (launch_of world.now) self.now }
        ensures some_call_passes { result ≡ lets (launch_of world.now) kind }
    {
        let table = world.call_table();
        lets_some(world, kind, table.calls(), &self.native)
            || lets_some(world, kind, table.calls_in(1), &self.second)
    }
}

/// Returns whether a user namespace can be made, user_namespaces(7): the site allows one, and some call passes that
/// asks for one.
pub fn can_make_user(world: &World<'_>, rules: &LineRules) -> bool
    requires of_the_table { AreRules (launch_of world.now) rules.now }
    ensures allowed_and_let_through { result ≡ can_make_user (launch_of world.now) }
{
    world.site_table().user_namespaces() > 0
        && rules.let_through(world, CallKind::ForNamespace(NamespaceType::User))
}

/// Returns whether requests can be submitted to a ring, io_uring_enter(2): the site has rings, some call passes that sets one up,
/// and some call passes that submits a request.
pub fn can_submit(world: &World<'_>, rules: &LineRules) -> bool
    requires of_the_table { AreRules (launch_of world.now) rules.now }
    ensures allowed_and_let_through { result ≡ can_submit (launch_of world.now) }
{
    world.site_table().io_uring()
        && rules.let_through(world, CallKind::SetsUpRing)
        && rules.let_through(world, CallKind::Submits)
}
