//! The rules of the calls of a table, computed once.

ghost use Rattle.std.specs.Prelude.{◌≡◌, IfOk, map};
ghost use Rattle.call_table.specs.Lookups.{place_numbered};
ghost use Rattle.call_table.specs.Table.{calls_in};
ghost use Rattle.kernel_model.specs.kernel_calls.Rules.{rule_of, rule_at, rules_of};

use crate::kernel_calls::rule::{Rule, rule_of};
use call_table::{CallLine, CallTable};
use std::alloc::{AllocError, Global};
use std::marker::Model;

/// The rule of each call of a table, in the table's order; None if the kernel lacks the call.
#[derive(Drop)]
pub struct Rules {
    native: Vec<Option<Rule>>,
    second: Vec<Option<Rule>>,
}

impl Model for Rules {
    ghost use Rattle.kernel_model.specs.kernel_calls.Rules.{TableRules};

    ghost Value = { TableRules };

    ghost view = { λ rules. (rules.native.items, rules.second.items) };
}

// The rule of each line.
fn rules_of(alloc: Global, lines: &[CallLine]) -> Result<Vec<Option<Rule>>, AllocError>
    ensures { IfOk result (λ rules. rules.items ≡ map rule_of lines.now) }
{
    let mut rules = Vec::with_capacity(alloc, lines.len())?;
    for line in lines {
        rules.push(rule_of(line))?;
    }
    Ok(rules)
}

// The position of the line with this number among the lines of an ABI.
fn place_numbered(calls: &CallTable, abi: u8, nr: u32) -> Option<usize>
    ensures { result ≡ place_numbered nr (calls_in calls.now abi) }
{
    let order = calls.by_number_in(abi);
    match order.binary_search_by_key(&nr, |numbered| numbered.number) {
        Ok(at) => Some(order[at].position),
        Err(_) => None,
    }
}

impl Rules {
    /// Computes the rules of the calls of this table.
    pub fn new(alloc: Global, calls: &CallTable) -> Result<Rules, AllocError>
        ensures of_each_line { IfOk result (λ rules. rules ≡ rules_of calls.now) }
    {
        Ok(Rules {
            native: rules_of(alloc, calls.calls_in(0))?,
            second: rules_of(alloc, calls.calls_in(1))?,
        })
    }

    // The rules of the calls of an ABI. `calls` must be the table of these rules.
    fn rules_in(&self, calls: &CallTable, abi: u8) -> &[Option<Rule>]
        requires { self.now ≡ rules_of calls.now }
        ensures { result.now ≡ map rule_of (calls_in calls.now abi) }
    {
        match abi {
            0 => &self.native,
            1 => &self.second,
            _ => &[],
        }
    }

    /// Returns the rule of the call with this number in an ABI, or None if the kernel lacks the call or the ABI has no such
    /// number. `calls` must be the table of these rules. Takes no memory.
    pub fn rule(&self, calls: &CallTable, abi: u8, nr: u32) -> Option<Rule>
        requires { self.now ≡ rules_of calls.now }
        ensures by_number { result ≡ rule_at (calls_in calls.now abi) nr }
    {
        let rules = self.rules_in(calls, abi);
        match place_numbered(calls, abi, nr) {
            Some(place) => rules[place],
            None => None,
        }
    }
}
