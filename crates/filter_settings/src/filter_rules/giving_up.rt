//! Decides whether a filtered service may still give up capabilities (systemd.exec(5), SystemCallFilter=).
ghost use Rattle.std.specs.Prelude.{◌≡◌};
ghost use Rattle.filter_settings.specs.filter_rules.GivingUp.{is_on_list, lets_give_up, may_give_up};

use crate::filter_rules::calls::listed_by;
use crate::filter_rules::mentions::{CallList, Mode};
use call_table::CallTable;

// Returns whether the name is on the list, with whatever action.
fn is_on_list(table: &CallTable, list: &CallList, name: &str) -> bool
    ensures { result ≡ is_on_list table.now list.now name.now }
{
    listed_by(table, list.mentions.list(), name).is_some()
}

fn lets_give_up(table: &CallTable, list: &CallList) -> bool
    ensures { result ≡ lets_give_up table.now list.now }
{
    let capget = is_on_list(table, list, "capget");
    let capset = is_on_list(table, list, "capset");
    let prctl = is_on_list(table, list, "prctl");
    match list.mode {
        Mode::Allow => capget && capset && prctl,
        Mode::Deny => !(capget || capset || prctl),
    }
}

/// Returns whether a service that is filtered by this list may still give up capabilities. It needs capget(2), capset(2)
/// and prctl(2) for this: an allow list has to name all three, and a deny list none of them. The action that a word adds to
/// a name does not count.
pub fn may_give_up(table: &CallTable, calls: &Option<CallList>) -> bool
    ensures by_three_names { result ≡ may_give_up table.now calls.now }
{
    match calls {
        Some(list) => lets_give_up(table, list),
        None => true,
    }
}
