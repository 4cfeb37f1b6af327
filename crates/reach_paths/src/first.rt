//! The first entry of a mount table that leads to a file of the host.

ghost use Rattle.std.specs.Prelude.{◌≡◌, ◌+◌, ◌<◌, ◌≤◌, ◌↔◌, drop, length, slice_get, Some, IsSome};
ghost use Rattle.kernel_laws.specs.linux_numbers.Limits.{mount_max};
ghost use Rattle.kernel_laws.specs.site_table.declared.row.Row.{Row};
ghost use Rattle.kernel_laws.specs.site_table.Table.{Site, IsSite, row_at};
ghost use Rattle.kernel_laws.specs.kern_mounts.Mounts.{steps_of};
ghost use Rattle.kernel_laws.specs.kern_mounts.Launch.{CanBeMounted};
ghost use Rattle.kernel_laws.specs.kern_mounts.declared.step.MountStep.{MountStep};
ghost use Rattle.kernel_laws.specs.Reach.{fits, shows_row, first_with, reach_with, reach};
ghost use Rattle.reach_paths.specs.Finding.{dirs_of, CanBeFound};
ghost use Rattle.reach_paths.specs.First.{IsFirstByPower};
ghost use Rattle.reach_paths.specs.Needs.{allows};

use crate::covers::is_covered;
use crate::needs::{Need, allows};
use abs_path::AbsPath;
use kernel_laws::question_types::{Power, Wish};
use kernel_laws::{MountTable, What};

// Returns whether the entry of this number shows the row, at a path that no later entry covers or that can be
// uncovered.
fn shows(table: &MountTable, at: usize, row: &AbsPath, uncover: bool) -> bool
    requires in_range { at < length table.now }
    requires few { length table.now ≤ mount_max }
    ensures { (entry : MountStep) → slice_get (steps_of table.now) at ≡ Some entry
        → result ≡ shows_row uncover entry (drop (at + 1) (steps_of table.now)) row.now entry.what }
{
    let entry = table.entry(at);
    match &entry.what {
        What::Host(source) => match source.rest(row) {
            None => false,
            Some(rest) => uncover || !is_covered(table, at + 1, &entry.place, rest),
        },
        What::Empty | What::Hidden { .. } => false,
    }
}

// The number of the first entry that shows the row, with flags that are needed.
fn first_that_serves(table: &MountTable, row: &AbsPath, need: Need, uncover: bool) -> Option<usize>
    ensures { result ≡ first_with uncover row.now (allows need) (steps_of table.now) 0 }
{
    for at in 0..table.len() {
        if allows(table.entry(at).flags, need) && shows(table, at, row, uncover) {
            return Some(at);
        }
    }
    None
}

/// Returns the number of the entry of a mount table that leads to a row of the host, with flags that are needed.
///
/// Without power it is the first entry to which a path belongs that finds the row. With umount2(2) it is the first that shows
/// the row at all, because the service can unmount what covers it. With mount(2) it is the first of the table, because the
/// service can bind the host anew, with any flags.
///
/// For a table that a launch can mount and a row of the site, the function returns None exactly if no path finds the row on any
/// table that the power makes of this one. The call takes no memory.
pub fn reach_for(table: &MountTable, row: &AbsPath, need: Need, power: Power) -> Option<usize>
    ensures by_the_rule { result ≡ reach_with power (steps_of table.now) row.now (allows need) }
    ensures first_that_leads_there { IsFirstByPower power (steps_of table.now) row.now (allows need) result }

    // On a table that a launch can mount, in a site that has the row.
    ensures exactly_where_it_can_be_found { (site : Site) (target : Row)
        → IsSite site → CanBeMounted (dirs_of site) (steps_of table.now) → row_at site.rows row.now ≡ Some target
        → (IsSome result
        ↔ CanBeFound power (row_at site.rows) (steps_of table.now) (allows need) target) }
{
    match power {
        Power::None => first_that_serves(table, row, need, false),
        Power::Unmount => first_that_serves(table, row, need, true),
        Power::Mount => Some(0),
    }
}

/// Returns the number of the entry of a mount table that leads to a row of the host, with flags that allow the wish. It is the
/// answer of `reach_for`.
pub fn reach(table: &MountTable, row: &AbsPath, wish: Wish, power: Power) -> Option<usize>
    ensures by_the_rule { result ≡ reach power (steps_of table.now) row.now wish }
    ensures first_that_leads_there { IsFirstByPower power (steps_of table.now) row.now (fits wish) result }

    // On a table that a launch can mount, in a site that has the row.
    ensures exactly_where_it_can_be_found { (site : Site) (target : Row)
        → IsSite site → CanBeMounted (dirs_of site) (steps_of table.now) → row_at site.rows row.now ≡ Some target
        → (IsSome result
        ↔ CanBeFound power (row_at site.rows) (steps_of table.now) (fits wish) target) }
{
    reach_for(table, row, Need::ForWish(wish), power)
}
