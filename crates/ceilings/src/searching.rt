//! Searches the launched mount table for the entries that lead to the rows of the site.
//!
//! Most entries show a path of the host at the same place. Of these, only the entry that a row's own path belongs to can show
//! the row. So the search looks at that entry, and at the entries that show another place of the host.

ghost use Rattle.std.specs.Prelude.{◌≡◌, ◌+◌, ◌<◌, ◌≤◌, ◌&&◌, ◌++◌, false, not, drop, length, map, slice_get, IfOk, OnOk, Some};
ghost use Rattle.std.specs.List.{list_any};
ghost use Rattle.kernel_ways.specs.abs_path.Prefix.{is_prefix, rest_of};
ghost use Rattle.kernel_ways.specs.linux_numbers.Limits.{mount_max};
ghost use Rattle.kernel_ways.specs.kern_mounts.Entry.{Belongs, leads_to};
ghost use Rattle.kernel_ways.specs.kern_mounts.Mounts.{steps_of};
ghost use Rattle.kernel_ways.specs.kernel_laws.Launched.{IsLaunchedWorld, launch_of};
ghost use Rattle.kernel_ways.specs.kernel_laws.Reach.{fits, reach_from, shows_row};
ghost use Rattle.ceilings.specs.Leads.{AreLeads, is_moved, leads_of};

use crate::first::launched_table;
use crate::leads::RowLeads;
use abs_path::AbsPath;
use kernel_model::{Flags, MountStep, MountTable, Row, What, World};
use kernel_ways::{Wish, is_covered};
use std::alloc::{AllocError, Global};

// Returns whether what is wished may be done on a mount with these flags, mount(2).
fn allows(flags: Flags, wish: Wish) -> bool
    ensures { result ≡ fits wish flags }
{
    match wish {
        Wish::See | Wish::Read => true,
        Wish::Write => !flags.read_only,
        Wish::Exec => !flags.no_exec,
    }
}

// Returns whether the entry shows what the host has at another place.
fn is_moved(entry: &MountStep) -> bool
    ensures { result ≡ is_moved entry.now }
{
    match &entry.what {
        What::Host(source) => *source != entry.place,
        What::Empty | What::Hidden { .. } => false,
    }
}

// For each entry, by its number: whether it shows what the host has at another place.
fn moved_entries(alloc: Global, table: &MountTable) -> Result<Vec<bool>, AllocError>
    ensures { IfOk result (λ list. list.items ≡ map is_moved (steps_of table.now)) }
{
    let mut list = Vec::new(alloc);
    for at in 0..table.len() {
        list.push(is_moved(table.entry(at)))?;
    }
    Ok(list)
}

// Returns whether an entry of this number and place that shows this source shows the row, at a path that no later
// entry covers.
fn shows_source(
    table: &MountTable,
    at: usize,
    place: &AbsPath,
    source: &AbsPath,
    row: &AbsPath,
) -> bool
    requires few { length table.now ≤ mount_max }
    requires in_range { at < length table.now }
    ensures { result ≡ (is_prefix source.now row.now
        && not (list_any (leads_to (place.now ++ rest_of source.now row.now)) (drop (at + 1) (steps_of table.now)))) }
{
    match source.rest(row) {
        None => false,
        Some(rest) => !is_covered(table, at + 1, place, rest),
    }
}

// Where the rows of a table are looked for: its entries, and which of them show another place of the host.
#[derive(Drop)]
struct Search<'a> {
    table: &'a MountTable,
    moved: &'a [bool],
    ghost of_the_table: { moved.now ≡ map is_moved (steps_of table.now) },
}

// Returns whether the entry, which has this number, shows the row so, whose own path belongs to the entry `own`.
fn shows(search: &Search<'_>, at: usize, entry: &MountStep, own: usize, row: &AbsPath) -> bool
    requires few { length search.now.table.now ≤ mount_max }
    requires entry { slice_get (steps_of search.now.table.now) at ≡ Some entry.now }
    requires own { Belongs (steps_of search.now.table.now) row.now own }
    ensures { result ≡ shows_row false entry.now (drop (at + 1) (steps_of search.now.table.now)) row.now entry.now.what }
{
    match &entry.what {
        What::Host(source) => {
            if search.moved[at] {
                shows_source(search.table, at, &entry.place, source, row)
            } else {
                at == own
            }
        }
        What::Empty | What::Hidden { .. } => false,
    }
}

// The first entry from this number on that shows the row so, with flags that allow what is wished.
fn first_from(
    search: &Search<'_>,
    from: usize,
    own: usize,
    row: &AbsPath,
    wish: Wish,
) -> Option<usize>
    requires own { Belongs (steps_of search.now.table.now) row.now own }
    ensures { result ≡ reach_from false row.now wish (drop from (steps_of search.now.table.now)) from }
{
    for at in from..search.table.len() {
        let entry = search.table.entry(at);
        if allows(entry.flags, wish) && shows(search, at, entry, own, row) {
            return Some(at);
        }
    }
    None
}

// The entries that lead to a row. A row that cannot be seen cannot be written, and the first entry through which the row can be
// written is not before the first through which it can be seen.
#[tactic(auto, using(crate::proofs::Leading::unseen, crate::proofs::Leading::seen))]
fn row_leads(search: &Search<'_>, row: &AbsPath) -> RowLeads
    ensures { result ≡ leads_of (steps_of search.now.table.now) row.now }
{
    let own = search.table.resolve(row);
    match first_from(search, 0, own, row, Wish::See) {
        None => RowLeads {
            see: None,
            write: None,
            exec: None,
        },
        Some(at) => RowLeads {
            see: Some(at),
            write: first_from(search, at, own, row, Wish::Write),
            exec: first_from(search, at, own, row, Wish::Exec),
        },
    }
}

// Adds the entries that lead to each of these rows.
fn push_leads(list: &mut Vec<RowLeads>, search: &Search<'_>, rows: &[Row]) -> Result<(), AllocError>
    ensures { OnOk result (list.new.items ≡ list.old.items ++ map (λ row. leads_of (steps_of search.now.table.now) row.path) rows.now) }
{
    for row in rows {
        list.push(row_leads(search, &row.path))?;
    }
    Ok(())
}

// The entries that lead to each row of the site.
pub(crate) fn all_leads(alloc: Global, world: &World<'_>) -> Result<Vec<RowLeads>, AllocError>
    requires { IsLaunchedWorld world.now }
    ensures { IfOk result (λ list. AreLeads (launch_of world.now) list.items) }
{
    let table = launched_table(world);
    let moved = moved_entries(alloc, table)?;
    let search = Search {
        table,
        moved: &moved,
    };
    let mut list = Vec::new(alloc);
    push_leads(&mut list, &search, world.site_table().rows())?;
    Ok(list)
}
