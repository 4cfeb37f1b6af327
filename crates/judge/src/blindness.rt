//! Tests if a service can see anything of what lies below a folder.

ghost use Rattle.std.specs.Prelude.{◌≡◌, ◌+◌, ◌<◌, ◌≤◌, ◌&&◌, ◌++◌, true, false, drop, length, Some};
ghost use Rattle.ceilings.specs.abs_path.Paths.{parts_of};
ghost use Rattle.ceilings.specs.abs_path.Prefix.{IsRest, is_below, is_prefix, rest_of};
ghost use Rattle.ceilings.specs.linux_numbers.Limits.{mount_max};
ghost use Rattle.ceilings.specs.site_table.Table.{kind_at};
ghost use Rattle.ceilings.specs.site_table.declared.kinds.RowKind.TheVariants.{Dir};
ghost use Rattle.ceilings.specs.kern_mounts.Mounts.{steps_of};
ghost use Rattle.ceilings.specs.kernel_laws.Blind.{exposes, is_blind, is_clear, shows_below};
ghost use Rattle.ceilings.specs.kernel_laws.Denied.{IsBlind};
ghost use Rattle.ceilings.specs.kernel_laws.Launched.{IsLaunchedWorld, launch_of};
ghost use Rattle.ceilings.specs.kernel_ways.Blindness.{IsExposed};
ghost use Rattle.ceilings.specs.kernel_ways.Laws.{IsServedWorld};
ghost use Rattle.ceilings.specs.Own.{IsCeilingOf};

use abs_path::AbsPath;
use ceilings::{Ceiling, Launched, MountStep, MountTable, What, is_covered, launched_table};
use questions::{Power, World};

// Returns whether no entry after this number covers the path that the front and the rest make, or what covers it can
// be taken away.
fn is_clear(table: &MountTable, at: usize, front: &AbsPath, rest: &str, uncover: bool) -> bool
    requires few { length table.now ≤ mount_max }
    requires in_range { at < length table.now }
    requires may_be_joined { IsRest rest.now }
    ensures { result ≡ is_clear uncover (front.now ++ parts_of rest.now) (drop (at + 1) (steps_of table.now)) }
{
    uncover || !is_covered(table, at + 1, front, rest)
}

// Returns whether an entry of this number and place shows what lies below the folder, by a source that is the folder
// or leads to it.
fn shows_folder(
    table: &MountTable,
    at: usize,
    place: &AbsPath,
    source: &AbsPath,
    folder: &AbsPath,
    uncover: bool,
) -> bool
    requires few { length table.now ≤ mount_max }
    requires in_range { at < length table.now }
    ensures { result ≡ (is_prefix source.now folder.now
        && is_clear uncover (place.now ++ rest_of source.now folder.now) (drop (at + 1) (steps_of table.now))) }
{
    match source.rest(folder) {
        None => false,
        Some(rest) => is_clear(table, at, place, rest, uncover),
    }
}

// Returns whether the entry, which has this number, shows what lies below the folder. Its source lies there itself,
// or is the folder or leads to it.
fn shows_below(
    table: &MountTable,
    at: usize,
    entry: &MountStep,
    folder: &AbsPath,
    uncover: bool,
) -> bool
    requires few { length table.now ≤ mount_max }
    requires in_range { at < length table.now }
    ensures { result ≡ shows_below uncover folder.now entry.now (drop (at + 1) (steps_of table.now)) entry.now.what }
{
    let place = &entry.place;
    match &entry.what {
        What::Host(source) => {
            (source.is_below(folder) && is_clear(table, at, place, "", uncover))
                || shows_folder(table, at, place, source, folder, uncover)
        }
        What::Empty | What::Hidden { .. } => false,
    }
}

// Returns whether some entry of the table shows what lies below the folder.
fn exposes(table: &MountTable, folder: &AbsPath, uncover: bool) -> bool
    ensures { result ≡ exposes uncover folder.now (steps_of table.now) }
{
    for at in 0..table.len() {
        if shows_below(table, at, table.entry(at), folder, uncover) {
            return true;
        }
    }
    false
}

// Returns whether the service is blind to the folder, by the mounts of the launch and by how far the service can
// change them.
fn is_blind(world: &World<'_>, ceiling: &Ceiling, folder: &AbsPath) -> bool
    requires launched { IsLaunchedWorld world.now }
    requires its_own_ceiling { IsCeilingOf (launch_of world.now) ceiling.now }
    ensures { result ≡ is_blind (launch_of world.now) folder.now }
{
    let table = launched_table(world);
    match ceiling.power {
        Power::None => !exposes(table, folder, false),
        Power::Unmount => !exposes(table, folder, true),
        Power::Mount => false,
    }
}

/// Returns whether a launched service is blind to a folder of its site. If it is, no list of calls of its processes, in any
/// order and of any number of processes, leads to a world with a path that shows a place strictly below the folder. The path is
/// one that a call can name, in the mount table of a living process. The place need not be a row of the site.
///
/// If the service of a unit's settings is not blind, some list of successful calls leads to such a path.
///
/// A service that cannot change mounts sees what the launched mounts show. If it can unmount, umount2(2), it sees what each of
/// them shows. If it can mount, mount(2), it sees everything. The call takes no memory.
pub fn blind(launched: &Launched<'_>, ceiling: &Ceiling, folder: &AbsPath) -> bool
    requires launched { IsLaunchedWorld launched.now.world }
    requires its_own_ceiling { IsCeilingOf (launch_of launched.now.world) ceiling.now }
    requires folder { kind_at launched.now.world.site.rows folder.now ≡ Some Dir }
    ensures by_the_rule { result ≡ is_blind (launch_of launched.now.world) folder.now }
    ensures blind { result ≡ true → IsBlind launched.now.world folder.now }
    ensures exposed { IsServedWorld launched.now.world → result ≡ false → IsExposed launched.now.world folder.now }
{
    is_blind(&launched.world, ceiling, folder)
}
