//! Tests which programs of a site a service can run, and which files it can write.

ghost use Rattle.std.specs.Prelude.{◌≡◌};
ghost use Rattle.kernel_ways.specs.kernel_laws.Bound.{can_run, can_write, is_barred, runs_plainly};
ghost use Rattle.kernel_ways.specs.kernel_laws.Launched.{IsLaunchedWorld, launch_of};

use crate::first::{launched_process, launched_table};
use kernel_model::{Row, RowKind, World};
use kernel_ways::{Need, Power, Wish, mount_wish, reach, reach_for};

/// Returns whether the row's effective bit is set and the bounding set of the launch withholds one of its
/// capabilities. Then execve(2) refuses the row, unless the row's marks are not looked at or the bounding set is full
/// (capabilities(7), "Safety checking for capability-dumb binaries").
pub fn is_barred(world: &World<'_>, row: &Row) -> bool
    requires { IsLaunchedWorld world.now }
    ensures withheld { result ≡ is_barred (launch_of world.now) row.now }
{
    row.effective && !row.caps.within(launched_process(world).creds.bounding())
}

/// Returns whether the row is a program that is not barred, and to which some mount table of the power leads where
/// execve(2) looks at its marks.
pub fn can_run(world: &World<'_>, power: Power, row: &Row) -> bool
    requires launched { IsLaunchedWorld world.now }
    ensures runs { result ≡ can_run (launch_of world.now) power row.now }
{
    match row.kind {
        RowKind::Dir | RowKind::File | RowKind::Dev => false,
        RowKind::Exe => {
            !is_barred(world, row)
                && reach_for(launched_table(world), &row.path, Need::Marked, power).is_some()
        }
    }
}

/// Returns whether some mount table of the power leads to the row where execve(2) does not look at its marks (mount(2),
/// MS_NOSUID). There execve refuses no row for them.
pub fn runs_plainly(world: &World<'_>, power: Power, row: &Row) -> bool
    requires launched { IsLaunchedWorld world.now }
    ensures unmarked { result ≡ runs_plainly (launch_of world.now) power row.now }
{
    reach_for(launched_table(world), &row.path, Need::Unmarked, power).is_some()
}

/// Returns whether the row is a file that some mount table of the power shows where it can be written.
pub fn can_write(world: &World<'_>, power: Power, row: &Row) -> bool
    requires launched { IsLaunchedWorld world.now }
    ensures can_be_written { result ≡ can_write (launch_of world.now) power row.now }
{
    match row.kind {
        RowKind::Dir => false,
        RowKind::File | RowKind::Exe | RowKind::Dev => {
            let wish = mount_wish(row.kind, Wish::Write);
            reach(launched_table(world), &row.path, wish, power).is_some()
        }
    }
}
