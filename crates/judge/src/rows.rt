//! Tests which rows of the site can be seen, read, written and executed.

ghost use Rattle.std.specs.Prelude.{◌≡◌, ◌&&◌, not, option_copied, slice_get};
ghost use Rattle.std.specs.List.{list_any};
ghost use Rattle.ceilings.specs.kernel_laws.Bound.{can_create, can_reach, can_write, ceiling, is_barred, is_to_exec, open_at, power_of, runs_plainly};
ghost use Rattle.ceilings.specs.kernel_laws.Launched.{IsLaunchedWorld, launch_of, can_make_user};
ghost use Rattle.ceilings.specs.kernel_laws.declared.question_types.question.Question.TheVariants.{Path as ByPath};
ghost use Rattle.ceilings.specs.Leads.{leads_of};
ghost use Rattle.ceilings.specs.Own.{IsCeilingOf};

use crate::lines::{makes_user, passes};
use ceilings::{Ceiling, Row, RowLeads, can_write, is_barred, mount_wish, reach_by, runs_plainly};
use questions::{CallKind, Power, Wish, World};

// Returns whether the wish is to execute a barred row, no mount with nosuid leads to it, and no user namespace can be
// made. Then execve refuses the row by its marks: it does not look at them only on such a mount, and the bounding set is
// full only in a newer user namespace.
fn is_refused(world: &World<'_>, top: &Ceiling, wish: Wish, row: &Row) -> bool
    requires launched { IsLaunchedWorld world.now }
    requires its_own_ceiling { IsCeilingOf (launch_of world.now) top.now }
    ensures { result ≡ (((is_to_exec wish && is_barred (launch_of world.now) row.now)
        && not (runs_plainly (launch_of world.now) top.now.power row.now)) && not (can_make_user (launch_of world.now))) }
{
    match wish {
        Wish::Exec => {
            is_barred(world, row) && !runs_plainly(world, top.power, row) && !makes_user(world, top)
        }
        Wish::See | Wish::Read | Wish::Write => false,
    }
}

// Returns whether the wish can be asked for, by a call or by a ring, some table of the power shows the row, to which these
// entries lead, and execve does not refuse the row.
fn can_reach(world: &World<'_>, top: &Ceiling, wish: Wish, leads: RowLeads, row: &Row) -> bool
    requires launched { IsLaunchedWorld world.now }
    requires its_own_ceiling { IsCeilingOf (launch_of world.now) top.now }
    requires of_the_row { leads ≡ leads_of (launch_of world.now).table row.now.path }
    ensures { let launch = launch_of world.now in result ≡ can_reach launch (power_of launch) wish row.now }
{
    top.paths.can_ask(wish)
        && reach_by(world, leads, top.power, mount_wish(row.kind, wish), row).is_some()
        && !is_refused(world, top, wish, row)
}

// The row of this number.
fn listed_row<'a>(world: &'a World<'_>, at: usize) -> Option<&'a Row>
    ensures { option_copied result ≡ slice_get (launch_of world.now).site.rows at }
{
    world.site_table().rows().get(at)
}

// Returns whether some row can be written at this power.
fn writes_some(world: &World<'_>, power: Power) -> bool
    requires launched { IsLaunchedWorld world.now }
    ensures { result ≡ list_any (can_write (launch_of world.now) power) (launch_of world.now).site.rows }
{
    let rows = world.site_table().rows();
    rows.iter().any(|row| can_write(world, power, row))
}

/// Returns whether creat(2) passes with a set-id bit, and some file can be written.
pub(crate) fn can_create(world: &World<'_>, top: &Ceiling) -> bool
    requires launched { IsLaunchedWorld world.now }
    requires its_own_ceiling { IsCeilingOf (launch_of world.now) top.now }
    ensures { let launch = launch_of world.now in result ≡ can_create launch (power_of launch) }
{
    passes(world, top, CallKind::CreatesMode) && writes_some(world, top.power)
}

/// Returns whether the wish for the row of this number is open.
pub(crate) fn is_path_open(world: &World<'_>, top: &Ceiling, wish: Wish, at: usize) -> bool
    requires launched { IsLaunchedWorld world.now }
    requires its_own_ceiling { IsCeilingOf (launch_of world.now) top.now }
    ensures { let launch = launch_of world.now in
        result ≡ open_at launch (power_of launch) (ceiling launch) (ByPath wish at) }
{
    match listed_row(world, at) {
        None => false,
        Some(row) => can_reach(world, top, wish, top.leads_to(at), row),
    }
}
