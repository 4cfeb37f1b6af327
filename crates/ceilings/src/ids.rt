//! Collects the ids that processes of a service can have without taking any by CAP_SETUID or CAP_SETGID,
//! credentials(7).

ghost use Rattle.std.specs.Prelude.{◌≡◌, ◌++◌, IfOk, OnOk};
ghost use Rattle.kernel_ways.specs.kernel_laws.Launched.{IsLaunchedWorld, launch_of};
ghost use Rattle.ceilings.specs.Owners.{set_id, given_at, given_ids, uids_at, gids_at};

use crate::first::launched_process;
use crate::programs::can_run;
use kernel_model::{ItemList, Row, World};
use kernel_ways::Power;
use std::alloc::{AllocError, Global};

/// Ids of users or of groups, which contracts see as a list.
pub type IdList = ItemList<u32>;

/// Whom an id names.
#[derive(Clone, Copy)]
enum IdKind {
    User,
    Group,
}

// The id that a program with the set-user-id or the set-group-id bit has for who runs it.
fn set_id(kind: IdKind, row: &Row) -> Option<u32>
    ensures { result ≡ set_id kind row.now }
{
    match kind {
        IdKind::User => row.setuid,
        IdKind::Group => row.setgid,
    }
}

// The id that a program gives, if it can be run.
fn given_at(world: &World<'_>, power: Power, kind: IdKind, row: &Row) -> Option<u32>
    requires { IsLaunchedWorld world.now }
    ensures { result ≡ given_at kind (launch_of world.now) power row.now }
{
    match set_id(kind, row) {
        Some(id) if can_run(world, power, row) => Some(id),
        _ => None,
    }
}

// Adds the ids that the programs of the site give.
fn push_given(
    ids: &mut Vec<u32>,
    world: &World<'_>,
    power: Power,
    kind: IdKind,
    rows: &[Row],
) -> Result<(), AllocError>
    requires { IsLaunchedWorld world.now }
    ensures { OnOk result (ids.new.items ≡ ids.old.items ++ given_ids kind (launch_of world.now) power rows.now) }
{
    for row in rows {
        if let Some(id) = given_at(world, power, kind, row) {
            ids.push(id)?;
        }
    }
    Ok(())
}

// The uid of the launch, and the owners of the set-user-id programs that can be run at this power.
pub(crate) fn uids(alloc: Global, world: &World<'_>, power: Power) -> Result<IdList, AllocError>
    requires { IsLaunchedWorld world.now }
    ensures { IfOk result (λ ids. ids ≡ uids_at (launch_of world.now) power) }
{
    let creds = &launched_process(world).creds;
    let mut ids = Vec::new(alloc);
    ids.push(creds.uids().effective)?;
    if !creds.no_new_privs() {
        push_given(
            &mut ids,
            world,
            power,
            IdKind::User,
            world.site_table().rows(),
        )?;
    }
    Ok(IdList::new(ids))
}

// The gid of the launch, its groups, and the groups of the set-group-id programs that can be run at this power.
pub(crate) fn gids(alloc: Global, world: &World<'_>, power: Power) -> Result<IdList, AllocError>
    requires { IsLaunchedWorld world.now }
    ensures { IfOk result (λ ids. ids ≡ gids_at (launch_of world.now) power) }
{
    let creds = &launched_process(world).creds;
    let mut ids = Vec::new(alloc);
    ids.push(creds.gids().effective)?;
    ids.extend_from_slice(creds.groups())?;
    if !creds.no_new_privs() {
        push_given(
            &mut ids,
            world,
            power,
            IdKind::Group,
            world.site_table().rows(),
        )?;
    }
    Ok(IdList::new(ids))
}
