//! How a capability is gained, capabilities(7): which way is taken of those that serve. It takes no memory.

ghost use Rattle.std.specs.Prelude.{◌≡◌, ◌&&◌, find, option_copied, option_map};
ghost use Rattle.open_calls.specs.chosen_calls.Gaining.{at_once, at_power, behind_way, by_launch, by_rows, capset_way, gain, gives_at_once, gives_by_capset, takes_root};
ghost use Rattle.ceilings.specs.kernel_laws.Bound.{can_run};
ghost use Rattle.ceilings.specs.kernel_laws.Launched.{IsLaunchedWorld, launch_of};
ghost use Rattle.open_calls.specs.Bases.{IsBasis};
ghost use Rattle.open_calls.specs.Meanings.{meant_file, meant_cap, meant_gain};

use crate::basis::Basis;
use ceilings::{CAP_SETUID, CAP_SYS_ADMIN, Row, can_run, launched_process};
use questions::{Power, World};

/// How a capability becomes effective by a file.
#[derive(Clone, Copy)]
pub(crate) enum FileWay<'a> {
    /// It is effective at launch.
    Held,
    /// By execve(2) of the row.
    Run(&'a Row),
    /// And by capset(2) after it.
    Capset(&'a Row),
}

/// And by uid 0.
#[derive(Clone, Copy)]
pub(crate) enum CapWay<'a> {
    /// By a file.
    File(FileWay<'a>),
    /// CAP_SETUID by a file, then setuid(2), and execve(2) after it.
    Root(FileWay<'a>),
}

/// On which mount table.
#[derive(Clone, Copy)]
pub(crate) enum GainWay<'a> {
    /// On the launched one.
    AtOnce(CapWay<'a>),
    /// On what CAP_SYS_ADMIN makes of it, which is gained first.
    Behind(CapWay<'a>, CapWay<'a>),
}

// Returns whether execve of the row makes the capability effective.
fn gives_at_once(world: &World<'_>, cap: u8, row: &Row) -> bool
    requires { IsLaunchedWorld world.now }
    ensures { result ≡ gives_at_once (launch_of world.now) cap row.now }
{
    let bounding = launched_process(world).creds.bounding();
    (row.setuid == Some(0) && bounding.contains(cap)) || (row.effective && row.caps.contains(cap))
}

// Returns whether it makes the capability permitted, for capset to make it effective.
fn gives_by_capset(world: &World<'_>, cap: u8, row: &Row) -> bool
    requires { IsLaunchedWorld world.now }
    ensures { result ≡ gives_by_capset (launch_of world.now) cap row.now }
{
    let bounding = launched_process(world).creds.bounding();
    !row.effective && row.caps.cut(bounding).contains(cap)
}

// The first row that gives it at once and that can be run.
fn runner<'a>(world: &'a World<'_>, power: Power, cap: u8) -> Option<&'a Row>
    requires { IsLaunchedWorld world.now }
    ensures { let launch = launch_of world.now in
        option_copied result ≡ find (λ row. gives_at_once launch cap row && can_run launch power row) launch.site.rows }
{
    let rows = world.site_table().rows();
    rows.iter().find(|row| gives_at_once(world, cap, row) && can_run(world, power, row))
}

// The first row that gives it by capset and that can be run.
fn setter<'a>(world: &'a World<'_>, power: Power, cap: u8) -> Option<&'a Row>
    requires { IsLaunchedWorld world.now }
    ensures { let launch = launch_of world.now in
        option_copied result ≡ find (λ row. gives_by_capset launch cap row && can_run launch power row) launch.site.rows }
{
    let rows = world.site_table().rows();
    rows.iter().find(|row| gives_by_capset(world, cap, row) && can_run(world, power, row))
}

// By a row and capset, where capset passes.
fn by_capset<'a>(world: &'a World<'_>, basis: Basis, power: Power, cap: u8) -> Option<FileWay<'a>>
    requires launched { IsLaunchedWorld world.now }
    requires its_own { IsBasis (launch_of world.now) basis }
    ensures { let launch = launch_of world.now in
        option_map meant_file result ≡ capset_way launch power cap }
{
    if !basis.sets_caps {
        return None;
    }
    let row = setter(world, power, cap)?;
    Some(FileWay::Capset(row))
}

// By a row, without no_new_privs.
fn by_rows<'a>(world: &'a World<'_>, basis: Basis, power: Power, cap: u8) -> Option<FileWay<'a>>
    requires launched { IsLaunchedWorld world.now }
    requires its_own { IsBasis (launch_of world.now) basis }
    ensures { option_map meant_file result ≡ by_rows (launch_of world.now) power cap }
{
    if launched_process(world).creds.no_new_privs() {
        return None;
    }
    match runner(world, power, cap) {
        Some(row) => Some(FileWay::Run(row)),
        None => by_capset(world, basis, power, cap),
    }
}

// Held at launch, else by a row of the launched table.
fn by_launch<'a>(world: &'a World<'_>, basis: Basis, cap: u8) -> Option<FileWay<'a>>
    requires launched { IsLaunchedWorld world.now }
    requires its_own { IsBasis (launch_of world.now) basis }
    ensures { option_map meant_file result ≡ by_launch (launch_of world.now) cap }
{
    if launched_process(world).creds.effective().contains(cap) {
        Some(FileWay::Held)
    } else {
        by_rows(world, basis, Power::None, cap)
    }
}

// Returns whether who takes uid 0 has the capability.
fn takes_root(world: &World<'_>, basis: Basis, cap: u8) -> bool
    requires launched { IsLaunchedWorld world.now }
    requires its_own { IsBasis (launch_of world.now) basis }
    ensures { result ≡ takes_root (launch_of world.now) cap }
{
    let creds = &launched_process(world).creds;
    !creds.no_new_privs() && basis.takes_uid && creds.bounding().contains(cap)
}

// Returns how the capability is gained on the launched table, if it is.
#[tactic(auto, unfolding(crate::specs::chosen_calls::Gaining::at_once))]
fn at_once<'a>(world: &'a World<'_>, basis: Basis, cap: u8) -> Option<CapWay<'a>>
    requires launched { IsLaunchedWorld world.now }
    requires its_own { IsBasis (launch_of world.now) basis }
    ensures { option_map meant_cap result ≡ at_once (launch_of world.now) cap }
{
    match by_launch(world, basis, cap) {
        Some(file) => Some(CapWay::File(file)),
        None if takes_root(world, basis, cap) => by_launch(world, basis, CAP_SETUID).map(
            CapWay::Root,
        ),
        None => None,
    }
}

// With the launch's power over mount tables.
#[tactic(auto, unfolding(crate::specs::chosen_calls::Gaining::at_power))]
fn at_power<'a>(world: &'a World<'_>, basis: Basis, cap: u8) -> Option<CapWay<'a>>
    requires launched { IsLaunchedWorld world.now }
    requires its_own { IsBasis (launch_of world.now) basis }
    ensures { option_map meant_cap result ≡ at_power (launch_of world.now) cap }
{
    match by_rows(world, basis, basis.power, cap) {
        Some(file) => Some(CapWay::File(file)),
        None if takes_root(world, basis, cap) => {
            by_rows(world, basis, basis.power, CAP_SETUID).map(CapWay::Root)
        }
        None => None,
    }
}

// The way that gains CAP_SYS_ADMIN first.
fn behind<'a>(world: &'a World<'_>, basis: Basis, cap: u8) -> Option<GainWay<'a>>
    requires launched { IsLaunchedWorld world.now }
    requires its_own { IsBasis (launch_of world.now) basis }
    ensures { option_map meant_gain result ≡ behind_way (launch_of world.now) cap }
{
    let admin = at_once(world, basis, CAP_SYS_ADMIN)?;
    let own = at_power(world, basis, cap)?;
    Some(GainWay::Behind(admin, own))
}

/// Returns how the capability is gained, if it is: on the launched table, else after CAP_SYS_ADMIN.
pub(crate) fn gain<'a>(world: &'a World<'_>, basis: Basis, cap: u8) -> Option<GainWay<'a>>
    requires launched { IsLaunchedWorld world.now }
    requires its_own { IsBasis (launch_of world.now) basis }
    ensures { option_map meant_gain result ≡ gain (launch_of world.now) cap }
{
    match at_once(world, basis, cap) {
        Some(own) => Some(GainWay::AtOnce(own)),
        None => behind(world, basis, cap),
    }
}
