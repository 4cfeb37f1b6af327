//! The calls that take an id.

ghost use Rattle.std.specs.Prelude.{◌≡◌, ◌++◌, ◌==◌, ◌&&◌, [], if◌then◌else◌, true, find, option_copied, option_map, OnOk, None};
ghost use Rattle.std.specs.List.{list_any};
ghost use Rattle.open_calls.specs.chosen_calls.Chosen.{IsIdOpen, id_at_power, id_by_cap, id_calls, runner, taking};
ghost use Rattle.open_calls.specs.chosen_calls.Gaining.{at_once};
ghost use Rattle.ceilings.specs.kernel_laws.Bound.{can_run, is_open, power_of};
ghost use Rattle.ceilings.specs.kernel_laws.Launched.{IsLaunchedWorld, launch_of, lets};
ghost use Rattle.ceilings.specs.kernel_ways.Laws.{IsServedWorld};
ghost use Rattle.open_calls.specs.Meanings.{asked, gives, is_had, meant_cap, meant_kind, meant_number};

use crate::service::{Made, Service};
use crate::ways::CapWay;
use ceilings::{CAP_SETGID, CAP_SETUID, CAP_SYS_ADMIN, Row, can_run, launched_process};
use questions::{Call, CallKind, Power, World};

/// Whose ids, credentials(7).
#[derive(Clone, Copy)]
pub(crate) enum IdKind {
    /// Of users.
    User,
    /// Of groups.
    Group,
}

impl IdKind {
    // The calls that take such an id.
    fn kind(self) -> CallKind
        ensures { result ≡ meant_kind self }
    {
        match self {
            IdKind::User => CallKind::TakesUid,
            IdKind::Group => CallKind::TakesGid,
        }
    }

    // The capability that they ask for.
    fn cap(self) -> u8
        ensures { result ≡ meant_number self }
    {
        match self {
            IdKind::User => CAP_SETUID,
            IdKind::Group => CAP_SETGID,
        }
    }

    // Returns whether a set-id bit of the row gives the id.
    fn gives(self, id: u32, row: &Row) -> bool
        ensures { result ≡ gives self id row.now }
    {
        match self {
            IdKind::User => row.setuid == Some(id),
            IdKind::Group => row.setgid == Some(id),
        }
    }

    // Returns whether the process has the id at launch, a gid also among its groups.
    fn is_had(self, world: &World<'_>, id: u32) -> bool
        requires { IsLaunchedWorld world.now }
        ensures { result ≡ is_had self (launch_of world.now) id }
    {
        let creds = &launched_process(world).creds;
        match self {
            IdKind::User => id == creds.uids().effective,
            IdKind::Group => id == creds.gids().effective || is_among(id, creds.groups()),
        }
    }
}

// Returns whether the id is among these.
fn is_among(id: u32, ids: &[u32]) -> bool
    ensures { result ≡ list_any (λ own. id == own) ids.now }
{
    ids.iter().any(|own| id == *own)
}

// The first row that gives the id and that can be run.
fn giver<'a>(world: &'a World<'_>, power: Power, kind: IdKind, id: u32) -> Option<&'a Row>
    requires { IsLaunchedWorld world.now }
    ensures { let launch = launch_of world.now in
        option_copied result ≡ find (λ row. gives kind id row && can_run launch power row) launch.site.rows }
{
    let rows = world.site_table().rows();
    rows.iter()
        .find(|row| kind.gives(id, row) && can_run(world, power, row))
}

// The same, without no_new_privs.
fn runner<'a>(world: &'a World<'_>, power: Power, kind: IdKind, id: u32) -> Option<&'a Row>
    requires { IsLaunchedWorld world.now }
    ensures { option_copied result ≡ runner (launch_of world.now) power (gives kind id) }
{
    if launched_process(world).creds.no_new_privs() {
        None
    } else {
        giver(world, power, kind, id)
    }
}

impl Service<'_> {
    // Returns whether a call passes that takes such an id.
    fn is_taken(&self, kind: IdKind) -> bool
        ensures { result ≡ lets (launch_of self.now.world.now) (meant_kind kind) }
    {
        match kind {
            IdKind::User => self.basis.takes_uid,
            IdKind::Group => self.basis.takes_gid,
        }
    }

    // Returns how the capability is gained on the launched table, where such a call passes.
    fn cap_way(&self, kind: IdKind) -> Option<CapWay<'_>>
        requires { IsLaunchedWorld self.now.world.now }
        ensures { let launch = launch_of self.now.world.now in
            option_map meant_cap result ≡ (if lets launch (meant_kind kind) then at_once launch (meant_number kind) else None) }
    {
        if self.is_taken(kind) {
            self.at_once(kind.cap())
        } else {
            None
        }
    }

    // Adds the call that takes the id.
    fn push_taking(&self, calls: &mut Vec<Call>, kind: IdKind, id: u32) -> Made<()>
        requires some_passes { lets (launch_of self.now.world.now) (meant_kind kind) ≡ true }
        ensures { OnOk result (calls.new.items ≡ calls.old.items ++ taking (launch_of self.now.world.now) (meant_kind kind) id) }
    {
        calls.push(self.id_call(kind.kind(), id)?)?;
        Ok(())
    }

    // Adds the calls with the launch's power over mount tables: by a row, else by the capability.
    fn push_at_power(&self, calls: &mut Vec<Call>, kind: IdKind, id: u32) -> Made<()>
        requires served { IsServedWorld self.now.world.now }
        requires reachable { IsIdOpen (launch_of self.now.world.now) (meant_kind kind) (gives kind id) }
        ensures { let launch = launch_of self.now.world.now in
            OnOk result (calls.new.items ≡ calls.old.items ++ id_at_power launch self.now.program.now (meant_kind kind) (meant_number kind) id (runner launch (power_of launch) (gives kind id))) }
    {
        if let Some(row) = runner(self.world, self.power, kind, id) {
            self.push_gaining(calls, CAP_SYS_ADMIN)?;
            return self.push_run(calls, self.power, row);
        }
        self.push_gaining(calls, kind.cap())?;
        self.push_taking(calls, kind, id)
    }

    // Adds the calls by the capability, if it is gained on the launched table; else with the launch's power.
    fn push_by_cap(&self, calls: &mut Vec<Call>, kind: IdKind, id: u32) -> Made<()>
        requires served { IsServedWorld self.now.world.now }
        requires reachable { IsIdOpen (launch_of self.now.world.now) (meant_kind kind) (gives kind id) }
        ensures { let launch = launch_of self.now.world.now in
            OnOk result (calls.new.items ≡ calls.old.items ++ id_by_cap launch self.now.program.now (meant_kind kind) (meant_number kind) id (gives kind id) (if lets launch (meant_kind kind) then at_once launch (meant_number kind) else None)) }
    {
        match self.cap_way(kind) {
            Some(way) => {
                self.push_cap(calls, Power::None, way)?;
                self.push_taking(calls, kind, id)
            }
            None => self.push_at_power(calls, kind, id),
        }
    }

    /// Adds the calls that take an id which the service can get; none if the launch gives it the id. They take it by a row of
    /// the launched table, else by the capability there, else with the launch's power over mount tables.
    pub(crate) fn push_id(&self, calls: &mut Vec<Call>, kind: IdKind, id: u32) -> Made<()>
        requires served { IsServedWorld self.now.world.now }
        requires reachable { is_open (launch_of self.now.world.now) (asked kind id) ≡ true }
        ensures { let launch = launch_of self.now.world.now in
            OnOk result (calls.new.items ≡ calls.old.items ++ (if is_had kind launch id then [] else id_calls launch self.now.program.now (meant_kind kind) (meant_number kind) id (gives kind id))) }
    {
        if kind.is_had(self.world, id) {
            return Ok(());
        }
        match runner(self.world, Power::None, kind, id) {
            Some(row) => self.push_run(calls, Power::None, row),
            None => self.push_by_cap(calls, kind, id),
        }
    }
}
