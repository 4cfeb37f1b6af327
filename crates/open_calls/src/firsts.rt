//! The first calls of the kinds that are asked for often, kept; and the first call of every kind.

ghost use Rattle.std.specs.Prelude.{◌≡◌, true, IfOk};
ghost use Rattle.open_calls.specs.chosen_calls.Chosen.{call_inside, own_payload, pid_inside, user_call, socket_payload, wish_payload};
ghost use Rattle.open_calls.specs.chosen_calls.First.{call_by, line_of, own_rule};
ghost use Rattle.ceilings.specs.kernel_laws.declared.question_types.kind.CallKind.TheVariants.{ForNamespace, ForFamily, ForPath};
ghost use Rattle.questions.specs.linux_numbers.declared.namespaces.NamespaceType.TheVariants.{User};
ghost use Rattle.ceilings.specs.kernel_laws.Launched.{Launch, launch_of, lets};
ghost use Rattle.ceilings.specs.kernel_ways.Taking.{id_call};
ghost use Rattle.ceilings.specs.kernel_ways.Ways.{place_of};
ghost use Rattle.ceilings.specs.Own.{IsCeilingOf};
ghost use Rattle.open_calls.specs.Bases.{IsBasis};
ghost use Rattle.open_calls.specs.Firsts.{AreFirsts, IsFirst, first_of};

use crate::basis::Basis;
use crate::first::{FirstCall, first_call, id_payload, id_words};
use crate::service::{Made, Service};
use abs_path::AbsPath;
use ceilings::{CallRule, Ceiling};
use questions::{Call, CallKind, NamespaceType, Payload, Rule, Wish, World};

/// O_RDONLY and O_WRONLY of open(2).
const O_RDONLY: u32 = 0;

const O_WRONLY: u32 = 1;

/// The first calls of some kinds; None if no call of the kind passes.
#[derive(Clone, Copy)]
pub(crate) struct Firsts {
    // stat(2) and similar calls, open(2), open(2) and execve(2)
    pub(crate) see: Option<FirstCall>,
    pub(crate) read: Option<FirstCall>,
    pub(crate) write: Option<FirstCall>,
    pub(crate) exec: Option<FirstCall>,
    // mount(2), umount2(2)
    pub(crate) mount: Option<FirstCall>,
    pub(crate) unmount: Option<FirstCall>,
    // capset(2)
    pub(crate) capset: Option<FirstCall>,
    // setuid(2), setgid(2) and similar calls
    pub(crate) uid: Option<FirstCall>,
    pub(crate) gid: Option<FirstCall>,
}

// The first call of a kind, if some passes.
fn first_if(world: &World<'_>, kind: CallKind, passes: bool) -> Option<FirstCall>
    requires known { passes ≡ lets (launch_of world.now) kind }
    ensures { IsFirst (launch_of world.now) kind result }
{
    if passes {
        Some(first_call(world, kind))
    } else {
        None
    }
}

impl Firsts {
    /// Returns the first calls of a service, by its own ceiling.
    pub(crate) fn of(world: &World<'_>, top: &Ceiling, basis: Basis) -> Firsts
        requires its_own { IsCeilingOf (launch_of world.now) top.now }
        requires its_basis { IsBasis (launch_of world.now) basis }
        ensures { AreFirsts (launch_of world.now) result }
    {
        let paths = top.paths;
        Firsts {
            see: first_if(world, CallKind::ForPath(Wish::See), paths.see),
            read: first_if(world, CallKind::ForPath(Wish::Read), paths.read),
            write: first_if(world, CallKind::ForPath(Wish::Write), paths.write),
            exec: first_if(world, CallKind::ForPath(Wish::Exec), paths.exec),
            mount: first_if(
                world,
                CallKind::ChangesMounts,
                top.rules.let_through(world, CallKind::ChangesMounts),
            ),
            unmount: first_if(
                world,
                CallKind::RemovesMounts,
                top.rules.let_through(world, CallKind::RemovesMounts),
            ),
            capset: first_if(world, CallKind::SetsCaps, basis.sets_caps),
            uid: first_if(world, CallKind::TakesUid, basis.takes_uid),
            gid: first_if(world, CallKind::TakesGid, basis.takes_gid),
        }
    }

    // Returns the first call of the kind, if it is kept.
    fn kept(&self, kind: CallKind) -> Option<FirstCall>
        ensures { (launch : Launch) → AreFirsts launch self.now → IsFirst launch kind result }
    {
        match kind {
            CallKind::ForPath(Wish::See) => self.see,
            CallKind::ForPath(Wish::Read) => self.read,
            CallKind::ForPath(Wish::Write) => self.write,
            CallKind::ForPath(Wish::Exec) => self.exec,
            CallKind::ChangesMounts => self.mount,
            CallKind::RemovesMounts => self.unmount,
            CallKind::SetsCaps => self.capset,
            CallKind::TakesUid => self.uid,
            CallKind::TakesGid => self.gid,
            _ => None,
        }
    }
}

impl Service<'_> {
    /// The first call of a kind.
    pub(crate) fn first(&self, kind: CallKind) -> FirstCall
        requires some_passes { lets (launch_of self.now.world.now) kind ≡ true }
        ensures { result ≡ first_of (launch_of self.now.world.now) kind }
    {
        match self.firsts.kept(kind) {
            Some(first) => first,
            None => first_call(self.world, kind),
        }
    }

    /// The first call of a kind, by process 1, with the words that ask for it.
    pub(crate) fn call_by(&self, kind: CallKind, payload: Payload) -> Call
        requires some_passes { lets (launch_of self.now.world.now) kind ≡ true }
        ensures { result ≡ call_by (launch_of self.now.world.now) kind payload }
    {
        let first = self.first(kind);
        first.with(first.args, payload)
    }

    /// Returns what the first call for a family carries: the family, where the call is socketcall(2).
    pub(crate) fn socket_payload(&self, family: u32) -> Payload
        requires some_passes { lets (launch_of self.now.world.now) (ForFamily family) ≡ true }
        ensures { result ≡ socket_payload (launch_of self.now.world.now) family }
    {
        match self.first(CallKind::ForFamily(family)).rule {
            Rule::Known(CallRule::Socketcall) => Payload::Number(family),
            _ => Payload::Nothing,
        }
    }

    /// Returns what the first call for a wish carries: the path, and with openat2(2) also the flags.
    pub(crate) fn wish_payload(&self, wish: Wish, path: AbsPath) -> Payload
        requires some_passes { lets (launch_of self.now.world.now) (ForPath wish) ≡ true }
        ensures { result ≡ wish_payload (launch_of self.now.world.now) wish path }
    {
        let rule = self.first(CallKind::ForPath(wish)).rule;
        match (wish, rule) {
            (Wish::Read, Rule::Known(CallRule::Openat2)) => Payload::PathFlags(path, O_RDONLY),
            (Wish::Write, Rule::Known(CallRule::Openat2)) => Payload::PathFlags(path, O_WRONLY),
            _ => Payload::OnePath(path),
        }
    }

    /// Returns what the first call for a type of namespace carries: its flag, where the call is clone3(2).
    pub(crate) fn own_payload(&self, kind: NamespaceType) -> Payload
        requires some_passes { lets (launch_of self.now.world.now) (ForNamespace kind) ≡ true }
        ensures { result ≡ own_payload (launch_of self.now.world.now) kind }
    {
        match self.first(CallKind::ForNamespace(kind)).rule {
            Rule::Known(CallRule::Clone3) => Payload::Number(kind.flag()),
            _ => Payload::Nothing,
        }
    }

    /// The call that makes a user namespace, user_namespaces(7).
    pub(crate) fn user_call(&self) -> Call
        requires some_passes { lets (launch_of self.now.world.now) (ForNamespace User) ≡ true }
        ensures { result ≡ user_call (launch_of self.now.world.now) }
    {
        let payload = self.own_payload(NamespaceType::User);
        self.call_by(CallKind::ForNamespace(NamespaceType::User), payload)
    }

    // Returns the number of the process that is in the user namespace: process 1 by unshare(2), else its first child.
    fn pid_inside(&self) -> u32
        requires some_passes { lets (launch_of self.now.world.now) (ForNamespace User) ≡ true }
        ensures { result ≡ pid_inside (launch_of self.now.world.now) }
    {
        match self.first(CallKind::ForNamespace(NamespaceType::User)).rule {
            Rule::Known(CallRule::Unshare) => 1,
            _ => 2,
        }
    }

    /// The first call of a kind, by the process that is in the user namespace.
    pub(crate) fn call_inside(&self, kind: CallKind, payload: Payload) -> Call
        requires some_passes { lets (launch_of self.now.world.now) kind ≡ true }
        requires user_passes { lets (launch_of self.now.world.now) (ForNamespace User) ≡ true }
        ensures { result ≡ call_inside (launch_of self.now.world.now) kind payload }
    {
        let mut call = self.call_by(kind, payload);
        call.pid = self.pid_inside();
        call
    }

    /// The first call of the kind, by process 1, with words or a payload that take the id.
    pub(crate) fn id_call(&self, kind: CallKind, id: u32) -> Made<Call>
        requires some_passes { lets (launch_of self.now.world.now) kind ≡ true }
        ensures { IfOk result (λ call. let line = line_of (launch_of self.now.world.now) kind in
            call ≡ id_call (place_of line) (own_rule line) id) }
    {
        let first = self.first(kind);
        let payload = id_payload(self.alloc, first.rule, id)?;
        Ok(first.with(id_words(first.rule, id), payload))
    }
}
