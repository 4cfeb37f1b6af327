//! Tests which questions are open.

ghost use Rattle.std.specs.Prelude.{◌≡◌};
ghost use Rattle.ceilings.specs.kernel_laws.Bound.{is_open};
ghost use Rattle.ceilings.specs.kernel_laws.Launched.{IsLaunchedWorld, launch_of};
ghost use Rattle.ceilings.specs.Own.{IsCeilingOf};

use crate::ids::{is_gid_open, is_uid_open};
use crate::lines::{is_call_open, is_namespace_open, is_realtime_open, is_socket_open, passes};
use crate::rows::{can_create, is_path_open};
use ceilings::{Ceiling, attaching, refuses_memory};
use questions::{CallKind, Question, World};

// Returns whether the question is open, by the ceiling of the launched world and the calls that its filters let
// through.
pub(crate) fn is_open(world: &World<'_>, ceiling: &Ceiling, question: &Question) -> bool
    requires launched { IsLaunchedWorld world.now }
    requires its_own_ceiling { IsCeilingOf (launch_of world.now) ceiling.now }
    ensures { result ≡ is_open (launch_of world.now) question.now }
{
    match question {
        Question::Path(wish, at) => is_path_open(world, ceiling, *wish, *at),
        Question::Call(at) => is_call_open(world, ceiling, *at),
        Question::Socket(at) => is_socket_open(world, ceiling, *at),
        Question::Namespace(kind) => is_namespace_open(world, ceiling, *kind),
        Question::MapWx => !refuses_memory(world) && passes(world, ceiling, CallKind::MapsWx),
        Question::ProtectX => passes(world, ceiling, CallKind::ProtectsX),
        Question::ShmX => passes(world, ceiling, attaching(world)),
        Question::Realtime => is_realtime_open(world, ceiling),
        Question::Personality => passes(world, ceiling, CallKind::TakesPersonality),
        Question::SuidBit => {
            passes(world, ceiling, CallKind::SetsMode)
                || passes(world, ceiling, CallKind::OpensMode)
                || ceiling.paths.submit
                || can_create(world, ceiling)
        }
        Question::Cap(cap) => ceiling.effective.contains(*cap),
        Question::Uid(id) => is_uid_open(ceiling, *id),
        Question::Gid(id) => is_gid_open(ceiling, *id),
    }
}
