//! Performs a call of a process, once the process's filter programs let it through.

ghost use Rattle.std.specs.Prelude.{◌≡◌, ◌<◌, false, length, IfOk, IsOk, OnErr};
ghost use Rattle.std.specs.List.{AllByRecursion};
ghost use Rattle.kernel_model.specs.kernel_calls.Seen.{seen};
ghost use Rattle.kernel_model.specs.Memory.{asks_for_room, takes_operation};
ghost use Rattle.kernel_model.specs.Parts.{Left, UnlessReplied};
ghost use Rattle.kernel_model.specs.State.{world_with, effect_in, AtPlace};
ghost use Rattle.kernel_model.specs.Step.{applied};
ghost use Rattle.kernel_model.specs.Worlds.{HasSpace};

use crate::kernel_calls::Operation;
use crate::outcome::Outcome;
use crate::perform::perform;
use crate::reply::Reply;
use crate::state::State;
use crate::told::Told;
use std::alloc::{AllocError, Global};

impl State {
    // Performs the part of a call that changes only the process at this place and its table.
    fn perform_there(
        &mut self,
        alloc: Global,
        told: &Told<'_>,
        place: usize,
        operation: &Operation<'_>,
    ) -> Result<Outcome, AllocError>
        requires there { place < length self.old.processes }
        requires spaces { AllByRecursion (HasSpace (length self.old.namespaces)) self.old.processes }
        ensures performs { IfOk result (λ outcome. AtPlace self.old place (λ pid process.
            Left (world_with told.now self.old) pid process outcome (world_with told.now self.new)
            (effect_in (world_with told.now self.old) process (seen operation.now)))) }
        ensures stays_where_more_is_to_be_made { IfOk result (λ outcome. UnlessReplied outcome (self.new ≡ self.old)) }
        ensures needs_no_memory { asks_for_room (seen operation.now) ≡ false → IsOk result }
        ensures stays { OnErr result (self.new ≡ self.old) }
    {
        let at = self.namespace_place(place);
        let owns = self.namespaces[at].owner == self.processes[place].user;
        perform(
            alloc,
            told,
            &mut self.processes[place],
            &mut self.namespaces[at].table,
            owns,
            operation,
        )
    }

    /// Performs a call of the process at this place.
    pub fn perform(
        &mut self,
        alloc: Global,
        told: &Told<'_>,
        place: usize,
        operation: &Operation<'_>,
    ) -> Result<Reply, AllocError>
        requires there { place < length self.old.processes }
        requires spaces { AllByRecursion (HasSpace (length self.old.namespaces)) self.old.processes }
        ensures performs { IfOk result (λ reply. AtPlace self.old place (λ pid process.
            (reply, world_with told.now self.new) ≡ applied (world_with told.now self.old) pid process
            (effect_in (world_with told.now self.old) process (seen operation.now)))) }
        ensures needs_no_memory { AtPlace self.old place (λ pid process. takes_operation (world_with told.now self.old) process (seen operation.now) ≡ false → IsOk result) }
        ensures stays { OnErr result (self.new ≡ self.old) }
    {
        match self.perform_there(alloc, told, place, operation)? {
            Outcome::Replied(reply) => Ok(reply),
            Outcome::MakesChild { own_mounts: own } => self.make_child(place, own),
            Outcome::MakesTable => self.make_table(place),
            Outcome::MakesUserChild { own_mounts: own } => self.make_user_child(told, place, own),
            Outcome::MakesOwnUser { own_mounts: own } => self.make_own_user(told, place, own),
        }
    }
}
