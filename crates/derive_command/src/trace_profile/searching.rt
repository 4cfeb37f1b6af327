//! The search for the least list of names.

ghost use Rattle.std.specs.Prelude.{◌≡◌, ◌≢◌, IfOk, IfSome, false};
ghost use Rattle.asked_service.specs.kernel_model.Runs.{replies};
ghost use Rattle.derive_command.specs.trace_profile.Derived.{IsLeast, Tells};
ghost use Rattle.asked_service.specs.declared.launching.refusal.Refusal.TheVariants.{Memory};
ghost use Rattle.derive_command.specs.trace_profile.Names.{AreNames};
ghost use Rattle.derive_command.specs.trace_profile.Replies.{Compares};
ghost use Rattle.derive_command.specs.trace_profile.Searching.{AreKept, AreServing, IsHeard, LaunchedBy, LeavesOut, tried_of};

use crate::trace_profile::extending::extended;
use crate::trace_profile::fates::Fate;
use crate::trace_profile::foretelling::foretell;
use crate::trace_profile::names::without;
use crate::trace_profile::replies::are_replies;
use asked_service::{Call, CallTable, Launched, Refusal, Reply, Resolved, SiteTable, launch_unit};
use std::alloc::{AllocError, Global};

/// What lists of names are tried on.
#[derive(Drop)]
pub struct Trial<'a> {
    /// The unit that is extended.
    pub unit: &'a Resolved,
    /// The table that has the names.
    pub calls: &'a CallTable,
    /// The host.
    pub site: &'a SiteTable,
    /// The calls that are made.
    pub script: &'a [Call],
    /// The replies that they are to have, one each.
    pub said: &'a [Reply],
    /// What the programs of the service that has these replies do to the calls.
    pub fates: &'a [Fate],
    /// Whether lists of names change nothing but the programs of a launch.
    pub is_foretold: bool,
}

// A unit that is not launched does not serve. If memory runs out, that says nothing of the unit.
fn fails(error: Refusal) -> Result<bool, AllocError>
    ensures { IfOk result (λ serves. (serves ≡ false) × (error ≢ Memory)) }
{
    match error {
        Refusal::Memory => Err(AllocError),
        _ => Ok(false),
    }
}

impl<'a> Trial<'a> {
    // Whether the service has the replies, where its programs alone tell. No call is made.
    fn foretells(&self, service: &Launched<'_>) -> Option<bool>
        requires heard { IsHeard self.now }
        requires launched { LaunchedBy (tried_of self.now) service.now }
        ensures { IfSome result (Compares (replies service.now.world self.now.script.now) self.now.said.now) }
    {
        // These calls borrow parts of the table and of the site, and so give what every table and every site satisfies.
        self.calls.look_at();
        let _uid = self.site.dynamic_uid();
        if !self.is_foretold {
            return None;
        }
        match service.world.process(1) {
            Some(process) => foretell(
                self.calls,
                &process.stack,
                self.script,
                self.fates,
                self.said,
            ),
            None => None,
        }
    }

    // Whether the service has the replies.
    fn replies_so(&self, alloc: Global, mut service: Launched<'_>) -> Result<bool, AllocError>
        requires heard { IsHeard self.now }
        requires launched { LaunchedBy (tried_of self.now) service }
        ensures { IfOk result (Compares (replies service.entry.world self.now.script.now) self.now.said.now) }
    {
        match self.foretells(&service) {
            Some(tells) => Ok(tells),
            None => are_replies(alloc, &mut service.world, self.script, self.said),
        }
    }

    /// Whether the unit with these names is launched and replies so.
    pub fn serves(&self, alloc: Global, names: &[u32]) -> Result<bool, AllocError>
        requires heard { IsHeard self.now }
        requires are_names { AreNames self.now.calls.now names.now }
        ensures tells_whether_they_serve { IfOk result (Tells (tried_of self.now) names.now) }
    {
        let unit = extended(alloc, self.unit, self.calls, names)?;
        match launch_unit(alloc, &unit, self.calls, self.site) {
            Ok(service) => self.replies_so(alloc, service),
            Err(error) => fails(error),
        }
    }

    // Leaves out a name for good, where the others serve.
    fn leave_out(&self, alloc: Global, names: Vec<u32>, name: u32) -> Result<Vec<u32>, AllocError>
        requires heard { IsHeard self.now }
        requires are_names { AreNames self.now.calls.now names.items }
        ensures { IfOk result (λ left. LeavesOut (tried_of self.now) names.items name left.items) }
    {
        let fewer = without(alloc, &names, name)?;
        let serves = self.serves(alloc, &fewer)?;
        if serves { Ok(fewer) } else { Ok(names) }
    }

    // Leaves out each name in turn, for good where the others serve.
    fn keep_needed(&self, alloc: Global, names: &[u32]) -> Result<Vec<u32>, AllocError>
        requires heard { IsHeard self.now }
        requires serving { AreServing (tried_of self.now) names.now }
        ensures { IfOk result (λ kept. AreKept (tried_of self.now) names.now names.now kept.items) }
    {
        let mut kept = names.to_vec(alloc)?;
        for name in names {
            let left = self.leave_out(alloc, kept, *name)?;
            kept = left;
        }
        Ok(kept)
    }

    /// The names that are left where no more can be left out. As a rule the second round leaves out none.
    pub fn least(&self, alloc: Global, names: Vec<u32>) -> Result<Vec<u32>, AllocError>
        requires heard { IsHeard self.now }
        requires serving { AreServing (tried_of self.now) names.items }
        ensures none_can_be_left_out { IfOk result (λ left. IsLeast (tried_of self.now) left.items) }
    {
        let kept = self.keep_needed(alloc, &names)?;
        if kept.len() == names.len() {
            Ok(kept)
        } else {
            self.least(alloc, kept)
        }
    }
}
