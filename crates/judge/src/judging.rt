//! Gives the verdict, by whether the question is open.

ghost use Rattle.std.specs.Prelude.{◌≡◌, ◌↔◌, true, Contains};
ghost use Rattle.ceilings.specs.kernel_laws.Bound.{is_open};
ghost use Rattle.ceilings.specs.kernel_laws.Denied.{IsDenied};
ghost use Rattle.ceilings.specs.kernel_laws.Launched.{IsLaunchedWorld, launch_of};
ghost use Rattle.ceilings.specs.kernel_laws.Questions.{questions};
ghost use Rattle.ceilings.specs.kernel_ways.Laws.{IsServedWorld, IsShown};
ghost use Rattle.ceilings.specs.Own.{IsCeilingOf};

use crate::open::is_open;
use ceilings::{Ceiling, Launched};
use questions::{Question, Verdict};

/// Returns the verdict on a question of the list, for a launched service and its own ceiling.
///
/// The verdict is `Denied` only if no process ever does or has the thing in question, in any run of calls. The calls may come
/// in any order and from any number of processes. They may fork, execute programs, mount, change ids and install filters.
///
/// After a launch of a unit's settings, the verdict is `Open` only if some list of successful calls shows the question. The
/// call takes no memory.
pub fn verdict(launched: &Launched<'_>, ceiling: &Ceiling, question: &Question) -> Verdict
    requires launched { IsLaunchedWorld launched.now.world }
    requires its_own_ceiling { IsCeilingOf (launch_of launched.now.world) ceiling.now }
    requires asked { Contains (questions launched.now.world.calls launched.now.world.site) question.now }
    ensures denied { result ≡ Verdict.Denied → IsDenied launched.now.world question.now }
    ensures open_is_shown { IsServedWorld launched.now.world → result ≡ Verdict.Open → IsShown launched.now.world question.now }
    ensures by_the_rule { (result ≡ Verdict.Open)
        ↔ (is_open (launch_of launched.now.world) question.now ≡ true) }
{
    if is_open(&launched.world, ceiling, question) {
        Verdict::Open
    } else {
        Verdict::Denied
    }
}
