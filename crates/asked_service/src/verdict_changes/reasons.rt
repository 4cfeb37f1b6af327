//! Why the changes that are found are those that are.
ghost use Rattle.asked_service.specs.verdict_changes.ByRule.{ChangesAreTrue};

use crate::reasons::truths;
use judge::kernel_ways_blindness as blindness;

/// The changes from one launched service to another are exactly those that are found.
pub fn changes_are_true()
    ensures exactly_what_changes { ChangesAreTrue }
{
    truths();
    blindness();
}
