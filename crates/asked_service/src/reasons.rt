//! Why a report is true.
ghost use Rattle.asked_service.specs.ByRule.{AnswersAreTrue, BlindFoldersAreNamed};

use judge::{kernel_ways_blindness as blindness, openness};
use open_calls::chosen_calls::choices;

/// The answers about a launched service are true, and the named folders are those that it is blind to.
pub fn truths()
    ensures answers { AnswersAreTrue }
    ensures folders { BlindFoldersAreNamed }
{
    openness();
    choices();
    blindness();
}
