//! How many of the answers are denied.
ghost use Rattle.std.specs.Prelude.{◌≡◌};
ghost use Rattle.judge_command.specs.Asked.{denied_once};

use questions::Verdict;

/// How many of one answer are denied.
pub(crate) fn denied_once(found: Verdict) -> usize
    ensures { result ≡ denied_once found }
{
    match found {
        Verdict::Denied => 1,
        Verdict::Open => 0,
    }
}
