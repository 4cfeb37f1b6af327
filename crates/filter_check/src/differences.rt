//! Finds differences of two programs, and the lesser of two differences.
ghost use Rattle.std.specs.Bool.{OnTrue};
ghost use Rattle.filter_check.specs.Differing.{IsLesserAt, IsPassed};

use crate::filter_paths::{End, Region};
use crate::order::comes_before;
use seccomp_compile::CallData;

/// Call data on which two programs answer differently, and both answers.
#[derive(Clone, Copy)]
pub struct Difference {
    pub at: CallData,
    pub theirs: u32,
    pub ours: u32,
}

/// Returns the lesser of the earlier difference and the end's own, if the end has another answer than theirs.
pub fn lesser(old: Option<Difference>, end: &End, theirs: u32) -> Option<Difference>
    ensures { IsLesserAt end.now theirs old result }
{
    if end.answer == theirs {
        return old;
    }
    let new = Difference {
        at: end.least,
        theirs,
        ours: end.answer,
    };
    match old {
        None => Some(new),
        Some(old) => {
            if comes_before(&new.at, &old.at) {
                Some(new)
            } else {
                Some(old)
            }
        }
    }
}

/// Returns whether a difference is known, and no data of the region precede it.
pub fn is_passed(old: Option<Difference>, region: &Region) -> bool
    ensures passed { OnTrue result (IsPassed old region.now) }
{
    match old {
        None => false,
        Some(old) => !comes_before(&region.least(), &old.at),
    }
}
