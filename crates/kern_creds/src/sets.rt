// Two small functions on sets of capabilities, which several calls use.

ghost use Rattle.std.specs.Prelude.{◌≡◌, ◌≤◌, ◌==◌};
ghost use Rattle.cap_sets.specs.Sets.{none, single};

use cap_sets::CapSet;

#[tactic(auto, using(crate::proofs::Words::empty_is_zero))]
pub(crate) fn is_empty(set: CapSet) -> bool
    ensures { result ≡ (set == none) }
{
    set.bits() == 0
}

#[tactic(auto, using(crate::proofs::Words::single_alone))]
pub(crate) fn single(cap: u8) -> CapSet
    requires { cap ≤ 40 }
    ensures { result ≡ single cap }
{
    CapSet::empty().with(cap)
}
