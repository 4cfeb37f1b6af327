//! States a law of comparisons. It is the contract of a function that does nothing.
ghost use Rattle.filter_check.specs.Finding.{OneFinding};

/// A comparison has one result, unless memory runs out.
pub fn one_finding()
    ensures only_one { OneFinding }
{}
