//! The laws of launches. Each is the contract of a function that does nothing.

ghost use Rattle.asked_service.specs.OneLaunch.{LaunchesOnce};

/// A unit over one table of calls and one site has one answer. A launch and a refusal exclude each other. Two
/// refusals are the same: the first setting, the first path, or the launch that is refused. Two services take the
/// same number of steps, and their worlds differ only in the programs of the launch, which answer alike.
pub fn one_launch()
    ensures one_answer { LaunchesOnce }
{}
