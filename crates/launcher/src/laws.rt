//! The laws of launches. Each is the contract of a function that does nothing.

ghost use Rattle.launcher.specs.Alike.{AlikeReplies, AlikeRuns, FullByOwn, RoomByBounds};
ghost use Rattle.launcher.specs.Conditions.{SettingsCanBeLaunched};
ghost use Rattle.launcher.specs.LaunchesAlike.{LaunchesAlike};
ghost use Rattle.launcher.specs.LaunchedWorlds.{LaunchedIsWorld};
ghost use Rattle.launcher.specs.Launches.{LaunchLeaves};
ghost use Rattle.launcher.specs.Matching.{MatchingLaws};

/// A launch that ends well makes every step. It leaves one process, which lives alone in a namespace of its own, with
/// the programs in their order, the plan as its table, and the credentials of a launched program. By programs of a
/// unit's settings it leaves a world that can be judged.
pub fn launches_leave()
    ensures leaves { LaunchLeaves }
    ensures is_a_launched_world { LaunchedIsWorld }
{}

/// Two worlds that differ only in the programs of the launch, which answer alike, go on alike. That ends at a call of
/// seccomp(2) whose program has room in one of them alone. A program has no room if the service's own programs leave
/// none, and it has room if the bounds of the launch's programs leave some.
pub fn worlds_go_on_alike()
    ensures replies { AlikeReplies }
    ensures runs { AlikeRuns }
    ensures full { FullByOwn }
    ensures room { RoomByBounds }
{}

/// A launch ends in the same way for all programs that answer alike.
pub fn launches_end_alike()
    ensures end_alike { LaunchesAlike }
{}

/// Programs that match the filters of settings decide as the settings say and take no more room than they may. All
/// lists that match answer alike.
pub fn programs_match()
    ensures matching { MatchingLaws }
{}

/// The settings of every unit on a site can be launched. A clause of `plan` says that each plan for short mentions
/// can be mounted.
pub fn settings_can_be_launched()
    ensures of_every_unit { SettingsCanBeLaunched }
{}
