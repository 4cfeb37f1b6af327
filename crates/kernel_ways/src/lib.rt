//! States that the ceiling of a launched service is exact: for everything that it leaves open, some list of calls exists.
//!
//! The crate has no code. Each function is a law: its contract states the law over the definitions in `specs/`. The crates that
//! give verdicts and print calls use these definitions.
//!
//! `kernel_laws` has the laws of denied questions, `reach_paths` the laws of what mounts show, and `launcher` describes the
//! service after its launch.
#![tactic(auto)]

ghost use Rattle.kernel_ways.specs.Blindness.{BlindIsExact};
ghost use Rattle.kernel_ways.specs.Entering.{CallsShowInside};
ghost use Rattle.kernel_ways.specs.Exposures.{UnmountsShowRow, UnmountsShowRowAtOnce, TwoMountsShowRows, TwoMountsShowRowsAtOnce};
ghost use Rattle.kernel_ways.specs.Launching.{SettingsPassAlike, LaunchedIsServed, LaunchedRunsProgram};
ghost use Rattle.kernel_ways.specs.Laws.{OpenIsShown, VerdictIsExact, ListedAreFit, QuestionsAreExact, CeilingIsExact};
ghost use Rattle.kernel_ways.specs.Showing.{WaysAreDone, ServedIsSolo, CallsShow, CredsShow};
ghost use Rattle.kernel_ways.specs.Spared.{SparedIdsAreBounded, SparedIdsAreReached};

/// After a launch of a unit's settings, some list of calls shows each question that the ceiling leaves open, and none reaches a
/// question that it closes. So each verdict on the listed questions is exact. So are the ceiling's capabilities, its power, and
/// the statements that a service can get every uid or every gid.
pub fn openness()
    ensures shown { OpenIsShown }
    ensures exact { VerdictIsExact }
    ensures listed { ListedAreFit }
    ensures each_listed { QuestionsAreExact }
    ensures bounds { CeilingIsExact }
{}

/// A launch with programs that decide as the settings' filters leaves a world for which the other laws hold. Its
/// filters pass the calls that set ids, capabilities or mounts by their numbers alone, and a path finds its program.
pub fn launches()
    ensures pass_alike { SettingsPassAlike }
    ensures leave_a_served_world { LaunchedIsServed }
    ensures run_their_program { LaunchedRunsProgram }
{}

/// Lists of calls reach exactly these uids without a use of CAP_SETUID, and exactly these gids without a use of
/// CAP_SETGID.
pub fn spared()
    ensures bounded { SparedIdsAreBounded }
    ensures reached { SparedIdsAreReached }
{}

/// A way is a list of calls of process 1 alone. Ways begin in the launched world, and each of their calls is done. A
/// way shows a question by the credentials that it leads to, by one more call, or by one more call in a user
/// namespace.
pub fn ways()
    ensures begin { ServedIsSolo }
    ensures are_done { WaysAreDone }
    ensures show_by_a_call { CallsShow }
    ensures show_by_credentials { CredsShow }
    ensures show_inside { CallsShowInside }
{}

/// With CAP_SYS_ADMIN process 1 can expose a row: by umount2(2) of what covers it, or by two calls of mount(2). These
/// calls are ways.
pub fn exposures()
    ensures by_unmounts { UnmountsShowRow }
    ensures by_unmounts_at_once { UnmountsShowRowAtOnce }
    ensures by_mounts { TwoMountsShowRows }
    ensures by_mounts_at_once { TwoMountsShowRowsAtOnce }
{}

/// A folder of the host is blind by the launched mount table exactly if no list of calls leads to a world in which a
/// path shows a place below it. If it is not blind, some list of calls, each of them done, leads to such a world.
pub fn blindness()
    ensures exact { BlindIsExact }
{}

pub use launcher::{
    CallData, CallKind, Decision, FilterProgram, LaunchError, Launched, Mentioned, MountSteps,
    NamespaceType, PlanError, Power, Resolved, Settings, SettingsError, Version, Wish, is_read,
    launch, linux_numbers, plan, settings,
};
pub use reach_paths::{Need, is_covered, mount_wish, reach, reach_for};
