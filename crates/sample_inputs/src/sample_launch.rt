//! States that every sample is launched. Its settings and its plan are not refused. A launch without filters, of a
//! program that the plan shows, makes every step.
//!
//! The module has no code: each function's contract is a law over the definitions in `specs/`.

ghost use Rattle.sample_inputs.specs.sample_launch.EndsWell.{PlainLaunchEndsWell, PlainSettingsAreLaunched};
ghost use Rattle.sample_inputs.specs.sample_launch.Planned.{PathsAreNotRefused, ProgramsAreFound};
ghost use Rattle.sample_inputs.specs.sample_launch.Settled.{SettingsAreNotRefused, SettingsAreTheSamples};
ghost use Rattle.sample_inputs.specs.sample_launch.Shown.{ShownBesideMentions, ShownByTheView};

/// The settings of a sample are not refused, and are these.
pub fn settings()
    ensures not_refused { SettingsAreNotRefused }
    ensures are_these { SettingsAreTheSamples }
{}

/// The plan of a sample is not refused, and its program is found on the plan.
pub fn plan()
    ensures not_refused { PathsAreNotRefused }
    ensures finds_its_program { ProgramsAreFound }
{}

/// A launch without filters makes every step, if its program has no set-id bit and no capabilities, and the plan
/// shows the program on a mount that runs programs. So no answer refuses the launch of settings that ask for such a
/// launch.
pub fn launches_end_well()
    ensures ends_well { PlainLaunchEndsWell }
    ensures of_settings { PlainSettingsAreLaunched }
{}

/// A plan shows a program of the host if the view has the program and leaves it executable. This holds wherever no
/// mention is at its path or above it.
pub fn programs_are_shown()
    ensures by_the_view { ShownByTheView }
    ensures beside_mentions { ShownBesideMentions }
{}
