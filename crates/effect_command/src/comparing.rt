//! The text for two launches.
ghost use Rattle.std.specs.Prelude.{◌≡◌, Err, IfOk, Ok};
ghost use Rattle.asked_service.specs.call_table.Table.{Table};
ghost use Rattle.asked_service.specs.unit_inputs.declared.command_answers.exit_status.ExitStatus.TheVariants.{Done, LaunchRefused};
ghost use Rattle.asked_service.specs.site_table.Table.{Site};
ghost use Rattle.asked_service.specs.launching.Refusals.{launch_line};
ghost use Rattle.asked_service.specs.Asking.{IsAsked, world_in};
ghost use Rattle.effect_command.specs.Lines.{with_line};
ghost use Rattle.effect_command.specs.Prints.{TellsBoth};
ghost use Rattle.asked_service.specs.unit_inputs.command_answers.ReadyTexts.{IsReadyWith};
ghost use Rattle.effect_command.specs.Told.{told_text};
ghost use Rattle.effect_command.specs.Stopping.{AreTogether, IsOver, StartTogether, StartsOver};

use crate::lines::with_line;
use crate::telling::effect_text;
use asked_service::verdict_changes::changes_are_true;
use asked_service::{
    Asked, CommandError, ExitStatus, LaunchError, Launched, ReadyText, ask, launch_line,
};
use std::alloc::Global;

// The line of a launch of the unit that is refused.
fn tell_refused(alloc: Global, error: &LaunchError) -> Result<ReadyText, CommandError>
    ensures { IsReadyWith (λ status text. (status ≡ LaunchRefused) × (text ≡ launch_line error.now)) result }
{
    Ok(ReadyText {
        text: launch_line(alloc, error)?,
        status: ExitStatus::LaunchRefused,
    })
}

// The text for a refused launch of the unit with the drop-in.
fn tell_refused_with(alloc: Global, error: &LaunchError) -> Result<ReadyText, CommandError>
    ensures { IsReadyWith (λ status text. (status ≡ LaunchRefused) × (text ≡ with_line (launch_line error.now))) result }
{
    let line = launch_line(alloc, error)?;
    Ok(ReadyText {
        text: with_line(alloc, line.as_slice())?,
        status: ExitStatus::LaunchRefused,
    })
}

// What changes from one service to another, each with all questions about it.
fn compare_asked(
    alloc: Global,
    first: &Asked<'_>,
    second: &Asked<'_>,
) -> Result<ReadyText, CommandError>
    requires before { IsAsked first.now }
    requires after { IsAsked second.now }
    requires same_calls { (world_in first.now).calls ≡ (world_in second.now).calls }
    requires same_site { (world_in first.now).site ≡ (world_in second.now).site }
    ensures { IsReadyWith (λ status text. (status ≡ Done) × (text ≡ told_text first.now second.now)) result }
{
    Ok(ReadyText {
        text: effect_text(alloc, first, second)?,
        status: ExitStatus::Done,
    })
}

// What changes to another service.
fn compare_after(
    alloc: Global,
    first: &Asked<'_>,
    after: Launched<'_>,
) -> Result<ReadyText, CommandError>
    requires before { IsAsked first.now }
    requires together { AreTogether first.now.bounded.service after }
    ensures { (table : Table) (site : Site) → IsOver table site first.now.bounded.service → IsOver table site after.entry
        → IsReadyWith (TellsBoth table site (Ok first.now.bounded.service) (Ok after.entry)) result }
{
    // Why the changes are true.
    changes_are_true();
    let second = ask(alloc, after)?;
    compare_asked(alloc, first, &second)
}

// What changes from one service to another.
fn compare_services(
    alloc: Global,
    before: Launched<'_>,
    after: Launched<'_>,
) -> Result<ReadyText, CommandError>
    requires together { AreTogether before after }
    ensures { (table : Table) (site : Site) → IsOver table site before.entry → IsOver table site after.entry
        → IsReadyWith (TellsBoth table site (Ok before.entry) (Ok after.entry)) result }
{
    let first = ask(alloc, before)?;
    compare_after(alloc, &first, after)
}

// The same, where the unit with the drop-in may not be launched.
fn compare_with(
    alloc: Global,
    before: Launched<'_>,
    second: Result<Launched<'_>, LaunchError>,
) -> Result<ReadyText, CommandError>
    requires together { StartTogether (Ok before) second }
    ensures { (table : Table) (site : Site) → IsOver table site before.entry → StartsOver table site second.entry → IsReadyWith (TellsBoth table site (Ok before.entry) second.entry) result }
{
    match second {
        Ok(after) => compare_services(alloc, before, after),
        Err(error) => tell_refused_with(alloc, &error),
    }
}

/// Makes the text for a unit's launch and its launch with the drop-in: the line of the first refused launch, or the changes
/// from one service to the other.
pub fn compare(
    alloc: Global,
    first: Result<Launched<'_>, LaunchError>,
    second: Result<Launched<'_>, LaunchError>,
) -> Result<ReadyText, CommandError>
    requires together { StartTogether first second }
    ensures tells { (table : Table) (site : Site) → StartsOver table site first.entry → StartsOver table site second.entry → IsReadyWith (TellsBoth table site first.entry second.entry) result }
{
    match first {
        Ok(before) => compare_with(alloc, before, second),
        Err(error) => tell_refused(alloc, &error),
    }
}
