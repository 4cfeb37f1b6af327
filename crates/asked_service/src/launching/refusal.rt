//! Why a unit is not launched, with the line of each cause.
ghost use Rattle.std.specs.Prelude.{◌≡◌, IfOk, IsErrOf};
ghost use Rattle.asked_service.specs.launching.Refusals.{StopsUnlessLaunch, TellsRefusal, launch_line, refusal_line};
ghost use Rattle.asked_service.specs.declared.launching.refusal.Refusal.TheVariants.{Memory};

use judge::{LaunchError, PlanError, SettingsError};
use plan_command::{CommandError, ExitStatus, ReadyText, plan_line, refuse, settings_line};
use report_text::{killed_line, privileged_line, refused_line};
use std::alloc::{AllocError, Global};

/// Why a unit is not launched. Each cause comes from the layer that found it.
#[derive(Drop)]
pub enum Refusal {
    /// It has no settings.
    Settings(SettingsError),
    /// Its mounts have no plan.
    Plan(PlanError),
    /// Its program is privileged, or a step of its launch is refused or kills it.
    Launch(LaunchError),
    /// Memory ran out.
    Memory,
}

impl From<AllocError> for Refusal {
    ghost from_gives = { λ _ e. e ≡ Memory };

    fn from(_: AllocError) -> Self {
        Refusal::Memory
    }
}

/// Makes the line of a launch that is refused. If memory runs out in the launch, there is no line.
pub fn launch_line(alloc: Global, error: &LaunchError) -> Result<Vec<u8>, AllocError>
    ensures tells_the_launch { IfOk result (λ line. line.items ≡ launch_line error.now) }
{
    match error {
        LaunchError::PrivilegedProgram(program) => privileged_line(alloc, program),
        LaunchError::Refused { step, errno } => refused_line(alloc, *step, *errno),
        LaunchError::Killed { step } => killed_line(alloc, *step),
        LaunchError::Memory => Ok(Vec::new(alloc)),
    }
}

/// Makes the line of a refusal of the unit of this name. If memory ran out, there is no line.
pub fn refusal_line(alloc: Global, name: &str, refusal: &Refusal) -> Result<Vec<u8>, AllocError>
    ensures tells_the_refusal { IfOk result (λ line. line.items ≡ refusal_line name.now refusal.now) }
{
    match refusal {
        Refusal::Settings(error) => settings_line(alloc, name, error),
        Refusal::Plan(error) => plan_line(alloc, name, error),
        Refusal::Launch(error) => launch_line(alloc, error),
        Refusal::Memory => Ok(Vec::new(alloc)),
    }
}

/// Returns the error of a launch that is refused, which is an answer of its own. A setting and a path of the unit of this name
/// stop a command with their line.
pub fn refused_launch(
    alloc: Global,
    name: &str,
    refusal: Refusal,
) -> Result<LaunchError, CommandError>
    ensures tells { StopsUnlessLaunch name.now refusal result }
    ensures reads_nothing { IsErrOf result CommandError.ReadFault → ⊥ }
{
    match refusal {
        Refusal::Settings(error) => Err(refuse(settings_line(alloc, name, &error))),
        Refusal::Plan(error) => Err(refuse(plan_line(alloc, name, &error))),
        Refusal::Launch(error) => Ok(error),
        Refusal::Memory => Err(CommandError::Memory),
    }
}

/// Makes the text of a launch that is refused, with the exit status after it. A setting and a path of the unit of this name stop
/// a command with their line.
pub fn tell_refusal(alloc: Global, name: &str, refusal: Refusal) -> Result<ReadyText, CommandError>
    ensures tells { TellsRefusal name.now refusal result }
    ensures reads_nothing { IsErrOf result CommandError.ReadFault → ⊥ }
{
    let error = refused_launch(alloc, name, refusal)?;
    Ok(ReadyText {
        text: launch_line(alloc, &error)?,
        status: ExitStatus::LaunchRefused,
    })
}
