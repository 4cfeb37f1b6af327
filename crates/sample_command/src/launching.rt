//! The launch of a made unit.
ghost use Rattle.std.specs.Prelude.{IfOk};
ghost use Rattle.asked_service.specs.launching.Launched.{IsLaunchedUnit};
ghost use Rattle.sample_command.specs.Accepted.{IsNeverRefused};

use asked_service::{Launched, Refusal, launch_unit};
use sample_inputs::SampleInputs;
use std::alloc::{AllocError, Global};

/// Launches a unit of which nothing is refused: no setting, no path and no launch.
pub fn launch_sample(alloc: Global, inputs: &SampleInputs) -> Result<Launched<'_>, AllocError>
    requires never_refused { IsNeverRefused inputs.now.unit.value inputs.now.calls.value inputs.now.site.value }
    ensures launches { IfOk result (IsLaunchedUnit inputs.now.unit.value inputs.now.calls.value inputs.now.site.value) }
{
    match launch_unit(alloc, &inputs.unit, &inputs.calls, &inputs.site) {
        Ok(service) => Ok(service),
        Err(Refusal::Memory) => Err(AllocError),
        Err(_) => unreachable!(),
    }
}
