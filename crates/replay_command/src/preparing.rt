//! What `replay` reads, and what it takes from that.
ghost use Rattle.std.specs.Prelude.{All, IfOk};
ghost use Rattle.asked_service.specs.host_io.Agreeing.{ForFiles};
ghost use Rattle.asked_service.specs.unit_inputs.command_answers.Asking.{course};
ghost use Rattle.asked_service.specs.unit_inputs.command_answers.CommandErrors.{Prepares};
ghost use Rattle.asked_service.specs.kernel_model.kernel_calls.Calls.{IsCall};
ghost use Rattle.asked_service.specs.unit_inputs.Asking.{AsksInOrder, asks_with_file};
ghost use Rattle.asked_service.specs.unit_inputs.ReadsFor.{ReadsFor};
ghost use Rattle.replay_command.specs.Prepared.{CanBeStarted, IsPrepared, settled_refusals};

use asked_service::{
    Call, CommandError, Script, SettledUnit, fits, read_inputs, read_script, settle,
};
use host_io::Shelf;
use std::alloc::Global;

/// All that a replay starts with.
#[derive(Drop)]
pub struct Prepared {
    /// The unit with its settings.
    pub unit: SettledUnit,
    /// The calls of the script.
    pub script: Script,
}

// What holds of each call is said by a call of `fits`, which changes nothing.
fn calls_fit(script: &[Call])
    ensures { All IsCall script.now }
{
    for call in script {
        fits(call);
    }
}

/// Reads the unit, calls.txt, site.toml and the script, and finds the first refusal of them and of the settings.
pub fn prepare<S: Shelf>(
    alloc: Global,
    shelf: &mut S,
    unit: &str,
    script: &str,
) -> Result<Prepared, CommandError>
    ensures prepares { ForFiles (S.agrees shelf.new) (λ files. Prepares (IsPrepared files unit.now script.now) (settled_refusals files unit.now script.now) result) }
    ensures can_be_started { IfOk result CanBeStarted }
    ensures asks_in_order { AsksInOrder S.asks (S.agrees shelf.new) (λ files. asks_with_file files unit.now script.now) shelf.old shelf.new (course result) }
    ensures reads_for_the_unit { ReadsFor S.agrees S.faults unit.now shelf.old shelf.new result }
{
    let inputs = read_inputs(alloc, shelf, unit)?;
    let made = read_script(alloc, shelf, script, &inputs.calls)?;
    calls_fit(made.list());
    let one = settle(alloc, unit, inputs)?;
    Ok(Prepared {
        unit: one,
        script: made,
    })
}
