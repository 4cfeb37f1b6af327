//! The calls of a launch: process 1 makes them, with the numbers of a table, and contracts see them as steps.

ghost use Rattle.std.specs.Prelude.{◌≡◌, ◌∷◌, [], ◌++◌, map, OnOk};
ghost use Rattle.kernel_laws.specs.Questions.{if_so};
ghost use Rattle.launcher.specs.Launch.{Makes, number_of, first_call, makes, capset_step, prctl_step};

use exec_settings::CapSet;
use kernel_laws::{Call, CallTable, Payload};
use std::alloc::{AllocError, Global};
use std::marker::Model;

// The number that the table has for a name.
fn number_of(table: &CallTable, name: &str) -> u32
    ensures { result ≡ number_of table.now.calls name.now }
{
    table.number(name).unwrap_or(0)
}

/// A call of process 1 by its name with three words; the others are 0.
pub fn first_call(
    table: &CallTable,
    name: &str,
    one: u64,
    two: u64,
    three: u64,
    payload: Payload,
) -> Call
    ensures by_name_with_three_words { result ≡ first_call table.now.calls name.now (one ∷ two ∷ three ∷ 0 ∷ 0 ∷ 0 ∷ []) payload }
{
    Call {
        pid: 1,
        abi: 0,
        nr: number_of(table, name),
        args: [one, two, three, 0, 0, 0],
        payload,
    }
}

/// The call of prctl(2) of this option.
pub fn prctl(table: &CallTable, option: u64, value: u64, third: u64) -> Call
    ensures of_the_option { Makes result ≡ prctl_step table.now.calls option value third }
{
    first_call(table, "prctl", option, value, third, Payload::Nothing)
}

/// The call of capset(2) of these sets.
pub fn capset(table: &CallTable, permitted: CapSet, effective: CapSet, inheritable: CapSet) -> Call
    ensures of_the_sets { Makes result ≡ capset_step table.now.calls permitted effective inheritable }
{
    let sets = Payload::Sets(permitted, effective, inheritable);
    first_call(table, "capset", 0, 0, 0, sets)
}

/// Calls of a launch in their order.
#[derive(Drop)]
pub struct CallSteps {
    calls: Vec<Call>,
}

impl Model for CallSteps {
    ghost use Rattle.std.specs.Prelude.{List, map};
    ghost use Rattle.launcher.specs.Launch.{LaunchStep, Makes};

    ghost Value = { List LaunchStep };

    ghost view = { λ steps. map Makes steps.calls.items };
}

impl CallSteps {
    /// No calls.
    pub fn new(alloc: Global) -> CallSteps
        ensures empty { result ≡ [] }
    {
        CallSteps {
            calls: Vec::new(alloc),
        }
    }

    /// Adds a call after the others.
    pub fn push(&mut self, call: Call) -> Result<(), AllocError>
        ensures goes_last { OnOk result (self.new ≡ self.old ++ Makes call ∷ []) }
    {
        self.calls.push(call)?;
        Ok(())
    }

    /// Adds a call after the others if `wanted` is true.
    pub fn push_if(&mut self, wanted: bool, call: Call) -> Result<(), AllocError>
        ensures goes_last_where_wanted { OnOk result (self.new ≡ self.old ++ if_so wanted (Makes call)) }
    {
        if wanted {
            self.push(call)?;
        }
        Ok(())
    }

    /// The calls in their order.
    pub fn list(&self) -> &[Call]
        ensures all_in_order { map Makes result.now ≡ self.now }
    {
        &self.calls
    }
}
