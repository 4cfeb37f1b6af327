//! The least list, derived.

ghost use Rattle.std.specs.Prelude.{◌≡◌, ◌↔◌, ℕ, All, IfOk, IfErr, IsErrOf, IsTrue, List, None, Some, length};
ghost use Rattle.asked_service.specs.declared.launching.refusal.Refusal.{Refusal};
ghost use Rattle.asked_service.specs.launching.Launched.{IsNotLaunched};
ghost use Rattle.asked_service.specs.unit_names.Versions.{is_257};
ghost use Rattle.derive_command.specs.trace_profile.Derived.{IsDerived, IsLeast, IsOnlyOne, tried_with};
ghost use Rattle.derive_command.specs.trace_profile.Extended.{extended, open_unit};
ghost use Rattle.derive_command.specs.trace_profile.PlainNames.{HasPlainNames, IsReadFrom};
ghost use Rattle.derive_command.specs.trace_profile.Scripts.{first_seccomp};
ghost use Rattle.derive_command.specs.trace_profile.Searching.{AreServing, DifferInPrograms, IsHeard, IsHeardOf, tried_of};
ghost use Rattle.asked_service.specs.kernel_model.kernel_calls.Calls.{IsCall};

use crate::trace_profile::derived::{DeriveError, Derived, Names};
use crate::trace_profile::extending::extended;
use crate::trace_profile::names::{every_name, marked};
use crate::trace_profile::plain_names::has_plain_names;
use crate::trace_profile::replies::{Heard, hear};
use crate::trace_profile::scripts::first_seccomp;
use crate::trace_profile::searching::Trial;
use crate::trace_profile::used::used_marks;
use asked_service::{
    Call, CallTable, Refusal, Resolved, Script, SiteTable, Version, fits, launch_unit,
};
use std::alloc::{AllocError, Global};

// Names that serve: those that the script uses, which as a rule do, or else all.
fn begin(alloc: Global, trial: &Trial, every: Vec<u32>) -> Result<Vec<u32>, AllocError>
    requires heard { IsHeard trial.now }
    requires serving { AreServing (tried_of trial.now) every.items }
    ensures { IfOk result (λ names. AreServing (tried_of trial.now) names.items) }
{
    let marks = used_marks(alloc, trial.calls, trial.script)?;
    let used = marked(alloc, &every, &marks)?;
    let serves = trial.serves(alloc, &used)?;
    if serves { Ok(used) } else { Ok(every) }
}

// The replies to the script, and what the programs did to its calls, where the unit that allows these names is launched.
fn heard_with(
    alloc: Global,
    unit: &Resolved,
    calls: &CallTable,
    site: &SiteTable,
    names: &[u32],
    script: &[Call],
) -> Result<Heard, Refusal>
    ensures replies { IfOk result (λ heard. IsHeardOf (tried_with unit.now calls.now site.now script.now heard.said.items) names.now heard.fates.items) }
    ensures one_each { IfOk result (λ heard. length heard.said.items ≡ length script.now) }
    ensures a_fate_each { IfOk result (λ heard. length heard.fates.items ≡ length script.now) }
    ensures refused { IfErr result (λ error. IsNotLaunched (extended unit.now calls.now names.now) calls.now site.now error) }
{
    let open = extended(alloc, unit, calls, names)?;
    let mut service = launch_unit(alloc, &open, calls, site)?;
    let heard = hear(alloc, &mut service.world, script)?;
    Ok(heard)
}

// Whether systemd 257 reads the unit.
fn is_257(unit: &Resolved) -> bool
    ensures { result ≡ is_257 unit.now.systemd }
{
    match unit.systemd {
        Some(Version::V257) => true,
        Some(Version::V252) | None => false,
    }
}

// Whether lists of names change nothing but the programs of a launch. With systemd 257 some lists keep capabilities.
fn differ_in_programs(unit: &Resolved, calls: &CallTable) -> bool
    ensures { IsTrue result → DifferInPrograms unit.now calls.now }
{
    if is_257(unit) {
        return false;
    }
    has_plain_names(calls)
}

// The least list, for a script that asks to push no program.
fn derive_open(
    alloc: Global,
    unit: &Resolved,
    calls: &CallTable,
    site: &SiteTable,
    script: &Script,
) -> Result<Derived, Refusal>
    requires pushes_none { first_seccomp calls.now script.now ≡ None }
    ensures least_list { IfOk result (λ derived. IsDerived unit.now calls.now site.now script.now derived.names) }
    ensures refused { IfErr result (IsNotLaunched (open_unit unit.now calls.now) calls.now site.now) }
{
    let every = every_name(alloc, calls)?;
    let heard = heard_with(alloc, unit, calls, site, &every, script.list())?;
    let trial = Trial {
        unit,
        calls,
        site,
        script: script.list(),
        said: &heard.said,
        fates: &heard.fates,
        is_foretold: differ_in_programs(unit, calls),
    };
    let names = trial.least(alloc, begin(alloc, &trial, every)?)?;
    Ok(Derived {
        names: Names::new(names),
    })
}

// The contract of `fits` gives what every call satisfies. The function changes nothing.
fn calls_fit(script: &[Call])
    ensures { All IsCall script.now }
{
    for call in script {
        fits(call);
    }
}

/// Finds the least list of names with which the unit answers the calls of a script like with all names.
///
/// With these names and `@default` allowed, and no other call, the unit is launched. Each call of the script has the reply that
/// it has if every call of the table is allowed. Without any of them the unit is not launched, or some reply differs.
///
/// No other list has these properties, and none of its names is in `@default`. This holds for each table that was read from a
/// file, which has at most 1 MiB, and for any other with plain names. With systemd 257 the list decides about no_new_privs too:
/// then another list has them only if one of the two names capget(2), capset(2) and prctl(2), and the other not all of them.
///
/// Returns `Seccomp` with the first call of the script that asks to push a program, before all else. Returns `NotLaunched` with
/// the refusal of the unit that allows every call. Memory can run out for any unit.
pub fn derive(
    alloc: Global,
    unit: &Resolved,
    calls: &CallTable,
    site: &SiteTable,
    script: &Script,
) -> Result<Derived, DeriveError>
    ensures least_list { IfOk result (λ derived. IsDerived unit.now calls.now site.now script.now derived.names) }
    ensures only_list_over_plain_names { IfOk result (λ derived. HasPlainNames calls.now
        → IsOnlyOne unit.now calls.now site.now script.now derived.names) }
    ensures only_list_over_a_read_table { IfOk result (λ derived. (bytes : List ℕ) → IsReadFrom bytes calls.now
        → IsOnlyOne unit.now calls.now site.now script.now derived.names) }
    ensures seccomp_refusal { (number : ℕ) → IsErrOf result (DeriveError.Seccomp number)
        ↔ (first_seccomp calls.now script.now ≡ Some number) }
    ensures launch_refusal { (why : Refusal) → IsErrOf result (DeriveError.NotLaunched why)
        → IsNotLaunched (open_unit unit.now calls.now) calls.now site.now why }
{
    if let Some(number) = first_seccomp(calls, script.list()) {
        return Err(DeriveError::Seccomp(number));
    }
    // These calls borrow parts of the table and of the site, and so give what every table and every site satisfies.
    calls.look_at();
    let _uid = site.dynamic_uid();
    calls_fit(script.list());
    Ok(derive_open(alloc, unit, calls, site, script)?)
}
