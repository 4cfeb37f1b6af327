//! The facts of all lines of the table.

ghost use Rattle.std.specs.Prelude.{◌≡◌, ◌≤◌, length, IfOk, IsPermutation};
ghost use Rattle.std.specs.Ordering.{nat_cmp};
ghost use Rattle.std.specs.Cmp.Lexicographic.{slice_cmp};
ghost use Rattle.std.specs.List.Sorted.{IsSortedByKey};
ghost use Rattle.exec_settings.specs.mount_settings.Written.{unit_written};
ghost use Rattle.exposure_score.specs.service_facts.Facts.{told, told_by_lines, AreTests, AreFacts};

use crate::service_facts::line_facts::push_line;
use crate::service_facts::lines::table;
use crate::service_facts::reading::{count_writable, read_sandbox};
use crate::service_facts::sandbox::Sandbox;
use crate::{Fact, FactList, Facts};
use exec_settings::{CallTable, CapSet, Resolved, Settings, SiteTable, written_paths};
use std::alloc::{AllocError, Global};

// Returns the facts of all lines, in the order of the lines.
fn all_facts(alloc: Global, sandbox: &Sandbox, calls: &CallTable) -> Result<Vec<Fact>, AllocError>
    ensures { IfOk result (λ facts. told facts.items ≡ told_by_lines sandbox.now calls.now) }
{
    let mut facts = Vec::new(alloc);
    for line in table() {
        push_line(alloc, sandbox, calls, line, &mut facts)?;
    }
    Ok(facts)
}

fn put_in_order(facts: &mut [Fact])
    ensures the_same { IsPermutation facts.old facts.new }
    ensures by_identifiers { IsSortedByKey (λ fact. fact.id) (slice_cmp nat_cmp) facts.new }
{
    facts.sort_unstable_by(|one, other| one.id.as_str().cmp(other.id.as_str()));
}

// Returns the facts of all lines, in byte order of identifiers.
fn sorted_facts(alloc: Global, sandbox: &Sandbox, calls: &CallTable) -> Result<FactList, AllocError>
    ensures { IfOk result (AreTests sandbox.now calls.now) }
{
    let mut facts = all_facts(alloc, sandbox, calls)?;
    put_in_order(&mut facts);
    Ok(FactList::new(facts))
}

// Puts together what is known of a service.
fn with_settings(
    uid: u32,
    bounding: CapSet,
    ambient: CapSet,
    no_new_privs: bool,
    writable_paths: u32,
    tests: FactList,
) -> Facts
    ensures users { result.uid ≡ uid }
    ensures bounding_set { result.bounding ≡ bounding }
    ensures ambient_set { result.ambient ≡ ambient }
    ensures privileges { result.no_new_privs ≡ no_new_privs }
    ensures paths { result.writable_paths ≡ writable_paths }
    ensures facts { result.tests ≡ tests }
{
    Facts {
        uid,
        bounding,
        ambient,
        no_new_privs,
        writable_paths,
        tests,
    }
}

/// Makes the facts of a unit's settings, by the table of calls and the site. There is one fact for each test that settings
/// decide, in byte order of identifiers. The facts hold besides what stored tests look at. The settings are the unit's own,
/// which are accepted if it writes at most 128 paths.
pub fn facts(
    alloc: Global,
    unit: &Resolved,
    calls: &CallTable,
    site: &SiteTable,
    settings: &Settings,
) -> Result<Facts, AllocError>
    requires few_paths { length (unit_written unit.now) ≤ 128 }
    ensures facts { IfOk result (AreFacts unit.now calls.now settings.now) }
{
    let paths = written_paths(alloc, unit)?.what;
    let sandbox = read_sandbox(alloc, unit, calls, site, settings, &paths)?;
    let tests = sorted_facts(alloc, &sandbox, calls)?;
    let writable = count_writable(paths.list()) as u32;
    Ok(with_settings(
        settings.uid,
        settings.bounding,
        settings.ambient,
        settings.no_new_privs,
        writable,
        tests,
    ))
}
