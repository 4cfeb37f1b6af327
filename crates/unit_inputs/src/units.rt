// Reads the unit and writes the lines of its refusals.
ghost use Rattle.std.specs.Prelude.{◌≡◌, IfOk, Some};
ghost use Rattle.exec_settings.specs.host_io.Agreeing.{ForFiles};
ghost use Rattle.exec_settings.specs.dropin_merge.Asking.{resolve_asks};
ghost use Rattle.unit_inputs.specs.command_answers.Asking.{course};
ghost use Rattle.unit_inputs.specs.command_answers.Refusals.{refused_line};
ghost use Rattle.unit_inputs.specs.command_answers.CommandErrors.{HasReadCause, IsAnswer};
ghost use Rattle.exec_settings.specs.unit_names.Cutting.{name_of};
ghost use Rattle.unit_inputs.specs.Asking.{AsksInOrder};
ghost use Rattle.unit_inputs.specs.ReadsFor.{ReadsFor};
ghost use Rattle.unit_inputs.specs.UnitRefusals.{HasNameOrTells, text_cause, unit_in, unit_line};

use crate::command_answers::{CommandError, boxed, refuse, refused_line};
use exec_settings::{NameError, ResolveError, Resolved, UnitError, UnitName, resolve};
use host_io::Shelf;
use std::alloc::{AllocError, Global};

// Writes why the text of a file is refused.
fn text_cause(alloc: Global, fault: UnitError) -> Result<Vec<u8>, AllocError>
    ensures { IfOk result (λ cause. cause.items ≡ text_cause fault) }
{
    match fault {
        UnitError::NotText => b"not-text".to_vec(alloc),
        UnitError::BadHeader(line) => Ok(format!(in alloc; "line {line} header")?.into_bytes()),
        UnitError::TooMany => b"too-many".to_vec(alloc),
        UnitError::Memory => Ok(Vec::new(alloc)),
    }
}

// Returns the line of a file whose text is refused.
fn text_refused(alloc: Global, path: &str, fault: UnitError) -> Result<Vec<u8>, AllocError>
    ensures { IfOk result (λ line. line.items ≡ refused_line path.now (text_cause fault)) }
{
    let cause = text_cause(alloc, fault)?;
    refused_line(alloc, path, cause.as_slice())
}

/// Returns the line of a unit that is not resolved. The line is empty for `ReadFault` and `Memory`.
pub fn unit_line(alloc: Global, unit: &str, refusal: &ResolveError) -> Result<Vec<u8>, AllocError>
    ensures tells_the_refusal { IfOk result (λ line. line.items ≡ unit_line unit.now refusal.now) }
{
    match refusal {
        ResolveError::BadName => refused_line(alloc, unit, b"bad-name"),
        ResolveError::NotFound => refused_line(alloc, unit, b"not-found"),
        ResolveError::Masked => refused_line(alloc, unit, b"masked"),
        ResolveError::DropIns => refused_line(alloc, unit, b"drop-ins"),
        ResolveError::TooLarge(path) => refused_line(alloc, path.as_str(), b"too-large"),
        ResolveError::Text(path, fault) => text_refused(alloc, path.as_str(), *fault),
        ResolveError::ReadFault | ResolveError::Memory => Ok(Vec::new(alloc)),
    }
}

// Refuses a text that is no name of a service. This check reads no file.
fn check_name(alloc: Global, unit: &str) -> Result<(), CommandError>
    ensures has_a_name_or_tells { HasNameOrTells unit.now result }
{
    match UnitName::read(alloc, unit) {
        Ok(_) => Ok(()),
        Err(NameError::BadName) => Err(refuse(refused_line(alloc, unit, b"bad-name"))),
        Err(NameError::Memory) => Err(CommandError::Memory),
    }
}

// Returns the unit of a name, with its files in force.
fn read_files<S: Shelf>(
    alloc: Global,
    shelf: &mut S,
    unit: &str,
) -> Result<Box<Resolved>, CommandError>
    ensures resolves_by_the_files { ForFiles (S.agrees shelf.new) (λ files. IsAnswer (λ resolved. resolved.value) result (unit_in files unit.now)) }
    ensures names_the_unit { IfOk result (λ resolved. name_of unit.now ≡ Some resolved.value.name) }
    ensures asks_in_order { AsksInOrder S.asks (S.agrees shelf.new) (λ files. resolve_asks files unit.now) shelf.old shelf.new (course result) }
    ensures answers_stay { ForFiles (S.agrees shelf.new) (S.agrees shelf.old) }
    ensures fault_rose { HasReadCause (S.faults shelf.old) (S.faults shelf.new) result }
{
    match resolve(alloc, shelf, unit) {
        Ok(resolved) => boxed(alloc, resolved),
        Err(ResolveError::ReadFault) => Err(CommandError::ReadFault),
        Err(ResolveError::Memory) => Err(CommandError::Memory),
        Err(refusal) => Err(refuse(unit_line(alloc, unit, &refusal))),
    }
}

/// Returns the unit of a name, with its files in force. A text that is no name is refused without a read.
pub fn read_unit<S: Shelf>(
    alloc: Global,
    shelf: &mut S,
    unit: &str,
) -> Result<Box<Resolved>, CommandError>
    ensures resolves_by_the_files { ForFiles (S.agrees shelf.new) (λ files. IsAnswer (λ resolved. resolved.value) result (unit_in files unit.now)) }
    ensures names_the_unit { IfOk result (λ resolved. name_of unit.now ≡ Some resolved.value.name) }
    ensures asks_in_order { AsksInOrder S.asks (S.agrees shelf.new) (λ files. resolve_asks files unit.now) shelf.old shelf.new (course result) }
    ensures reads_for_the_unit { ReadsFor S.agrees S.faults unit.now shelf.old shelf.new result }
{
    check_name(alloc, unit)?;
    read_files(alloc, shelf, unit)
}
