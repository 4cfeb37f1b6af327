// Reads the inputs of a command on a unit.
ghost use Rattle.std.specs.Prelude.{◌≡◌, IfOk, Some};
ghost use Rattle.exec_settings.specs.host_io.Agreeing.{ForFiles};
ghost use Rattle.unit_inputs.specs.command_answers.Asking.{course};
ghost use Rattle.unit_inputs.specs.command_answers.CommandErrors.{Prepares};
ghost use Rattle.exec_settings.specs.unit_names.Cutting.{name_of};
ghost use Rattle.unit_inputs.specs.Asking.{AsksInOrder, input_asks};
ghost use Rattle.unit_inputs.specs.ReadsFor.{ReadsFor};
ghost use Rattle.unit_inputs.specs.Inputs.{input_refusals, inputs_of, inputs_view, kernel_of};

use crate::calls::read_table;
use crate::command_answers::CommandError;
use crate::site::read_site;
use crate::units::read_unit;
use exec_settings::{CallTable, Kernel, Resolved, SiteTable, Version};
use host_io::Shelf;
use std::alloc::Global;

/// The inputs of a command on a unit.
#[derive(Drop)]
pub struct UnitInputs {
    /// The unit with its files in force, read by the rules of the site's systemd.
    pub unit: Box<Resolved>,
    /// The table of system calls from calls.txt, read by the kernel of the site's systemd.
    pub calls: Box<CallTable>,
    /// The site from site.toml.
    pub site: Box<SiteTable>,
}

// Returns the kernel of a site: it is Linux if the site has a version of systemd.
fn kernel_of(systemd: Option<Version>) -> Kernel
    ensures { result ≡ kernel_of systemd }
{
    match systemd {
        None => Kernel::Base,
        Some(_) => Kernel::Linux,
    }
}

/// Reads the inputs of a command on a unit: the unit, as `dropin_merge` resolves it, then calls.txt and site.toml.
///
/// The first refusal decides, and nothing is read after it. The shelf is called in this order, up to the
/// first refusal. Each of the two tables is refused if it is missing or has more than 1 MiB, and then if its text is faulty.
/// `ReadFault` means that the shelf's count of faults rose. A text that is no name of a service is refused without a read.
pub fn read_inputs<S: Shelf>(
    alloc: Global,
    shelf: &mut S,
    unit: &str,
) -> Result<UnitInputs, CommandError>
    ensures reads_by_the_files { ForFiles (S.agrees shelf.new) (λ files. Prepares (λ inputs. inputs_of files unit.now ≡ Some (inputs_view inputs)) (input_refusals files unit.now) result) }
    ensures names_the_unit { IfOk result (λ inputs. name_of unit.now ≡ Some inputs.unit.value.name) }
    ensures asks_in_order { AsksInOrder S.asks (S.agrees shelf.new) (λ files. input_asks files unit.now) shelf.old shelf.new (course result) }
    ensures reads_for_the_unit { ReadsFor S.agrees S.faults unit.now shelf.old shelf.new result }
{
    let mut unit = read_unit(alloc, shelf, unit)?;
    let mut calls = read_table(alloc, shelf)?;
    let site = read_site(alloc, shelf)?;
    unit.read_by(site.systemd());
    calls.known_by(kernel_of(site.systemd()));
    Ok(UnitInputs { unit, calls, site })
}
