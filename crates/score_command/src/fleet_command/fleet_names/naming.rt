//! The units of a host.
ghost use Rattle.std.specs.Prelude.{◌≡◌};
ghost use Rattle.unit_inputs.specs.host_io.Agreeing.{ForFiles};
ghost use Rattle.unit_inputs.specs.host_io.Calls.{AsksExactly};
ghost use Rattle.score_command.specs.fleet_command.fleet_names.Answers.{AreNamed, HasCause};
ghost use Rattle.score_command.specs.fleet_command.fleet_names.Asking.{course, names_asks};

use crate::fleet_command::fleet_names::collecting::{collect_all, in_byte_order};
use crate::fleet_command::fleet_names::errors::NamesError;
use host_io::Shelf;
use std::alloc::Global;
use unit_inputs::UnitName;

/// The most units of a host.
const MOST_UNITS: usize = 1024;

/// Lists the units of a host, each once, in byte order: the service names among the files directly in `etc/systemd/system`,
/// `run/systemd/system` and `usr/lib/systemd/system`. A missing folder has no files.
///
/// Returns `TooMany` exactly if one of the folders has more than 4,096 files, or there are more than 1,024 units. Returns
/// `ReadFault` if the shelf's count of faults rose; any other result leaves the count. A folder is checked before the next one
/// is listed. So exactly the folders up to the first with too many files are listed, in this order.
pub fn fleet_names<S: Shelf>(alloc: Global, shelf: &mut S) -> Result<Vec<UnitName>, NamesError>
    ensures names_the_units { ForFiles (S.agrees shelf.new) (λ files. AreNamed files result) }
    ensures asks_in_order { ForFiles (S.agrees shelf.new) (λ files. AsksExactly S.asks shelf.old shelf.new (names_asks files) (course result)) }
    ensures answers_stay { ForFiles (S.agrees shelf.new) (S.agrees shelf.old) }
    ensures fault_rose { HasCause (S.faults shelf.old) (S.faults shelf.new) result }
{
    let units = collect_all(alloc, shelf)?;
    if units.len() > MOST_UNITS {
        return Err(NamesError::TooMany);
    }
    Ok(in_byte_order(alloc, units)?)
}
