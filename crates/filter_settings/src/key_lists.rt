//! Reads keys whose lines make a list (systemd.exec(5), SystemCallFilter=).
ghost use Rattle.std.specs.Prelude.{◌≡◌, ◌++◌, IfOk};
ghost use Rattle.dropin_merge.specs.unit_values.Listed.{unit_listed, unit_listed_notes};
ghost use Rattle.filter_settings.specs.Lines.{in_force};

use call_table::CallTable;
use dropin_merge::unit_values::{FileNote, Listed, Said, lines_of_key};
use dropin_merge::{Resolved, Version};
use std::alloc::{AllocError, Global};

/// A list that the lines of a key make.
pub trait KeyList: Drop {
    ghost use Rattle.std.specs.Prelude.{◌≡◌, ◌++◌, Option, List, IfOk, OnOk};
    ghost use Rattle.dropin_merge.specs.unit_names.declared.version.Version.{Version};
    ghost use Rattle.dropin_merge.specs.declared.unit_values.listed.Listed.{Listed};
    ghost use Rattle.dropin_merge.specs.declared.unit_values.value.FileNote.{FileNote};
    ghost use Rattle.call_table.specs.Table.{Table};
    ghost use Rattle.filter_settings.specs.Lines.{in_force};

    /// The list of these lines.
    ghost list_of: { Option Version → Table → List Listed → Option Self };

    /// The notes on the words of all lines.
    ghost notes_of: { Option Version → Table → List Listed → List FileNote };

    /// Returns the list of the lines that are in force, by the rules of this systemd. It notes the words of all lines.
    fn read(
        alloc: Global,
        systemd: Option<Version>,
        table: &CallTable,
        all: &[Listed],
        notes: &mut Vec<FileNote>,
    ) -> Result<Option<Self>, AllocError>
        ensures means { IfOk result (λ list. list ≡ list_of systemd table.now (in_force all.now)) }
        ensures noted { OnOk result (notes.new.items ≡ notes.old.items ++ notes_of systemd table.now all.now) };
}

/// Returns the list that the files of a unit give to such a key, with its notes.
pub fn list_of_key<L: KeyList>(
    alloc: Global,
    unit: &Resolved,
    table: &CallTable,
    key: &str,
) -> Result<Said<Option<L>>, AllocError>
    ensures means { IfOk result (λ said. said.what ≡ L.list_of unit.now.systemd table.now (in_force (unit_listed unit.now key.now))) }
    ensures noted { IfOk result (λ said. said.notes.items ≡ unit_listed_notes unit.now key.now ++ L.notes_of unit.now.systemd table.now (unit_listed unit.now key.now)) }
{
    let Said {
        what: all,
        mut notes,
    } = lines_of_key(alloc, unit, key)?;
    let what = L::read(alloc, unit.systemd, table, all.as_slice(), &mut notes)?;
    Ok(Said { what, notes })
}
