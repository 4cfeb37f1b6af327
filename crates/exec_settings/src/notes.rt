//! Collects the notes on the text of a unit, and puts all notes in order.
ghost use Rattle.std.specs.Prelude.{◌≡◌, ◌++◌, IsPermutation, IfOk, OnOk};
ghost use Rattle.std.specs.List.Sorted.{IsSortedByKey, IsStableByKey};
ghost use Rattle.exec_settings.specs.Notes.{grammar_notes, grammar_notes_in, text_notes};
ghost use Rattle.exec_settings.specs.Order.{place_cmp, place_of};

use crate::judged::note_unjudged;
use cred_settings::{FileNote, Place, Resolved, UnitFile};
use std::alloc::{AllocError, Global};

// Adds the notes of the grammar on one file.
fn add_notes_in(number: usize, file: &UnitFile, notes: &mut Vec<FileNote>) -> Result<(), AllocError>
    ensures { OnOk result (notes.new.items ≡ notes.old.items ++ grammar_notes_in number file.now) }
{
    let list = file.text.notes.list();
    for note in list {
        notes.push(FileNote {
            place: Place {
                file: number,
                line: note.line,
            },
            cause: note.cause,
        })?;
    }
    Ok(())
}

// Adds the notes of the grammar on the files of a unit.
#[tactic(auto, unfolding(crate::specs::Notes::grammar_notes))]
fn add_grammar_notes(unit: &Resolved, notes: &mut Vec<FileNote>) -> Result<(), AllocError>
    ensures adds_each { OnOk result (notes.new.items ≡ notes.old.items ++ grammar_notes unit.now) }
{
    let files = unit.files.list();
    for number in 0..files.len() {
        add_notes_in(number, &files[number], notes)?;
    }
    Ok(())
}

/// Returns the notes on the text of a unit: first the notes of the grammar, then the notes on keys that are not judged.
#[tactic(auto, unfolding(crate::specs::Notes::text_notes))]
pub fn text_notes(alloc: Global, unit: &Resolved) -> Result<Vec<FileNote>, AllocError>
    ensures of_the_unit { IfOk result (λ notes. notes.items ≡ text_notes unit.now) }
{
    let mut notes = Vec::new(alloc);
    add_grammar_notes(unit, &mut notes)?;
    note_unjudged(unit, &mut notes)?;
    Ok(notes)
}

/// Sorts notes by files and lines. Notes on one line keep their order.
pub fn put_in_order(notes: &mut Vec<FileNote>) -> Result<(), AllocError>
    ensures the_same { IsPermutation notes.old.items notes.new.items }
    ensures by_files_and_lines { OnOk result (IsSortedByKey place_of place_cmp notes.new.items) }
    ensures as_they_stood { IsStableByKey place_of place_cmp notes.old.items notes.new.items }
{
    notes.sort_by_key(|note| (note.place.file, note.place.line))
}
