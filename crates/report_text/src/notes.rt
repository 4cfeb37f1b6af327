//! Makes the first lines of a report: the unit, and the notes on its files.
ghost use Rattle.std.specs.Prelude.{◌≡◌, IfOk};
ghost use Rattle.report_text.specs.Notes.{note_line, path_at, unit_line};

use exposure_score::{FileNote, Resolved, UnitFile, push_word};
use std::alloc::{AllocError, Global};

/// Returns the first line of a report: the name of the unit, as an escaped word.
pub fn unit_line(alloc: Global, unit: &str) -> Result<Vec<u8>, AllocError>
    ensures names_the_unit { IfOk result (λ line. line.items ≡ unit_line unit.now) }
{
    let mut line = b"unit ".to_vec(alloc)?;
    push_word(&mut line, unit)?;
    line.push(b'\n')?;
    Ok(line)
}

// The path of the file of this number.
fn path_at(files: &[UnitFile], at: usize) -> &str
    ensures { result.now ≡ path_at files.now at }
{
    match files.get(at) {
        Some(file) => file.path.as_str(),
        None => "",
    }
}

/// Returns the line of a note: the file as an escaped word, the line, and why something there has no effect.
pub fn note_line(alloc: Global, unit: &Resolved, note: &FileNote) -> Result<Vec<u8>, AllocError>
    ensures tells_where_and_why { IfOk result (λ line. line.items ≡ note_line unit.now.files note.now) }
{
    let mut line = b"note ".to_vec(alloc)?;
    push_word(&mut line, path_at(unit.files.list(), note.place.file))?;
    let number = note.place.line;
    let cause = note.cause.text();
    let rest = format!(in alloc; " {number} {cause}\n")?;
    line.extend_from_slice(rest.as_bytes())?;
    Ok(line)
}
