//! The lines of `why`.
ghost use Rattle.std.specs.Prelude.{◌≡◌, ◌++◌, filter, flat_map, length, IfOk, OnOk};
ghost use Rattle.asked_service.specs.report_text.Notes.{path_at};
ghost use Rattle.why_command.specs.deciding_lines.unit_lines.Without.{is_among, is_place};
ghost use Rattle.why_command.specs.Lines.{by_line, by_lines, lines_at, lines_line, lines_text, place_words, told_unless};

use crate::deciding_lines::unit_lines::{UnitLine, lines};
use asked_service::{Place, Resolved, UnitFile, push_word};
use std::alloc::{AllocError, Global};

// The path of the file of this number.
fn path_at(files: &[UnitFile], at: usize) -> &str
    ensures { result.now ≡ path_at files.now at }
{
    match files.get(at) {
        Some(file) => file.path.as_str(),
        None => "",
    }
}

fn is_place(one: Place, other: Place) -> bool
    ensures { result ≡ is_place one other }
{
    one.file == other.file && one.line == other.line
}

fn is_among(places: &[Place], place: Place) -> bool
    ensures { result ≡ is_among places.now place }
{
    places.iter().any(|one| is_place(*one, place))
}

/// Appends an assignment in force: the file, the line, and what it assigns, each an escaped word.
pub fn push_assignment(
    alloc: Global,
    text: &mut Vec<u8>,
    files: &[UnitFile],
    line: &UnitLine,
) -> Result<(), AllocError>
    ensures tells_where_and_what { OnOk result (text.new.items ≡ text.old.items ++ place_words files.now line.now) }
{
    push_word(text, path_at(files, line.place.file))?;
    let number = line.place.line;
    let middle = format!(in alloc; " {number} ")?;
    text.extend_from_slice(middle.as_bytes())?;
    push_word(text, line.key.as_str())?;
    text.push(b'=')?;
    push_word(text, line.value.as_str())?;
    Ok(())
}

// The line of an assignment.
fn by_line(alloc: Global, files: &[UnitFile], line: &UnitLine) -> Result<Vec<u8>, AllocError>
    ensures { IfOk result (λ told. told.items ≡ by_line files.now line.now) }
{
    let mut told = b"by ".to_vec(alloc)?;
    push_assignment(alloc, &mut told, files, line)?;
    told.push(b'\n')?;
    Ok(told)
}

// Appends an assignment if it is at one of the places.
fn push_if_at(
    alloc: Global,
    text: &mut Vec<u8>,
    files: &[UnitFile],
    places: &[Place],
    line: &UnitLine,
) -> Result<(), AllocError>
    ensures { OnOk result (text.new.items ≡ text.old.items ++ told_unless files.now places.now line.now) }
{
    if is_among(places, line.place) {
        let told = by_line(alloc, files, line)?;
        text.extend_from_slice(&told)?;
    }
    Ok(())
}

// Makes the text of the assignments at the places.
fn by_lines(
    alloc: Global,
    files: &[UnitFile],
    places: &[Place],
    lines: &[UnitLine],
) -> Result<Vec<u8>, AllocError>
    ensures { IfOk result (λ text. text.items ≡ by_lines files.now places.now lines.now) }
{
    let mut text = Vec::new(alloc);
    for line in lines {
        push_if_at(alloc, &mut text, files, places, line)?;
    }
    Ok(text)
}

// The number of these lines at the places.
fn count_at(places: &[Place], lines: &[UnitLine]) -> usize
    ensures { result ≡ length (lines_at places.now lines.now) }
{
    lines
        .iter()
        .filter(|line| is_among(places, line.place))
        .count()
}

// The last line: how many they are.
fn lines_line(alloc: Global, count: usize) -> Result<Vec<u8>, AllocError>
    ensures { IfOk result (λ line. line.items ≡ lines_line count) }
{
    let line = format!(in alloc; "lines {count}\n")?;
    Ok(line.into_bytes())
}

/// The assignments in force of a unit at some places, in the order of files and lines, and how many they are.
pub fn lines_text(alloc: Global, unit: &Resolved, places: &[Place]) -> Result<Vec<u8>, AllocError>
    ensures lines_and_count { IfOk result (λ text. text.items ≡ lines_text unit.now places.now) }
{
    let all = lines(alloc, unit)?;
    let mut text = by_lines(alloc, unit.files.list(), places, &all)?;
    let last = lines_line(alloc, count_at(places, &all))?;
    text.extend_from_slice(&last)?;
    Ok(text)
}
