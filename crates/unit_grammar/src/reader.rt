// Reads a unit, line by line.
//
// It reads each joined line as soon as the line is whole; `kinds` gives the kind of the line.
ghost use Rattle.std.specs.Prelude.{◌≡◌, ◌≢◌, ◌+◌, ◌∷◌, [], ℕ, List, IfOk, IfErr, Ok, Err, None};
ghost use Rattle.std.specs.Option.{option_map};
ghost use Rattle.unit_grammar.specs.declared.joined.Line.{Line};
ghost use Rattle.unit_grammar.specs.declared.unit.UnitError.TheVariants.{Memory};
ghost use Rattle.unit_grammar.specs.Lines.{joined_lines, parts_from};
ghost use Rattle.unit_grammar.specs.Kinds.{cut_at};
ghost use Rattle.unit_grammar.specs.Reading.{unit_of, unit_of_lines};
ghost use Rattle.unit_grammar.specs.Progress.{IsUnlessMemory, HasRead, Takes, AddsNote, AddsAssignment, StandsBefore, Passes};

use crate::joined::{Line, extend_open};
use crate::kinds::{Kind, kind_of_line};
use crate::notes::{Note, NoteCause, Notes};
use crate::spaces::{continues_line, is_comment_line, trimmed_start};
use crate::texts::Text;
use crate::unit::{Assignment, Assignments, UnitError, UnitText};
use std::alloc::Global;
use std::str;

/// The most assignments that a file may have under its headers.
const MOST_ASSIGNMENTS: usize = 4096;

// Adds a note on a line after the others.
fn add_note(notes: &mut Notes, line: u64, cause: NoteCause) -> Result<(), UnitError>
    ensures { AddsNote notes.old (record { line = line; cause = cause }) result notes.new }
{
    Ok(notes.push(Note { line, cause })?)
}

// Adds an assignment in a section after the others.
fn add_assignment(
    assignments: &mut Assignments,
    alloc: Global,
    line: u64,
    section: &str,
    key: &str,
    value: &str,
) -> Result<(), UnitError>
    ensures { AddsAssignment assignments.old (record { section = section.now; key = key.now; value = value.now; line = line }) result assignments.new }
{
    if assignments.list().len() >= MOST_ASSIGNMENTS {
        return Err(UnitError::TooMany);
    }
    Ok(assignments.push(Assignment {
        section: Text::new(alloc, section)?,
        key: Text::new(alloc, key)?,
        value: Text::new(alloc, value)?,
        line,
    })?)
}

// The state of the reader: the section of the last header, the assignments and notes of the joined lines so far, and the
// line that continues.
#[derive(Drop)]
struct Reader {
    section: Option<Text>,
    assignments: Assignments,
    notes: Notes,
    begun: Option<Line>,
}

impl Reader {
    // Takes the next joined line.
    fn take(&mut self, alloc: Global, number: u64, text: &str) -> Result<(), UnitError>
        ensures taken { (lines : List Line) → HasRead lines self.old.section self.old.assignments self.old.notes
            → Takes lines (record { number = number; text = text.now }) result self.new.section self.new.assignments self.new.notes }
        ensures begun { self.new.begun ≡ self.old.begun }
    {
        match kind_of_line(text) {
            Kind::Skipped => Ok(()),
            Kind::Header(section) => {
                self.section = Some(Text::new(alloc, section)?);
                Ok(())
            }
            Kind::BadHeader => Err(UnitError::BadHeader(number)),
            Kind::NoEquals => add_note(&mut self.notes, number, NoteCause::NoEquals),
            Kind::Assigns(key, value) => match &self.section {
                Some(section) => add_assignment(
                    &mut self.assignments,
                    alloc,
                    number,
                    section.as_str(),
                    key,
                    value,
                ),
                None => add_note(&mut self.notes, number, NoteCause::NoSection),
            },
        }
    }

    // Takes the next part, which ends a joined line or continues in the next line.
    fn take_part(&mut self, alloc: Global, number: u64, part: &str) -> Result<(), UnitError>
        ensures { (lines parts : List Line) → StandsBefore lines self.old.begun (record { number = number; text = part.now } ∷ parts) self.old.section self.old.assignments self.old.notes
            → Passes lines parts result self.new.begun self.new.section self.new.assignments self.new.notes }
    {
        let begun = self.begun.take();
        if continues_line(part) {
            self.begun = Some(extend_open(alloc, begun, number, part)?);
            return Ok(());
        }
        match begun {
            Some(mut line) => {
                line.text.push(part)?;
                self.take(alloc, line.number, line.text.as_str())
            }
            None => self.take(alloc, number, part),
        }
    }

    // Takes the next line of the file.
    fn take_line(&mut self, alloc: Global, number: u64, line: &str) -> Result<(), UnitError>
        ensures { (lines : List Line) (more : List (List ℕ)) → StandsBefore lines self.old.begun (parts_from number (line.now ∷ more)) self.old.section self.old.assignments self.old.notes
            → Passes lines (parts_from (number + 1) more) result self.new.begun self.new.section self.new.assignments self.new.notes }
    {
        let part = trimmed_start(line);
        if is_comment_line(part) {
            return Ok(());
        }
        self.take_part(alloc, number, part)
    }

    // Takes the line that has begun but not ended when the file ends.
    fn take_begun(&mut self, alloc: Global) -> Result<(), UnitError>
        ensures passed { (lines : List Line) → StandsBefore lines self.old.begun [] self.old.section self.old.assignments self.old.notes
            → Passes lines [] result self.new.begun self.new.section self.new.assignments self.new.notes }
        ensures begun { self.new.begun ≡ None }
    {
        match self.begun.take() {
            Some(line) => self.take(alloc, line.number, line.text.as_str()),
            None => Ok(()),
        }
    }

    // Returns the unit that has been read.
    fn unit(self) -> UnitText
        ensures { (lines : List Line) → HasRead lines self.section self.assignments self.notes → unit_of_lines lines ≡ Ok result }
    {
        let Reader {
            assignments,
            notes,
            ..
        } = self;
        UnitText { assignments, notes }
    }
}

// Returns the first line and the text after its LF, if there is one.
fn first_line(text: &str) -> Option<(&str, &str)>
    ensures { option_map (λ sides. (sides.0.now, sides.1.now)) result ≡ cut_at 10 text.now }
{
    text.split_once('\n')
}

// Returns the unit of the lines of a text.
fn read_text(alloc: Global, text: &str) -> Result<UnitText, UnitError>
    ensures { IsUnlessMemory result (unit_of_lines (joined_lines text.now)) }
{
    let mut reader = Reader {
        section: None,
        assignments: Assignments::empty(alloc),
        notes: Notes::empty(alloc),
        begun: None,
    };
    let mut rest = text;
    let mut number = 1;
    while let Some((line, behind)) = first_line(rest) {
        reader.take_line(alloc, number, line)?;
        rest = behind;
        number += 1;
    }
    reader.take_line(alloc, number, rest)?;
    reader.take_begun(alloc)?;
    Ok(reader.unit())
}

// Returns the unit of the bytes.
fn read_bytes(alloc: Global, bytes: &[u8]) -> Result<UnitText, UnitError>
    ensures { IsUnlessMemory result (unit_of bytes.now) }
{
    let Ok(text) = str::from_utf8(bytes) else {
        return Err(UnitError::NotText);
    };
    if bytes.contains(&0) {
        return Err(UnitError::NotText);
    }
    read_text(alloc, text)
}

/// Reads the assignments of a unit file, as systemd.syntax(7) says.
///
/// Lines are split at LF, and white space is space, tab and CR. A line whose first other character is `#` or `;` is
/// skipped. A line that ends in an odd number of backslashes continues in the next, and its last backslash becomes a
/// space. `[NAME]` is a header. Any other line that is not empty assigns the value after its first `=` to the key
/// before it. A line without `=` or without a key gets a note, and so does an assignment before any header.
///
/// `NotText` has precedence: the bytes are not UTF-8 or have a NUL. Then the earlier of two faults decides:
/// `BadHeader` of the first header without its closing bracket, or `TooMany` at the 4,097th assignment under a
/// header, in all sections together.
pub fn read_unit(alloc: Global, bytes: &[u8]) -> Result<UnitText, UnitError>
    ensures reads_the_unit { IfOk result (λ unit. unit_of bytes.now ≡ Ok unit) }
    ensures first_fault { IfErr result (λ error. error ≢ Memory → unit_of bytes.now ≡ Err error) }
{
    read_bytes(alloc, bytes)
}
