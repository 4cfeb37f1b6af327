//! Reads a value of ExecStart= as a known systemd does (systemd.service(5), Command lines).
//!
//! Each prefix may occur once, and specifiers are expanded in the first word alone.
ghost use Rattle.std.specs.Prelude.{◌≡◌, ◌≤◌, length, IfOk};
ghost use Rattle.std.specs.List.{list_any};
ghost use Rattle.exec_settings.specs.Commands.{keeps_privileges};
ghost use Rattle.exec_settings.specs.KnownCommands.{times, has_byte, may_follow, known_count, behind_known, named, known_program_of, known_command, reading_by_program, known_word, known_reading};

use crate::commands::{Command, Program, Reading, read_program};
use cred_settings::{NoteCause, Text, read_words};
use mount_settings::{ExpandError, UnitName, Version, expand};
use std::alloc::{AllocError, Global};

// Returns how often a byte occurs in a text.
fn times(byte: u8, text: &[u8]) -> usize
    ensures { result ≡ times byte text.now }
{
    text.iter().filter(|other| **other == byte).count()
}

fn has_byte(byte: u8, text: &[u8]) -> bool
    ensures { result ≡ has_byte byte text.now }
{
    text.iter().any(|other| *other == byte)
}

fn keeps_privileges(prefixes: &[u8]) -> bool
    ensures { result ≡ list_any keeps_privileges prefixes.now }
{
    prefixes.iter().any(|byte| *byte == b'+' || *byte == b'!')
}

// Returns whether a byte is a prefix after these prefixes.
fn may_follow(before: &[u8], byte: u8) -> bool
    ensures { result ≡ may_follow before.now byte }
{
    match byte {
        b'-' | b'@' | b':' => !has_byte(byte, before),
        b'+' => !keeps_privileges(before),
        b'!' => !has_byte(b'+', before) && times(b'!', before) < 2,
        _ => false,
    }
}

// Returns the number of prefixes that a word begins with.
fn count_prefixes(word: &[u8]) -> usize
    ensures counted { result ≡ known_count word.now }
    ensures in_range { result ≤ length word.now }
{
    let mut count = 0;
    while count < word.len() && may_follow(&word[..count], word[count]) {
        count += 1;
    }
    count
}

// Returns the text after the prefixes of a word, which has this number of prefixes.
fn behind_prefixes(word: &str, count: usize) -> &str
    requires { count ≡ known_count word.now }
    ensures { result.now ≡ behind_known word.now }
{
    &word[count..]
}

// Returns the program that a text without a leading slash names: a name that is looked up, or none.
fn named(alloc: Global, text: &str) -> Result<Option<Program>, AllocError>
    ensures { IfOk result (λ program. program ≡ named text.now) }
{
    if text.is_empty() {
        return Ok(Some(Program::Relative));
    }
    if has_byte(b'/', text.as_bytes()) {
        return Ok(None);
    }
    Ok(Some(Program::Named(Text::new(alloc, text)?)))
}

// Reads the program that a text names. None if it cannot be read.
#[tactic(auto, unfolding(crate::specs::KnownCommands::known_program_of))]
fn read_known_program(alloc: Global, text: &str) -> Result<Option<Program>, AllocError>
    ensures { IfOk result (λ program. program ≡ known_program_of text.now) }
{
    match read_program(alloc, text)? {
        Some(Program::Relative) => named(alloc, text),
        program => Ok(program),
    }
}

// Makes the command with these prefixes.
fn command_with(prefixes: &[u8], program: Program) -> Command
    ensures { result ≡ known_command prefixes.now program }
{
    Command {
        is_privileged: has_byte(b'+', prefixes),
        leaves_ids: times(b'!', prefixes) == 1,
        program,
    }
}

// Reads the text after these prefixes.
fn read_known_text(alloc: Global, prefixes: &[u8], text: &str) -> Result<Reading, AllocError>
    ensures { IfOk result (λ reading. reading ≡ reading_by_program prefixes.now (known_program_of text.now)) }
{
    Ok(match read_known_program(alloc, text)? {
        Some(program) => Reading::Launches(command_with(prefixes, program)),
        None => Reading::Noted(NoteCause::Value),
    })
}

// Reads this first word.
fn read_known_word(
    alloc: Global,
    systemd: Option<Version>,
    name: &UnitName,
    word: &str,
) -> Result<Reading, AllocError>
    ensures { IfOk result (λ reading. reading ≡ known_word systemd name.now word.now) }
{
    let bytes = word.as_bytes();
    let count = count_prefixes(bytes);
    match expand(alloc, systemd, name, behind_prefixes(word, count)) {
        Ok(text) => read_known_text(alloc, &bytes[..count], text.as_str()),
        Err(ExpandError::Specifier) => Ok(Reading::Noted(NoteCause::Specifier)),
        Err(ExpandError::Memory) => Err(AllocError),
    }
}

/// Reads a value of ExecStart= as this systemd does.
#[tactic(auto, unfolding(crate::specs::KnownCommands::known_reading))]
pub fn read_known(
    alloc: Global,
    systemd: Option<Version>,
    name: &UnitName,
    text: &str,
) -> Result<Reading, AllocError>
    ensures as_systemd { IfOk result (λ reading. reading ≡ known_reading systemd name.now text.now) }
{
    let Some(words) = read_words(alloc, text)? else {
        return Ok(Reading::Noted(NoteCause::Value));
    };
    match words.list().first() {
        Some(word) => read_known_word(alloc, systemd, name, word.as_str()),
        None => Ok(Reading::Noted(NoteCause::Value)),
    }
}
