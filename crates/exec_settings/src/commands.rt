//! Reads a value of ExecStart= by the rules of the base profile (systemd.service(5)).
//!
//! Only the first word of a value is read: the prefixes, and the path of the program after them.
ghost use Rattle.std.specs.Prelude.{◌≡◌, IfOk};
ghost use Rattle.std.specs.List.{list_any, prefix_len};
ghost use Rattle.exec_settings.specs.Commands.{is_prefix, keeps_privileges, prefixes_of, behind_prefixes, program_of, command_of_word, command_of};

use abs_path::{AbsPath, PathError};
use cred_settings::{NoteCause, Text, read_words};
use std::alloc::{AllocError, Global};

/// The greatest number of bytes in the path of a setting.
const LONGEST: usize = 250;

/// The program of a command.
#[derive(Drop)]
pub enum Program {
    /// The path of a program.
    Absolute(AbsPath),
    /// A text that is not an absolute path.
    Relative,
    /// The name of a program, which is looked up in the search path.
    Named(Text),
}

/// The first word of a command.
#[derive(Drop)]
pub struct Command {
    /// Whether a prefix keeps privileges: `+`, and for a unit without a version also `!`.
    pub is_privileged: bool,
    /// Whether the prefix `!` leaves the ids as they are. Only a version of systemd reads it so.
    pub leaves_ids: bool,
    /// The text after the prefixes.
    pub program: Program,
}

/// Says whether a value is a command.
#[derive(Drop)]
pub enum Reading {
    /// The value is this command.
    Launches(Command),
    /// The value is not a command, and is noted for this cause.
    Noted(NoteCause),
}

fn keeps_privileges(byte: u8) -> bool
    ensures { result ≡ keeps_privileges byte }
{
    byte == b'+' || byte == b'!'
}

fn is_prefix(byte: u8) -> bool
    ensures { result ≡ is_prefix byte }
{
    byte == b'-' || byte == b':' || byte == b'@' || keeps_privileges(byte)
}

// Returns the number of prefixes that a word begins with.
fn count_prefixes(word: &[u8]) -> usize
    ensures { result ≡ prefix_len is_prefix word.now }
{
    word.iter().take_while(|byte| is_prefix(**byte)).count()
}

// Returns whether one of these prefixes keeps privileges.
fn keep_privileges(prefixes: &[u8]) -> bool
    ensures { result ≡ list_any keeps_privileges prefixes.now }
{
    prefixes.iter().any(|byte| keeps_privileges(*byte))
}

// Returns the text after the prefixes of a word.
fn behind_prefixes(word: &str) -> &str
    ensures { result.now ≡ behind_prefixes word.now }
{
    &word[count_prefixes(word.as_bytes())..]
}

// Returns whether a prefix of the word keeps privileges.
fn is_privileged(word: &str) -> bool
    ensures { result ≡ list_any keeps_privileges (prefixes_of word.now) }
{
    let bytes = word.as_bytes();
    keep_privileges(&bytes[..count_prefixes(bytes)])
}

/// Reads the program that a text names. None if it cannot be read.
#[tactic(auto, unfolding(crate::specs::Commands::program_of))]
pub(crate) fn read_program(alloc: Global, text: &str) -> Result<Option<Program>, AllocError>
    ensures { IfOk result (λ program. program ≡ program_of text.now) }
{
    match AbsPath::read(alloc, text) {
        Ok(path) => {
            if path.text().len() <= LONGEST {
                Ok(Some(Program::Absolute(path)))
            } else {
                Ok(None)
            }
        }
        Err(PathError::Relative) => Ok(Some(Program::Relative)),
        Err(PathError::TooLong | PathError::HasNul | PathError::DotDot) => Ok(None),
        Err(PathError::Memory) => Err(AllocError),
    }
}

// Reads the command that begins with this word. None if it cannot be read.
fn read_first_word(alloc: Global, word: &str) -> Result<Option<Command>, AllocError>
    ensures { IfOk result (λ command. command ≡ command_of_word word.now) }
{
    match read_program(alloc, behind_prefixes(word))? {
        Some(program) => Ok(Some(Command {
            is_privileged: is_privileged(word),
            leaves_ids: false,
            program,
        })),
        None => Ok(None),
    }
}

/// Reads a value as a command. None if it cannot be read.
#[tactic(auto, unfolding(crate::specs::Commands::command_of))]
pub(crate) fn read_command(alloc: Global, text: &str) -> Result<Option<Command>, AllocError>
    ensures { IfOk result (λ command. command ≡ command_of text.now) }
{
    let Some(words) = read_words(alloc, text)? else {
        return Ok(None);
    };
    match words.list().first() {
        Some(word) => read_first_word(alloc, word.as_str()),
        None => Ok(None),
    }
}
