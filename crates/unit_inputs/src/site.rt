// Reads the site and writes the lines of its refusals.
ghost use Rattle.std.specs.Prelude.{◌≡◌, IfOk, IsErrOf};
ghost use Rattle.exec_settings.specs.host_io.Agreeing.{ForFiles};
ghost use Rattle.exec_settings.specs.host_io.Calls.{AsksExactly};
ghost use Rattle.unit_inputs.specs.command_answers.Asking.{course};
ghost use Rattle.unit_inputs.specs.command_answers.CommandErrors.{HasReadCause, IsAnswer};
ghost use Rattle.unit_inputs.specs.Asking.{site_asks};
ghost use Rattle.unit_inputs.specs.SiteRefusals.{cause_word, row_cause, site_cause, site_in, site_line, site_said};

use crate::command_answers::{CommandError, boxed, refuse, refused_line};
use crate::files::read_input;
use exec_settings::{RowCause, SiteError, SiteTable, read_site as read_bytes};
use host_io::Shelf;
use std::alloc::{AllocError, Global};

/// The path of the description of the site.
const SITE_PATH: &str = "site.toml";

// Returns the printed word for the fault of a row.
fn cause_word(cause: RowCause) -> &'static str
    ensures { result.now ≡ cause_word cause }
{
    match cause {
        RowCause::Key => "key",
        RowCause::Path => "path",
        RowCause::Kind => "kind",
        RowCause::Number => "number",
        RowCause::Caps => "caps",
        RowCause::Both => "both",
        RowCause::Duplicate => "duplicate",
        RowCause::NoParent => "no-parent",
    }
}

// Writes which row is faulty, and why.
fn row_cause(alloc: Global, row: u64, cause: RowCause) -> Result<Vec<u8>, AllocError>
    ensures { IfOk result (λ why. why.items ≡ row_cause row cause) }
{
    let cause = cause_word(cause);
    Ok(format!(in alloc; "row {row} {cause}")?.into_bytes())
}

// Writes why a site is refused.
fn site_cause(alloc: Global, error: SiteError) -> Result<Vec<u8>, AllocError>
    ensures { IfOk result (λ why. why.items ≡ site_cause error) }
{
    match error {
        SiteError::NotToml => b"toml".to_vec(alloc),
        SiteError::Top => b"top".to_vec(alloc),
        SiteError::TooMany => b"too-many".to_vec(alloc),
        SiteError::Row(row, cause) => row_cause(alloc, row, cause),
        SiteError::User(user) => Ok(format!(in alloc; "user {user}")?.into_bytes()),
        SiteError::Group(group) => Ok(format!(in alloc; "group {group}")?.into_bytes()),
        SiteError::Memory => Ok(Vec::new(alloc)),
    }
}

// Returns the line of a refused site.
fn site_line(alloc: Global, error: SiteError) -> Result<Vec<u8>, AllocError>
    ensures { IfOk result (λ line. line.items ≡ site_line error) }
{
    let why = site_cause(alloc, error)?;
    refused_line(alloc, SITE_PATH, why.as_slice())
}

// Returns the site from the bytes of site.toml.
#[tactic(auto, unfolding(crate::specs::SiteRefusals::site_said))]
fn site_of_bytes(alloc: Global, bytes: &[u8]) -> Result<Box<SiteTable>, CommandError>
    ensures says { IsAnswer (λ site. site.value) result (site_said bytes.now) }
    ensures reads_nothing { IsErrOf result CommandError.ReadFault → ⊥ }
{
    match read_bytes(alloc, bytes) {
        Ok(site) => boxed(alloc, site),
        Err(SiteError::Memory) => Err(CommandError::Memory),
        Err(error) => Err(refuse(site_line(alloc, error))),
    }
}

/// Reads the site from site.toml.
pub fn read_site<S: Shelf>(alloc: Global, shelf: &mut S) -> Result<Box<SiteTable>, CommandError>
    ensures reads_the_site { ForFiles (S.agrees shelf.new) (λ files. IsAnswer (λ site. site.value) result (site_in files)) }
    ensures asks_for_it { AsksExactly S.asks shelf.old shelf.new site_asks (course result) }
    ensures answers_stay { ForFiles (S.agrees shelf.new) (S.agrees shelf.old) }
    ensures fault_rose { HasReadCause (S.faults shelf.old) (S.faults shelf.new) result }
{
    let bytes = read_input(alloc, shelf, SITE_PATH)?;
    site_of_bytes(alloc, bytes.as_slice())
}
