//! The unit of a sample.

ghost use Rattle.std.specs.Prelude.{◌≡◌, ◌≢◌, ◌+◌, ◌%◌, ◌≤◌, ◌<◌, ◌++◌, ◌∷◌, [], IfOk, OnOk, map, None, Some, option_copied, string_bytes};
ghost use Rattle.launcher.specs.unit_grammar.declared.unit.UnitError.TheVariants.{Memory as NoRoom};
ghost use Rattle.launcher.specs.unit_names.declared.name.NameError.TheVariants.{Memory};
ghost use Rattle.sample_inputs.specs.Calls.{text_of_lines};
ghost use Rattle.sample_inputs.specs.Facts.{SaysSample};
ghost use Rattle.sample_inputs.specs.Made.{IsSampleUnit};
ghost use Rattle.sample_inputs.specs.Unit.{folder_key, folder_settings, line_of, privilege_settings, sample_name, setting, unit_path, unit_said, unit_text};

use crate::site::FOLDERS;
use launcher::{
    NameError, Resolved, Text, UnitError, UnitFile, UnitFiles, UnitName, UnitText, read_unit,
};
use std::alloc::{AllocError, Global};

/// The name of the unit.
const NAME: &str = "sample.service";
/// The file that it is read from.
const PATH: &str = "etc/systemd/system/sample.service";

// Appends a setting to a text, as a line.
fn push_setting(text: &mut String, key: &str, value: &str) -> Result<(), AllocError>
    ensures { OnOk result (string_bytes text.new ≡ string_bytes text.old ++ text_of_lines (line_of (setting key.now value.now) ∷ [])) }
{
    text.push_str(key)?;
    text.push_str("=")?;
    text.push_str(value)?;
    text.push_str("\n")
}

// Returns the key that the unit gives a folder, by its turn (systemd.exec(5), ReadOnlyPaths=).
fn folder_key(turn: u32) -> Option<&'static str>
    ensures { option_copied result ≡ folder_key turn }
{
    match turn {
        0 => Some("ReadOnlyPaths"),
        1 => Some("InaccessiblePaths"),
        2 => Some("NoExecPaths"),
        _ => None,
    }
}

// Appends the line of the unit for a folder.
fn push_folder(alloc: Global, text: &mut String, n: u32, folder: u32) -> Result<(), AllocError>
    requires number { n ≤ 999 }
    requires folder { folder < 16 }
    ensures { OnOk result (string_bytes text.new ≡ string_bytes text.old ++ text_of_lines (map line_of (folder_settings n folder))) }
{
    match folder_key((folder + n) % 4) {
        Some(key) => push_setting(text, key, format!(in alloc; "/d{folder}")?.as_str()),
        None => Ok(()),
    }
}

// Appends the line of the unit for privileges.
fn push_privileges(text: &mut String, n: u32) -> Result<(), AllocError>
    ensures { OnOk result (string_bytes text.new ≡ string_bytes text.old ++ text_of_lines (map line_of (privilege_settings n))) }
{
    if n % 2 == 0 {
        push_setting(text, "NoNewPrivileges", "yes")
    } else {
        Ok(())
    }
}

// The text of the unit.
fn unit_text(alloc: Global, n: u32) -> Result<String, AllocError>
    requires { n ≤ 999 }
    ensures { IfOk result (λ text. string_bytes text ≡ unit_text n) }
{
    let mut text = String::from_str(alloc, "[Service]\n")?;
    push_setting(&mut text, "ExecStart", "/usr/bin/app")?;
    push_setting(&mut text, "User", "app")?;
    push_privileges(&mut text, n)?;
    for folder in 0..FOLDERS {
        push_folder(alloc, &mut text, n, folder)?;
    }
    Ok(text)
}

// A text that is a unit is refused only if memory runs out.
fn of_memory(_error: UnitError) -> AllocError
    requires { _error ≡ NoRoom }
{
    AllocError
}

// Returns the text of the unit as it is read.
fn said(alloc: Global, n: u32) -> Result<UnitText, AllocError>
    requires { n ≤ 999 }
    ensures { IfOk result (λ said. said ≡ unit_said n) }
{
    let text = unit_text(alloc, n)?;
    match read_unit(alloc, text.as_bytes()) {
        Ok(said) => Ok(said),
        Err(error) => Err(of_memory(error)),
    }
}

// A text that is a name is refused only if memory runs out.
fn name_of_memory(_error: NameError) -> AllocError
    requires { _error ≡ Memory }
{
    AllocError
}

// The name of the unit.
fn name(alloc: Global) -> Result<UnitName, AllocError>
    ensures { IfOk result (λ name. name ≡ sample_name) }
{
    match UnitName::read(alloc, NAME) {
        Ok(name) => Ok(name),
        Err(error) => Err(name_of_memory(error)),
    }
}

// The files of the unit.
fn files(alloc: Global, n: u32) -> Result<UnitFiles, AllocError>
    requires { n ≤ 999 }
    ensures { IfOk result (λ files. files ≡ record { path = unit_path; text = unit_said n } ∷ []) }
{
    let mut files = Vec::new(alloc);
    let path = Text::new(alloc, PATH)?;
    files.push(UnitFile {
        path,
        text: said(alloc, n)?,
    })?;
    Ok(UnitFiles::new(files))
}

/// The unit of a sample, of a number below 1,000.
pub fn sample_unit(alloc: Global, n: u32) -> Result<Box<Resolved>, AllocError>
    requires { n ≤ 999 }
    ensures read { IfOk result (λ unit. IsSampleUnit n unit.value) }
    ensures says { IfOk result (λ unit. SaysSample n unit.value) }
{
    let files = files(alloc, n)?;
    let name = name(alloc)?;
    Ok(Box::new(
        alloc,
        Resolved {
            name,
            files,
            systemd: None,
        },
    )?)
}
