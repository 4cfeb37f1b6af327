// Lists the folders of a name's drop-ins.
//
// The most specific comes first (systemd.unit(5), Description).
ghost use Rattle.std.specs.Prelude.{◌≡◌, ◌++◌, ◌<◌, ◌+◌, IfOk, OnOk, map, length, true};
ghost use Rattle.std.specs.String.{string_bytes};
ghost use Rattle.unit_names.specs.Folders.{is_inner_dash, dash_folder, dash_folders, folder_of, template_folders, folders_of};
ghost use Rattle.unit_names.specs.Names.{template_of};

use crate::name::UnitName;
use std::alloc::{AllocError, Global};

// Returns the folder of a unit.
fn folder_of(alloc: Global, unit: &str) -> Result<String, AllocError>
    ensures { IfOk result (λ folder. string_bytes folder ≡ folder_of unit.now) }
{
    format!(in alloc; "{unit}.d")
}

// Returns whether the prefix has a dash at this place, with text on both sides.
fn is_inner_dash(prefix: &[u8], place: usize) -> bool
    requires { place < length prefix.now }
    ensures { result ≡ is_inner_dash prefix.now place }
{
    0 < place && place + 1 < prefix.len() && prefix[place] == b'-'
}

// Returns the folder of a dash of a prefix.
fn dash_folder(alloc: Global, prefix: &str, place: usize) -> Result<String, AllocError>
    requires { is_inner_dash prefix.now place ≡ true }
    ensures { IfOk result (λ folder. string_bytes folder ≡ dash_folder prefix.now place) }
{
    let front = &prefix[..place + 1];
    format!(in alloc; "{front}.service.d")
}

// Appends the folders of the dashes of a prefix, from the last dash to the first.
fn push_dash_folders(
    alloc: Global,
    folders: &mut Vec<String>,
    prefix: &str,
) -> Result<(), AllocError>
    ensures { OnOk result (map string_bytes folders.new.items ≡ map string_bytes folders.old.items ++ dash_folders prefix.now) }
{
    for place in (0..prefix.len()).rev() {
        if is_inner_dash(prefix.as_bytes(), place) {
            folders.push(dash_folder(alloc, prefix, place)?)?;
        }
    }
    Ok(())
}

// Appends the folder of the template, if the name has one.
fn push_template_folder(
    alloc: Global,
    folders: &mut Vec<String>,
    name: &UnitName,
) -> Result<(), AllocError>
    ensures { OnOk result (map string_bytes folders.new.items ≡ map string_bytes folders.old.items ++ template_folders (template_of name.now)) }
{
    if let Some(template) = name.template(alloc)? {
        folders.push(folder_of(alloc, template.as_str())?)?;
    }
    Ok(())
}

/// Lists the folders of a name's drop-ins, the most specific first.
///
/// They are, in this order:
/// - `NAME.d`;
/// - for an instance, `PREFIX@.service.d`;
/// - for each dash of the prefix that has text on both sides, from the last dash to the first, the prefix up to that
///   dash, the dash and `.service.d`;
/// - `service.d`.
pub fn dropin_folders(alloc: Global, name: &UnitName) -> Result<Vec<String>, AllocError>
    ensures most_specific_first { IfOk result (λ folders. map string_bytes folders.items ≡ folders_of name.now) }
{
    let mut folders = Vec::new(alloc);
    folders.push(folder_of(alloc, name.text())?)?;
    push_template_folder(alloc, &mut folders, name)?;
    push_dash_folders(alloc, &mut folders, name.prefix())?;
    folders.push(String::from_str(alloc, "service.d")?)?;
    Ok(folders)
}
