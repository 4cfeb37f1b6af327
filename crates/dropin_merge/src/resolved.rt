// Defines a unit that has been resolved: its name, its files in force, and the version of systemd that reads them.
//
// Contracts see the files as a list.
ghost use Rattle.std.specs.Prelude.{◌≡◌, IfOk};
ghost use Rattle.dropin_merge.specs.Changed.{extended, read_by};

use crate::unit_files::UnitFiles;
use std::alloc::{AllocError, Global};
use unit_grammar::{Text, UnitText};
use unit_names::{UnitName, Version};

/// A file in force.
#[derive(Drop)]
pub struct UnitFile {
    /// The path of the file. It is empty for a file that `extended` appended.
    pub path: Text,
    /// The text of the file.
    pub text: UnitText,
}

impl UnitFile {
    // Returns a copy of the file.
    fn copy(&self, alloc: Global) -> Result<UnitFile, AllocError>
        ensures { IfOk result (λ copy. copy ≡ self.now) }
    {
        Ok(UnitFile {
            path: Text::new(alloc, self.path.as_str())?,
            text: self.text.copy(alloc)?,
        })
    }
}

// Returns copies of the files.
fn copied(alloc: Global, files: &[UnitFile]) -> Result<Vec<UnitFile>, AllocError>
    ensures { IfOk result (λ copies. copies.items ≡ files.now) }
{
    let mut copies = Vec::new(alloc);
    for file in files {
        copies.push(file.copy(alloc)?)?;
    }
    Ok(copies)
}

/// A unit with its files in force, in the order of use: the fragment, and then the drop-ins.
#[derive(Drop)]
pub struct Resolved {
    pub name: UnitName,
    pub files: UnitFiles,
    /// The version of systemd by whose rules the files are read. Without a version, the rules of the base profile apply.
    pub systemd: Option<Version>,
}

impl Resolved {
    /// Selects the rules of this version of systemd.
    pub fn read_by(&mut self, systemd: Option<Version>)
        ensures same_files { self.new ≡ read_by systemd self.old }
    {
        self.systemd = systemd;
    }

    /// Returns the same unit with one more file after its files. That file has no path and has the text `more`.
    pub fn extended(&self, alloc: Global, more: UnitText) -> Result<Resolved, AllocError>
        ensures one_more_file { IfOk result (λ longer. longer ≡ extended self.now more) }
    {
        let mut files = copied(alloc, self.files.list())?;
        files.push(UnitFile {
            path: Text::new(alloc, "")?,
            text: more,
        })?;
        Ok(Resolved {
            name: self.name.copy(alloc)?,
            files: UnitFiles::new(files),
            systemd: self.systemd,
        })
    }
}
