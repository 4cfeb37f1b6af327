// A unit name that has been read.
//
// Contracts see it as its prefix and its instance; the parts come from `cutting`.
ghost use Rattle.std.specs.Prelude.{◌≡◌, IfOk, Some, None, true};
ghost use Rattle.std.specs.Option.{option_copied, option_map};
ghost use Rattle.std.specs.String.{string_bytes};
ghost use Rattle.unit_names.specs.Names.{Names, text_of, stem_of, template_of, is_unit_name};
ghost use Rattle.unit_names.specs.Cutting.{name_of, borrowed_name};
ghost use Rattle.unit_names.specs.declared.name.NameError.TheVariants.{BadName};

use crate::cutting::{Parts, SUFFIX, name_parts};
use std::alloc::{AllocError, Global};
use std::marker::Model;
use thiserror::Error;

/// The name of a service: `PREFIX.service`, or `PREFIX@INSTANCE.service`.
#[derive(Drop)]
pub struct UnitName {
    text: String,
    prefix: String,
    instance: Option<String>,
}

impl Model for UnitName {
    ghost use Rattle.unit_names.specs.Names.{Name};

    ghost Value = { Name };

    ghost use Rattle.unit_names.specs.Inside.{inner_name, IsWhole};

    ghost view = { inner_name };

    ghost invariant = { IsWhole };
}

/// Why a text is no unit name.
#[derive(Clone, Copy, Debug, PartialEq, Eq, Error)]
pub enum NameError {
    /// The text has another form, a character that a name cannot have, or more than 255 bytes.
    #[error("no name of a service")]
    BadName,
    /// There is no memory left.
    #[error("out of memory")]
    Memory,
}

impl UnitName {
    /// Reads a name. It returns `BadName` exactly if the text is no name of a service.
    ///
    /// A name is a prefix and `.service`, or for an instance a prefix, `@`, the instance and `.service`
    /// (systemd.unit(5), Description). The prefix has ASCII letters, digits, `:`, `-`, `_`, `.` and `\`, and the
    /// instance may also have further `@`. No part is empty, and the whole has at most 255 bytes.
    pub fn read(alloc: Global, text: &str) -> Result<UnitName, NameError>
        ensures reads_the_name { IfOk result (λ name. name_of text.now ≡ Some name) }
        ensures bad_name { result ≡ Err BadName → name_of text.now ≡ None }
    {
        match name_parts(text) {
            Some(parts) => UnitName::with_parts(alloc, text, parts).or(Err(NameError::Memory)),
            None => Err(NameError::BadName),
        }
    }

    // Keeps a text and its parts.
    fn with_parts(alloc: Global, text: &str, parts: Parts<'_>) -> Result<UnitName, AllocError>
        requires { Names text.now (borrowed_name parts) }
        ensures { IfOk result (λ name. name ≡ borrowed_name parts.entry) }
    {
        let instance = match parts.instance {
            Some(instance) => Some(String::from_str(alloc, instance)?),
            None => None,
        };
        Ok(UnitName {
            text: String::from_str(alloc, text)?,
            prefix: String::from_str(alloc, parts.prefix)?,
            instance,
        })
    }

    /// Returns a copy of the name.
    pub fn copy(&self, alloc: Global) -> Result<UnitName, AllocError>
        ensures same_name { IfOk result (λ copy. copy ≡ self.now) }
    {
        let parts = Parts {
            prefix: self.prefix(),
            instance: self.instance(),
        };
        UnitName::with_parts(alloc, self.text(), parts)
    }

    /// Returns the whole name.
    pub fn text(&self) -> &str
        ensures whole_text { result.now ≡ text_of self.now }
        ensures allowed { is_unit_name self.now ≡ true }
    {
        self.text.as_str()
    }

    /// Returns the prefix: the text before the first `@`, or before `.service` if the name has no instance.
    pub fn prefix(&self) -> &str
        ensures before_the_at { result.now ≡ self.now.prefix }
    {
        self.prefix.as_str()
    }

    /// Returns the instance: the text between the first `@` and `.service`. `None` exactly if there is no `@`.
    pub fn instance(&self) -> Option<&str>
        ensures behind_the_at { option_copied result ≡ self.now.instance }
    {
        self.instance.as_ref().map(|instance| instance.as_str())
    }

    /// Returns the text before `.service`.
    pub fn stem(&self) -> &str
        ensures before_the_ending { result.now ≡ stem_of self.now }
    {
        self.text.strip_suffix(SUFFIX).unwrap()
    }

    /// Returns the name of the template from which systemd makes the instance, `PREFIX@.service`. `None` exactly if the
    /// name has no instance.
    pub fn template(&self, alloc: Global) -> Result<Option<String>, AllocError>
        ensures without_instance { IfOk result (λ template. option_map (λ t. string_bytes t) template ≡ template_of self.now) }
    {
        match &self.instance {
            Some(_) => Ok(Some(format!(in alloc; "{}@{SUFFIX}", self.prefix)?)),
            None => Ok(None),
        }
    }
}
