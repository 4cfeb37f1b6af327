//! Reads PrivateTmp=, which gives the service its own folders for temporary files (systemd.exec(5)).
ghost use Rattle.std.specs.Prelude.{◌≡◌, IfOk, codes};
ghost use Rattle.dropin_merge.specs.unit_values.Flags.{unit_flag, unit_flag_notes};
ghost use Rattle.dropin_merge.specs.unit_values.Lasting.{unit_last_notes};
ghost use Rattle.mount_settings.specs.Tmp.{tmp_value, worded_tmp, unit_tmp, unit_tmp_notes};

use crate::choices::read_choice;
use dropin_merge::unit_values::{KeyValue, Said, flag_of_key, last_of_key};
use dropin_merge::{Resolved, Version};
use std::alloc::{AllocError, Global};

/// Says whether the service has its own folders for temporary files.
#[derive(Clone, Copy)]
pub(crate) struct PrivateTmp {
    pub(crate) on: bool,
}

/// Reads a boolean, or `disconnected`, which counts as true. An empty text means false.
impl KeyValue for PrivateTmp {
    ghost reads = { tmp_value };

    fn read(text: &str) -> Option<PrivateTmp> {
        let on = read_choice(text, false, true, &[("disconnected", true)])?;
        Some(PrivateTmp { on })
    }
}

// Reads PrivateTmp= by the rules that know `disconnected`.
fn worded(alloc: Global, unit: &Resolved) -> Result<Said<bool>, AllocError>
    ensures means { IfOk result (λ said. said.what ≡ worded_tmp unit.now) }
    ensures noted { IfOk result (λ said. said.notes.items ≡ unit_last_notes tmp_value unit.now (codes "PrivateTmp")) }
{
    let Said { what, notes } = last_of_key(alloc, unit, "PrivateTmp", PrivateTmp { on: false })?;
    let what = what.on;
    Ok(Said { what, notes })
}

/// Reads whether the service has such folders. systemd 252 does not know `disconnected`.
pub(crate) fn read_tmp(alloc: Global, unit: &Resolved) -> Result<Said<bool>, AllocError>
    ensures means { IfOk result (λ said. said.what ≡ unit_tmp unit.now) }
    ensures noted { IfOk result (λ said. said.notes.items ≡ unit_tmp_notes unit.now) }
{
    match unit.systemd {
        None => worded(alloc, unit),
        Some(Version::V252) => flag_of_key(alloc, unit, "PrivateTmp"),
        Some(Version::V257) => worded(alloc, unit),
    }
}
