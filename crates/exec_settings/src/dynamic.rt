//! Reads DynamicUser=, and applies what it implies (systemd.exec(5)).
ghost use Rattle.std.specs.Prelude.{◌≡◌, ◌++◌, IfOk, OnOk};
ghost use Rattle.exec_settings.specs.Dynamic.{dynamic_notes, is_dynamic, with_dynamic_user};

use cred_settings::{FileNote, Resolved, flag_of_key};
use filter_settings::filter_rules::FilterSettings;
use std::alloc::{AllocError, Global};

/// Reads whether DynamicUser= is on. It adds notes after the others, first on values that cannot be expanded, and then
/// on values that cannot be read.
#[tactic(auto, unfolding(crate::specs::Dynamic::is_dynamic, crate::specs::Dynamic::dynamic_notes))]
pub fn is_dynamic(
    alloc: Global,
    unit: &Resolved,
    notes: &mut Vec<FileNote>,
) -> Result<bool, AllocError>
    ensures is { IfOk result (λ is. is ≡ is_dynamic unit.now) }
    ensures noted { OnOk result (notes.new.items ≡ notes.old.items ++ dynamic_notes unit.now) }
{
    flag_of_key(alloc, unit, "DynamicUser")?.noted_in(notes)
}

/// Returns the settings of the filters. With a dynamic user RestrictSUIDSGID= is on, whatever its own value is.
pub fn with_dynamic_user(is_dynamic: bool, said: FilterSettings) -> FilterSettings
    ensures as_the_user_implies { result ≡ with_dynamic_user is_dynamic said }
{
    FilterSettings {
        restrict_suid_sgid: said.restrict_suid_sgid || is_dynamic,
        ..said
    }
}
