//! Reads users, groups and capabilities of a unit, or says why they are refused.
ghost use Rattle.std.specs.Prelude.{◌≡◌, ◌++◌, Ok, IfOk, OnOk};
ghost use Rattle.cred_settings.specs.Ambient.{ambient_of};
ghost use Rattle.cred_settings.specs.Bounding.{bounding_of};
ghost use Rattle.cred_settings.specs.Identities.{identity_notes};
ghost use Rattle.exec_settings.specs.Dynamic.{is_dynamic as is_dynamic_of, sets_new_privileges};
ghost use Rattle.exec_settings.specs.Launched.{unit_leaves_ids};
ghost use Rattle.exec_settings.specs.Notes.{credential_notes};
ghost use Rattle.exec_settings.specs.Refusals.{RefusesFirst, identity_refusal};
ghost use Rattle.exec_settings.specs.RunsAs.{unit_identity};

use crate::dynamic::is_dynamic;
use crate::errors::SettingsError;
use cred_settings::{
    CapSet, FileNote, Identity, IdentityError, Resolved, SiteTable, ambient_set, bounding_set,
    identity_of_unit, is_no_new_privileges_set,
};
use std::alloc::Global;

/// The values of the keys of users, groups and capabilities.
#[derive(Drop)]
pub struct Credentials {
    pub identity: Identity,
    pub bounding: CapSet,
    pub ambient: CapSet,
    /// Whether NoNewPrivileges= or DynamicUser= is set.
    pub sets_no_new_privs: bool,
    /// Whether DynamicUser= is set.
    pub is_dynamic: bool,
}

// Reads the ids from the keys of users and groups.
#[tactic(auto, unfolding(crate::specs::Refusals::identity_refusal))]
fn read_identity(
    alloc: Global,
    unit: &Resolved,
    site: &SiteTable,
    is_dynamic: bool,
    leaves_ids: bool,
    notes: &mut Vec<FileNote>,
) -> Result<Identity, SettingsError>
    requires by_its_key { is_dynamic ≡ is_dynamic_of unit.now }
    requires of_the_command { leaves_ids ≡ unit_leaves_ids unit.now }
    ensures refuses_first { RefusesFirst (identity_refusal unit.now site.now) result }
    ensures ids { IfOk result (λ made. unit_identity unit.now site.now ≡ Ok made) }
    ensures noted { OnOk result (notes.new.items ≡ notes.old.items ++ identity_notes unit.now) }
{
    match identity_of_unit(alloc, unit, site, is_dynamic, leaves_ids) {
        Ok(said) => Ok(said.noted_in(notes)?),
        Err(IdentityError::NoSuchUser(word)) => Err(SettingsError::NoSuchUser(word)),
        Err(IdentityError::NoSuchGroup(word)) => Err(SettingsError::NoSuchGroup(word)),
        Err(IdentityError::Memory) => Err(SettingsError::Memory),
    }
}

/// Reads the keys of users, groups and capabilities of a unit. `leaves_ids` says if its command leaves the ids. The
/// function adds the notes on these keys after the others.
#[tactic(auto, unfolding(crate::specs::Notes::credential_notes, crate::specs::Refusals::identity_refusal))]
pub fn read_credentials(
    alloc: Global,
    unit: &Resolved,
    site: &SiteTable,
    leaves_ids: bool,
    notes: &mut Vec<FileNote>,
) -> Result<Credentials, SettingsError>
    requires of_the_command { leaves_ids ≡ unit_leaves_ids unit.now }
    ensures refuses_first { RefusesFirst (identity_refusal unit.now site.now) result }
    ensures ids { IfOk result (λ made. unit_identity unit.now site.now ≡ Ok made.identity) }
    ensures bounding { IfOk result (λ made. made.bounding ≡ bounding_of unit.now) }
    ensures ambient { IfOk result (λ made. made.ambient ≡ ambient_of unit.now) }
    ensures sets { IfOk result (λ made. made.sets_no_new_privs ≡ sets_new_privileges unit.now) }
    ensures dynamic { IfOk result (λ made. made.is_dynamic ≡ is_dynamic_of unit.now) }
    ensures noted { OnOk result (notes.new.items ≡ notes.old.items ++ credential_notes unit.now) }
{
    let is_dynamic = is_dynamic(alloc, unit, notes)?;
    let bounding = bounding_set(alloc, unit)?.noted_in(notes)?;
    let ambient = ambient_set(alloc, unit)?.noted_in(notes)?;
    let is_set = is_no_new_privileges_set(alloc, unit)?.noted_in(notes)?;
    Ok(Credentials {
        identity: read_identity(alloc, unit, site, is_dynamic, leaves_ids, notes)?,
        bounding,
        ambient,
        sets_no_new_privs: is_set || is_dynamic,
        is_dynamic,
    })
}
