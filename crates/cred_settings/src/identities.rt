//! Reads the ids that a service runs with (systemd.exec(5), User/Group Identity).
ghost use Rattle.std.specs.Prelude.{◌≡◌, ◌≢◌, ◌++◌, Ok, Err, None, IfOk, IfErr, OnOk, find};
ghost use Rattle.std.specs.List.{filter_map};
ghost use Rattle.cred_settings.specs.declared.error.IdentityError.TheVariants.{Memory};
ghost use Rattle.cred_settings.specs.Users.{user_word};
ghost use Rattle.cred_settings.specs.Groups.{gid_meant, chosen_gid, filled, group_word};
ghost use Rattle.cred_settings.specs.FurtherGroups.{further_words};
ghost use Rattle.cred_settings.specs.Steps.{begun, groups_with};
ghost use Rattle.cred_settings.specs.Identities.{names_no_group, bad_group, identity_with, unless_bad, identity_from, identity_of, identity_notes};
ghost use Rattle.cred_settings.specs.Answers.{IsUnlessMemory, IsOfGroup};

use crate::accounts::{Account, Gids, Identity};
use crate::error::IdentityError;
use crate::groups::gid_meant;
use crate::users::account;
use dropin_merge::unit_values::{Said, Words, last_text_of_key, words_of_key};
use dropin_merge::{Resolved, Text};
use site_table::{SiteTable, Version};
use std::alloc::{AllocError, Global};

// Makes the refusal of a user.
fn no_such_user(alloc: Global, word: &str) -> IdentityError
    ensures { IsUnlessMemory (Err result) (Err (IdentityError.NoSuchUser word.now)) }
{
    match Text::new(alloc, word) {
        Ok(word) => IdentityError::NoSuchUser(word),
        Err(_) => IdentityError::Memory,
    }
}

// Makes the refusal of a group.
fn no_such_group(alloc: Global, word: &str) -> IdentityError
    ensures { IsOfGroup (Some word.now) result }
{
    match Text::new(alloc, word) {
        Ok(word) => IdentityError::NoSuchGroup(word),
        Err(_) => IdentityError::Memory,
    }
}

// Returns the group that the word of Group= chooses, if there is one.
fn chosen_gid(
    alloc: Global,
    systemd: Option<Version>,
    site: &SiteTable,
    word: &str,
) -> Result<Option<u32>, IdentityError>
    ensures chosen { IfOk result (λ gid. gid ≡ chosen_gid systemd site.now word.now) }
    ensures none_is_bad { OnOk result (find (names_no_group systemd site.now) (filled word.now) ≡ None) }
    ensures refused { IfErr result (IsOfGroup (find (names_no_group systemd site.now) (filled word.now))) }
{
    if word.is_empty() {
        return Ok(None);
    }
    match gid_meant(systemd, site, word) {
        Some(gid) => Ok(Some(gid)),
        None => Err(no_such_group(alloc, word)),
    }
}

// Adds the groups of the words after the others.
fn add_groups(
    alloc: Global,
    systemd: Option<Version>,
    site: &SiteTable,
    words: &[Text],
    groups: &mut Gids,
) -> Result<(), IdentityError>
    ensures added { OnOk result (groups.new ≡ groups.old ++ filter_map (gid_meant systemd site.now) words.now) }
    ensures none_is_bad { OnOk result (find (names_no_group systemd site.now) words.now ≡ None) }
    ensures refused { IfErr result (IsOfGroup (find (names_no_group systemd site.now) words.now)) }
{
    for word in words {
        match gid_meant(systemd, site, word.as_str()) {
            Some(gid) => groups.push(gid)?,
            None => return Err(no_such_group(alloc, word.as_str())),
        }
    }
    Ok(())
}

// Returns the ids of an account with the chosen group and with the further groups of its user.
fn begun(alloc: Global, site: &SiteTable, account: Account, chosen: Option<u32>) -> Identity
    ensures { result ≡ begun site.now chosen account }
{
    match account {
        Account::Dynamic => Identity {
            uid: site.dynamic_uid(),
            gid: site.dynamic_uid(),
            groups: Gids::new(Vec::new(alloc)),
        },
        Account::Fixed(identity) => Identity {
            uid: identity.uid,
            gid: chosen.unwrap_or(identity.gid),
            groups: identity.groups,
        },
    }
}

// Returns the groups that an account gives to a service with this gid. The user of the account has these further groups.
fn account_groups(
    alloc: Global,
    systemd: Option<Version>,
    with_user: bool,
    gid: u32,
    mut groups: Gids,
) -> Result<Gids, AllocError>
    ensures { IfOk result (λ all. all ≡ groups_with systemd with_user gid groups) }
{
    if systemd.is_none() {
        return Ok(groups);
    }
    if !with_user || gid == 0 {
        return Ok(Gids::empty(alloc));
    }
    groups.push(gid)?;
    Ok(groups)
}

// Returns the ids of an account with its groups, or the refusal of the first word that names no group.
fn with_groups(
    alloc: Global,
    systemd: Option<Version>,
    site: &SiteTable,
    with_user: bool,
    leaves_ids: bool,
    account: Account,
    group: &str,
    further: &[Text],
) -> Result<Identity, IdentityError>
    ensures { IsUnlessMemory result (unless_bad (bad_group systemd site.now group.now further.now)
        (identity_with systemd site.now with_user leaves_ids account group.now further.now)) }
{
    let chosen = chosen_gid(alloc, systemd, site, group)?;
    let Identity { uid, gid, groups } = begun(alloc, site, account, chosen);
    let mut groups = account_groups(alloc, systemd, with_user, gid, groups)?;
    if leaves_ids {
        add_groups(alloc, systemd, site, further, &mut Gids::empty(alloc))?;
        return Ok(Identity {
            uid: 0,
            gid: 0,
            groups,
        });
    }
    add_groups(alloc, systemd, site, further, &mut groups)?;
    Ok(Identity { uid, gid, groups })
}

// Returns the ids that the words of the keys give, or the first refusal.
fn identity_from(
    alloc: Global,
    systemd: Option<Version>,
    site: &SiteTable,
    is_dynamic: bool,
    leaves_ids: bool,
    words: &IdentityWords,
) -> Result<Identity, IdentityError>
    ensures { IsUnlessMemory result (identity_from systemd site.now is_dynamic leaves_ids words.now.user words.now.group words.now.further) }
{
    let user = words.user.as_str();
    let Some(account) = account(alloc, systemd, site, is_dynamic, user)? else {
        return Err(no_such_user(alloc, user));
    };
    let with_user = is_dynamic || !user.is_empty();
    let group = words.group.as_str();
    let further = words.further.list();
    with_groups(
        alloc, systemd, site, with_user, leaves_ids, account, group, further,
    )
}

// The words that the files of a unit give to User=, Group= and SupplementaryGroups=.
#[derive(Drop)]
struct IdentityWords {
    user: Text,
    group: Text,
    further: Words,
}

// Reads the words of the keys, with their notes.
#[tactic(auto, unfolding(crate::specs::Identities::identity_notes))]
fn identity_words(alloc: Global, unit: &Resolved) -> Result<Said<IdentityWords>, AllocError>
    ensures user { IfOk result (λ said. said.what.user ≡ user_word unit.now) }
    ensures group { IfOk result (λ said. said.what.group ≡ group_word unit.now) }
    ensures further { IfOk result (λ said. said.what.further ≡ further_words unit.now) }
    ensures noted { IfOk result (λ said. said.notes.items ≡ identity_notes unit.now) }
{
    let Said {
        what: user,
        mut notes,
    } = last_text_of_key(alloc, unit, "User")?;
    let group = last_text_of_key(alloc, unit, "Group")?.noted_in(&mut notes)?;
    let further = words_of_key(alloc, unit, "SupplementaryGroups")?.noted_in(&mut notes)?;
    let what = IdentityWords {
        user,
        group,
        further,
    };
    Ok(Said { what, notes })
}

/// Returns the ids that the files of a unit give by User=, Group= and SupplementaryGroups= (systemd.exec(5)).
/// `is_dynamic` says if DynamicUser= is on, and `leaves_ids` if the command has the prefix `!` (systemd.service(5)).
///
/// A word is the name of a user or a group of the site, else a decimal number from 0 to 4,294,967,294. Without User=
/// a service runs as the superuser. A number means the first user of the site with this uid. Without such a
/// user, the number is both uid and gid. With DynamicUser= the dynamic uid of the site replaces a missing User= and a User= that
/// names nobody, and then Group= has no effect. Group= replaces the user's group, and SupplementaryGroups= adds to the
/// user's further groups. With the prefix `!` the service starts as the superuser, with the groups of the user alone.
///
/// The error is `NoSuchUser` if User= names nobody and DynamicUser= is off. Otherwise it is `NoSuchGroup` for the first
/// word of Group=, and then of SupplementaryGroups=, that names no group. `Memory` is possible for any unit. Values that
/// cannot be expanded, and lines that cannot be split, get notes key by key.
#[tactic(auto, unfolding(crate::specs::Identities::identity_of))]
pub fn identity_of_unit(
    alloc: Global,
    unit: &Resolved,
    site: &SiteTable,
    is_dynamic: bool,
    leaves_ids: bool,
) -> Result<Said<Identity>, IdentityError>
    ensures ids_of_the_keys { IfOk result (λ said. identity_of unit.now site.now is_dynamic leaves_ids ≡ Ok said.what) }
    ensures first_refusal { IfErr result (λ error. error ≢ Memory → identity_of unit.now site.now is_dynamic leaves_ids ≡ Err error) }
    ensures noted { IfOk result (λ said. said.notes.items ≡ identity_notes unit.now) }
{
    let Said { what: words, notes } = identity_words(alloc, unit)?;
    let identity = identity_from(alloc, unit.systemd, site, is_dynamic, leaves_ids, &words)?;
    Ok(Said {
        what: identity,
        notes,
    })
}
