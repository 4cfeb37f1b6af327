//! Reads the settings of a unit.
ghost use Rattle.std.specs.Prelude.{IfOk};
ghost use Rattle.exec_settings.specs.AreSettings.{AreSettings};
ghost use Rattle.exec_settings.specs.Refusals.{RefusesFirst, refusal_of};

use crate::credentials::read_credentials;
use crate::errors::SettingsError;
use crate::filters::read_filters;
use crate::mounts::read_mentions;
use crate::notes::{put_in_order, text_notes};
use crate::privileges::{ambient_within, any_of_three, counts_as_filter};
use crate::program::launched_program;
use crate::service::Settings;
use cred_settings::{Identity, Resolved, SiteTable, keeps_capabilities, no_new_privs};
use filter_settings::CallTable;
use mount_settings::written_paths;
use std::alloc::Global;

/// Reads the settings of a unit, or says why it has none: the unit launches no program, or asks for something that cannot
/// be judged. Of several reasons the first is reported.
///
/// The table of calls has the calls, groups and families. The site has the users, the groups of users, and the rows
/// that implied paths need. The settings are the first command in force with its user and capabilities, the filters
/// that are on with their rules, the mentions, none of which replaces the root, and all notes in order.
pub fn settings(
    alloc: Global,
    unit: &Resolved,
    calls: &CallTable,
    site: &SiteTable,
) -> Result<Settings, SettingsError>
    ensures refuses_first { RefusesFirst (refusal_of unit.now calls.now site.now) result }
    ensures settles { IfOk result (AreSettings unit.now calls.now site.now) }
{
    let mut notes = text_notes(alloc, unit)?;
    let paths = written_paths(alloc, unit)?.noted_in(&mut notes)?;
    let launched = launched_program(alloc, unit, site, &paths, &mut notes)?;
    let own = read_credentials(alloc, unit, site, launched.leaves_ids, &mut notes)?;
    let made = read_filters(alloc, unit, calls, own.is_dynamic, &mut notes)?;
    let mentions = read_mentions(alloc, unit, &paths, site, made.switches, &mut notes)?;
    let counts = counts_as_filter(alloc, unit)?;
    put_in_order(&mut notes)?;
    let Identity { uid, gid, groups } = own.identity;
    let has_filter = !made.filters.is_empty();
    let is_filtered = any_of_three(has_filter, made.mdwe, counts);
    let keeps = keeps_capabilities(unit.systemd, is_filtered, uid, made.may_give_up);
    let bounding = own.bounding.minus(made.taken);
    let ambient = ambient_within(unit.systemd, own.ambient, bounding);
    Ok(Settings {
        program: launched.program,
        uid,
        gid,
        groups,
        bounding,
        ambient,
        keeps_capabilities: keeps,
        no_new_privs: no_new_privs(
            unit.systemd,
            own.sets_no_new_privs,
            has_filter,
            is_filtered,
            uid,
            ambient,
            keeps,
        ),
        mdwe: made.mdwe,
        filters: made.filters,
        mentions,
        notes,
    })
}
