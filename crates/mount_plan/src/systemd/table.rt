//! Makes the plan of the made entries.

ghost use Rattle.std.specs.Prelude.{◌≡◌, ◌||◌, ◌++◌, true, not, nat_le, length, map, filter, find, IfOk, OnOk};
ghost use Rattle.std.specs.List.{list_all, list_any, All};
ghost use Rattle.std.specs.Option.{option_map};
ghost use Rattle.path_settings.specs.abs_path.Paths.{is_root, tail_of};
ghost use Rattle.path_settings.specs.abs_path.Prefix.{is_prefix};
ghost use Rattle.path_settings.specs.systemd.Entries.{is_whole, leaves_the_root};
ghost use Rattle.path_settings.specs.systemd.Listed.{listed};
ghost use Rattle.path_settings.specs.systemd.Made.{has_source, is_longest_such, longest_such, nodes, object_by, object_in};
ghost use Rattle.path_settings.specs.systemd.View.{begins_for, begins_by, is_changed_over, set_no_suid};
ghost use Rattle.site_table.specs.Table.{IsSite};
ghost use Rattle.mount_plan.specs.Host.{host_of};
ghost use Rattle.mount_plan.specs.Plan.{what_of};
ghost use Rattle.mount_plan.specs.Short.{HasShortHost};
ghost use Rattle.mount_plan.specs.Answers.{Tables};
ghost use Rattle.mount_plan.specs.systemd.Table.{object_among, what_among, flags_among, step_among, root_flags, root_step, steps_among};

use crate::entry::hides_dir;
use crate::error::PlanError;
use crate::systemd::listing::{listed, nodes};
use crate::systemd::making::{ask_each, beneath_at, has_source, longest_beneath, made, putting};
use abs_path::AbsPath;
use kern_mounts::{Flags, MountStep, What};
use path_settings::systemd::{MountEntry, MountMode, OwnFlags, is_no_exec, is_read_only};
use site_table::SiteTable;
use std::alloc::{AllocError, Global};

fn begins_for(path: &AbsPath, one: &MountEntry) -> bool
    ensures { result ≡ begins_for path.now one.now }
{
    one.path.is_prefix(path) && one.mode.begins_with().is_some()
}

// Returns whether an entry has as long a path as another one, if that one begins so for the path.
fn is_as_long(path: &AbsPath, one: &MountEntry, other: &MountEntry) -> bool
    ensures { result ≡ (not (begins_for path.now other.now)
        || nat_le (length (tail_of other.now.path)) (length (tail_of one.now.path))) }
{
    !begins_for(path, other) || other.path.tail_len() <= one.path.tail_len()
}

// Returns whether an entry has as long a path as each one that begins so for the path.
fn is_as_long_as_each(beginning: &[&MountEntry], path: &AbsPath, one: &MountEntry) -> bool
    ensures { result ≡ list_all (λ other. not (begins_for path.now other)
        || nat_le (length (tail_of other.path)) (length (tail_of one.now.path))) (map (λ one. one.now) beginning.now) }
{
    beginning.iter().all(|other| is_as_long(path, one, *other))
}

fn is_longest_beginning(beginning: &[&MountEntry], path: &AbsPath, one: &MountEntry) -> bool
    ensures { result ≡ is_longest_such (begins_for path.now) (map (λ one. one.now) beginning.now) one.now }
{
    begins_for(path, one) && is_as_long_as_each(beginning, path, one)
}

fn longest_beginning<'a>(beginning: &[&'a MountEntry], path: &AbsPath) -> Option<&'a MountEntry>
    ensures { option_map (λ one. one.now) result ≡ longest_such (begins_for path.now) (map (λ one. one.now) beginning.now) }
{
    beginning
        .iter()
        .copied()
        .find(|one| is_longest_beginning(beginning, path, *one))
}

// Returns the flags at a path before any is set.
fn begins_at(beginning: &[&MountEntry], path: &AbsPath) -> OwnFlags
    ensures { result ≡ begins_by (longest_such (begins_for path.now) (map (λ one. one.now) beginning.now)) }
{
    match longest_beginning(beginning, path) {
        Some(one) => one.mode.begins_with().unwrap_or(OwnFlags::none()),
        None => OwnFlags::none(),
    }
}

// Returns whether the mount of a made entry is at the path or above it, and is not left as it is.
fn is_changed_over(path: &AbsPath, one: &MountEntry) -> bool
    ensures { result ≡ is_changed_over path.now one.now }
{
    one.path.is_prefix(path) && !one.mode.is_left()
}

fn is_changed(made: &[&MountEntry], path: &AbsPath) -> bool
    ensures { result ≡ list_any (is_changed_over path.now) (map (λ one. one.now) made.now) }
{
    made.iter().any(|one| is_changed_over(path, *one))
}

// Returns whether programs at a path give no privileges. `begins` says if they give none before any flag is set.
fn is_no_suid(no_new_privs: bool, made: &[&MountEntry], path: &AbsPath, begins: bool) -> bool
    ensures { result ≡ set_no_suid no_new_privs (map (λ one. one.now) made.now) path.now begins }
{
    begins || (no_new_privs && is_changed(made, path))
}

// Returns what an entry above a path, or the node at the path, shows there.
fn shown_by(alloc: Global, one: &MountEntry, path: &AbsPath) -> Result<What, AllocError>
    requires leads { is_prefix one.now.path path.now ≡ true }
    requires short { HasShortHost (object_by one.now.mode one.now.path path.now) }
    ensures { IfOk result (λ what. what ≡ what_of (object_by one.now.mode one.now.path path.now) true) }
{
    match &one.mode {
        MountMode::Hidden => Ok(What::Hidden { directory: true }),
        MountMode::Bind { source, .. } => {
            let host = path.moved(alloc, &one.path, source)?;
            Ok(What::Host(host))
        }
        MountMode::RecursiveBind { source, .. } => {
            let host = path.moved(alloc, &one.path, source)?;
            Ok(What::Host(host))
        }
        MountMode::DisconnectedTmp
        | MountMode::PrivateTmp
        | MountMode::PrivateDevices
        | MountMode::Tmpfs { .. } => Ok(What::Empty),
        _ => {
            let host = path.copy(alloc)?;
            Ok(What::Host(host))
        }
    }
}

// Returns what is at a path before anything is mounted there.
fn shown_beneath(alloc: Global, putting: &[&MountEntry], path: &AbsPath) -> Result<What, AllocError>
    requires { HasShortHost (object_in (map (λ one. one.now) putting.now) path.now) }
    ensures { IfOk result (λ what. what ≡ what_of (object_in (map (λ one. one.now) putting.now) path.now) true) }
{
    match longest_beneath(putting, path) {
        None => {
            let host = path.copy(alloc)?;
            Ok(What::Host(host))
        }
        Some(one) => shown_by(alloc, one, path),
    }
}

// Returns what a made entry shows at its path.
fn what_among(
    alloc: Global,
    site: &SiteTable,
    putting: &[&MountEntry],
    one: &MountEntry,
) -> Result<What, AllocError>
    requires { HasShortHost (object_among (map (λ one. one.now) putting.now) one.now) }
    ensures { IfOk result (λ what. what ≡ what_among (host_of site.now) (map (λ one. one.now) putting.now) one.now) }
{
    if one.mode.hides() {
        let directory = hides_dir(beneath_at(site, putting, &one.path));
        return Ok(What::Hidden { directory });
    }
    if one.mode.is_origin() {
        return shown_by(alloc, one, &one.path);
    }
    shown_beneath(alloc, putting, &one.path)
}

// Returns how the service may use the object of a made entry.
fn flags_among(
    no_new_privs: bool,
    entries: &[MountEntry],
    beginning: &[&MountEntry],
    made: &[&MountEntry],
    one: &MountEntry,
) -> Flags
    ensures { result ≡ flags_among no_new_privs entries.now
        (map (λ one. one.now) beginning.now) (map (λ one. one.now) made.now) one.now }
{
    if one.mode.hides() {
        return Flags::default();
    }
    let begins = begins_at(beginning, &one.path);
    Flags {
        read_only: is_read_only(entries, one),
        no_exec: is_no_exec(entries, one, begins.no_exec),
        no_suid: is_no_suid(no_new_privs, made, &one.path, begins.no_suid),
    }
}

fn step_among(
    alloc: Global,
    site: &SiteTable,
    no_new_privs: bool,
    entries: &[MountEntry],
    putting: &[&MountEntry],
    beginning: &[&MountEntry],
    made: &[&MountEntry],
    one: &MountEntry,
) -> Result<MountStep, AllocError>
    requires { HasShortHost (object_among (map (λ one. one.now) putting.now) one.now) }
    ensures { IfOk result (λ step. step ≡ step_among (host_of site.now) no_new_privs entries.now
        (map (λ one. one.now) putting.now) (map (λ one. one.now) beginning.now) (map (λ one. one.now) made.now) one.now) }
{
    let what = what_among(alloc, site, putting, one)?;
    Ok(MountStep {
        place: one.path.copy(alloc)?,
        what,
        flags: flags_among(no_new_privs, entries, beginning, made, one),
    })
}

// Returns the entry that is made at the root.
fn root_entry<'a>(made: &[&'a MountEntry]) -> Option<&'a MountEntry>
    ensures { option_map (λ one. one.now) result ≡ find (λ one. is_root one.path) (map (λ one. one.now) made.now) }
{
    made.iter().copied().find(|one| one.path.is_root())
}

// Returns how the service may use the root: as the entry that is made there says, if there is one.
fn root_flags(
    no_new_privs: bool,
    entries: &[MountEntry],
    beginning: &[&MountEntry],
    made: &[&MountEntry],
) -> Flags
    ensures { result ≡ root_flags no_new_privs entries.now (map (λ one. one.now) beginning.now) (map (λ one. one.now) made.now)
        (find (λ one. is_root one.path) (map (λ one. one.now) made.now)) }
{
    match root_entry(made) {
        Some(one) => flags_among(no_new_privs, entries, beginning, made, one),
        None => Flags::default(),
    }
}

// Returns the first entry of a plan: the host's root, with the flags of the entry that is made there.
fn root_step(
    alloc: Global,
    no_new_privs: bool,
    entries: &[MountEntry],
    beginning: &[&MountEntry],
    made: &[&MountEntry],
) -> MountStep
    ensures { result ≡ root_step no_new_privs entries.now (map (λ one. one.now) beginning.now) (map (λ one. one.now) made.now)
        (map (λ one. one.now) made.now) }
{
    MountStep {
        place: AbsPath::root(alloc),
        what: What::Host(AbsPath::root(alloc)),
        flags: root_flags(no_new_privs, entries, beginning, made),
    }
}

// Adds the entries of a plan for the made entries that are not at the root.
fn add_steps(
    alloc: Global,
    site: &SiteTable,
    no_new_privs: bool,
    entries: &[MountEntry],
    putting: &[&MountEntry],
    beginning: &[&MountEntry],
    made: &[&MountEntry],
    steps: &mut Vec<MountStep>,
) -> Result<(), AllocError>
    requires { All (λ one. HasShortHost (object_among (map (λ one. one.now) putting.now) one.now)) made.now }
    ensures { OnOk result (steps.new.items ≡ steps.old.items
        ++ map (step_among (host_of site.now) no_new_privs entries.now
        (map (λ one. one.now) putting.now) (map (λ one. one.now) beginning.now) (map (λ one. one.now) made.now))
        (filter (λ one. not (is_root one.path)) (map (λ one. one.now) made.now))) }
{
    for one in made {
        if !one.path.is_root() {
            steps.push(step_among(
                alloc,
                site,
                no_new_privs,
                entries,
                putting,
                beginning,
                made,
                *one,
            )?)?;
        }
    }
    Ok(())
}

// Returns the plan of these made entries.
fn steps_among(
    alloc: Global,
    site: &SiteTable,
    no_new_privs: bool,
    entries: &[MountEntry],
    putting: &[&MountEntry],
    beginning: &[&MountEntry],
    made: &[&MountEntry],
) -> Result<Vec<MountStep>, AllocError>
    requires { All (λ one. HasShortHost (object_among (map (λ one. one.now) putting.now) one.now)) made.now }
    ensures { IfOk result (λ steps. steps.items ≡ steps_among (host_of site.now) no_new_privs entries.now
        (map (λ one. one.now) putting.now) (map (λ one. one.now) beginning.now) (map (λ one. one.now) made.now)) }
{
    let mut steps = Vec::new(alloc);
    steps.push(root_step(alloc, no_new_privs, entries, beginning, made))?;
    add_steps(
        alloc,
        site,
        no_new_privs,
        entries,
        putting,
        beginning,
        made,
        &mut steps,
    )?;
    Ok(steps)
}

// Adds the nodes whose objects exist.
fn add_nodes<'a>(
    site: &SiteTable,
    nodes: &[&'a MountEntry],
    beginning: &mut Vec<&'a MountEntry>,
) -> Result<(), AllocError>
    ensures { OnOk result (map (λ one. one.now) beginning.new.items ≡ map (λ one. one.now) beginning.old.items
        ++ filter (has_source (host_of site.now)) (map (λ one. one.now) nodes.now)) }
{
    for one in nodes {
        if has_source(site, *one) {
            beginning.push(*one)?;
        }
    }
    Ok(())
}

// Adds these entries.
fn add_all<'a>(from: &[&'a MountEntry], found: &mut Vec<&'a MountEntry>) -> Result<(), AllocError>
    ensures { OnOk result (map (λ one. one.now) found.new.items ≡ map (λ one. one.now) found.old.items ++ map (λ one. one.now) from.now) }
{
    for one in from {
        found.push(*one)?;
    }
    Ok(())
}

// Returns the made entries and the nodes, of which some begin in a way of their own.
fn beginning<'a>(
    alloc: Global,
    site: &SiteTable,
    made: &[&'a MountEntry],
    nodes: &[&'a MountEntry],
) -> Result<Vec<&'a MountEntry>, AllocError>
    ensures { IfOk result (λ found. map (λ one. one.now) found.items ≡ map (λ one. one.now) made.now
        ++ filter (has_source (host_of site.now)) (map (λ one. one.now) nodes.now)) }
{
    let mut found = Vec::new(alloc);
    add_all(made, &mut found)?;
    add_nodes(site, nodes, &mut found)?;
    Ok(found)
}

// Returns the plan of the listed entries and the nodes, or the first refusal.
fn plan_listed(
    alloc: Global,
    site: &SiteTable,
    no_new_privs: bool,
    entries: &[MountEntry],
    list: &[&MountEntry],
    devices: &[&MountEntry],
) -> Result<Vec<MountStep>, PlanError>
    requires root_is_the_hosts { leaves_the_root entries.now ≡ true }
    requires whole { list_all is_whole entries.now ≡ true }
    requires sound { IsSite site.now }
    requires all_listed { map (λ one. one.now) list.now ≡ listed entries.now }
    requires all_nodes { map (λ one. one.now) devices.now ≡ nodes entries.now }
    ensures { Tables (host_of site.now) no_new_privs entries.now result }
{
    let putting = putting(alloc, site, list, devices)?;
    ask_each(alloc, site, &putting, list)?;
    let made = made(alloc, site, &putting, devices, list)?;
    let beginning = beginning(alloc, site, &made, devices)?;
    Ok(steps_among(
        alloc,
        site,
        no_new_privs,
        entries,
        &putting,
        &beginning,
        &made,
    )?)
}

/// Makes the plan for these entries, or returns the first refusal in byte order of their paths. `no_new_privs` says if
/// NoNewPrivileges= or DynamicUser= is on.
pub(crate) fn plan_entries(
    alloc: Global,
    site: &SiteTable,
    no_new_privs: bool,
    entries: &[MountEntry],
) -> Result<Vec<MountStep>, PlanError>
    requires root_is_the_hosts { leaves_the_root entries.now ≡ true }
    requires whole { list_all is_whole entries.now ≡ true }
    requires sound { IsSite site.now }
    ensures { Tables (host_of site.now) no_new_privs entries.now result }
{
    let list = listed(alloc, entries)?;
    let devices = nodes(alloc, entries)?;
    plan_listed(alloc, site, no_new_privs, entries, &list, &devices)
}
