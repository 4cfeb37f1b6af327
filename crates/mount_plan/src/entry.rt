//! Makes the entry of a plan at one place, by the view of that place.

ghost use Rattle.std.specs.Prelude.{◌≡◌, true, map, IfOk};
ghost use Rattle.path_settings.specs.abs_path.Prefix.{is_prefix};
ghost use Rattle.path_settings.specs.view_map.Object.{object_at, object_by};
ghost use Rattle.mount_plan.specs.Host.{host_of};
ghost use Rattle.mount_plan.specs.Plan.{what_of, flags_by, hides_dir, hides_dir_at, step_at};
ghost use Rattle.mount_plan.specs.Short.{HasShortHost, HaveShortHosts};

use crate::kept::beneath_at;
use abs_path::AbsPath;
use kern_mounts::{Flags, MountStep, What};
use path_settings::view_map::{Beneath, Seen, origin_at, view_of};
use path_settings::{Kind, Mention};
use site_table::SiteTable;
use std::alloc::{AllocError, Global};

/// Returns whether a hidden object is a directory, by what is beneath it.
pub(crate) fn hides_dir(beneath: Beneath) -> bool
    ensures { result ≡ hides_dir beneath }
{
    match beneath {
        Beneath::Row { is_dir } => is_dir,
        _ => true,
    }
}

// Returns what a mention shows at a path that its own path leads to.
fn what_by(
    alloc: Global,
    mention: &Mention,
    path: &AbsPath,
    is_dir: bool,
) -> Result<What, AllocError>
    requires leads { is_prefix mention.now.path path.now ≡ true }
    requires short { HasShortHost (object_by mention.now.kind mention.now.path path.now) }
    ensures { IfOk result (λ what.
        what ≡ what_of (object_by mention.now.kind mention.now.path path.now) is_dir) }
{
    match &mention.kind {
        Kind::Hide => Ok(What::Hidden { directory: is_dir }),
        Kind::Tmp { .. } => Ok(What::Empty),
        Kind::Bind { source, .. } => {
            let host = path.moved(alloc, &mention.path, source)?;
            Ok(What::Host(host))
        }
        _ => {
            let host = path.copy(alloc)?;
            Ok(What::Host(host))
        }
    }
}

// Returns what the plan shows at a place.
fn what_at(
    alloc: Global,
    site: &SiteTable,
    kept: &[Mention],
    place: &AbsPath,
) -> Result<What, AllocError>
    requires { HasShortHost (object_at kept.now place.now) }
    ensures { IfOk result (λ what. what
        ≡ what_of (object_at kept.now place.now) (hides_dir_at (host_of site.now) kept.now place.now)) }
{
    match origin_at(kept, place) {
        None => {
            let host = place.copy(alloc)?;
            Ok(What::Host(host))
        }
        Some((_, mention)) => {
            let is_dir = hides_dir(beneath_at(site, kept, place));
            what_by(alloc, mention, place, is_dir)
        }
    }
}

// Returns how the service may use what is shown. A hidden object has no flags.
fn flags_for(what: &What, seen: Seen) -> Flags
    ensures { result ≡ flags_by what.now seen.read_only seen.no_exec }
{
    match what {
        What::Hidden { .. } => Flags::default(),
        _ => Flags {
            read_only: seen.read_only,
            no_exec: seen.no_exec,
            no_suid: false,
        },
    }
}

// Makes the entry at a place.
fn step_at(
    alloc: Global,
    site: &SiteTable,
    kept: &[Mention],
    place: &AbsPath,
) -> Result<MountStep, AllocError>
    requires { HasShortHost (object_at kept.now place.now) }
    ensures { IfOk result (λ step.
        step ≡ step_at kept.now (hides_dir_at (host_of site.now) kept.now) place.now) }
{
    let what = what_at(alloc, site, kept, place)?;
    let flags = flags_for(&what, view_of(kept, place));
    Ok(MountStep {
        place: place.copy(alloc)?,
        what,
        flags,
    })
}

/// Makes the entries at these places.
pub fn steps_at(
    alloc: Global,
    site: &SiteTable,
    kept: &[Mention],
    places: &[AbsPath],
) -> Result<Vec<MountStep>, AllocError>
    requires { HaveShortHosts kept.now places.now }
    ensures by_the_entry { IfOk result (λ steps.
        steps.items ≡ map (step_at kept.now (hides_dir_at (host_of site.now) kept.now)) places.now) }
{
    let mut steps = Vec::new(alloc);
    for place in places {
        steps.push(step_at(alloc, site, kept, place)?)?;
    }
    Ok(steps)
}
