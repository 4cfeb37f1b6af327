//! Makes the plan of a service's mounts, which shows what the view has.

ghost use Rattle.std.specs.Prelude.{◌≡◌, true, IfOk, IsTrue};
ghost use Rattle.std.specs.List.{list_all};
ghost use Rattle.path_settings.specs.Mentioned as mentioned;
ghost use Rattle.path_settings.specs.Mentions.{leaves_the_root, is_whole};
ghost use Rattle.path_settings.specs.view_map.Kept.{kept_of};
ghost use Rattle.kern_mounts.specs.Launch.{CanBeMounted};
ghost use Rattle.mount_plan.specs.Host.{host_of};
ghost use Rattle.mount_plan.specs.Plan.{places_of, table_of};
ghost use Rattle.mount_plan.specs.AsView.{FindsAsView};
ghost use Rattle.mount_plan.specs.Form.{HasPlacesOf};
ghost use Rattle.mount_plan.specs.Short.{HaveShortHosts};
ghost use Rattle.mount_plan.specs.Answers.{Keeps, PlansBase, Plans};
ghost use Rattle.mount_plan.specs.Planned.{views, AreKeptByRules};
ghost use Rattle.site_table.specs.Table.{IsSite};

use crate::MountSteps;
use crate::entry::steps_at;
use crate::error::PlanError;
use crate::kept::kept_at_all;
use crate::places::put_paths;
use crate::systemd::plan_entries;
use abs_path::AbsPath;
use kern_mounts::MountStep;
use path_settings::{Mention, Mentioned};
use site_table::SiteTable;
use std::alloc::{AllocError, Global};

// Returns the mentions that the rules keep, or the first refusal in byte order of the paths.
fn kept_of(alloc: Global, site: &SiteTable, mentions: &[Mention]) -> Result<Vec<Mention>, PlanError>
    ensures { Keeps (kept_of (host_of site.now) mentions.now) result }
{
    let mut paths = Vec::new(alloc);
    put_paths(alloc, &mut paths, mentions)?;
    kept_at_all(alloc, site, mentions, &paths)
}

// Makes the entries for the root and for each kept path, each with what the view has there.
fn table_of(alloc: Global, site: &SiteTable, kept: &[Mention]) -> Result<Vec<MountStep>, AllocError>
    requires { HaveShortHosts kept.now (places_of kept.now) }
    ensures { IfOk result (λ table. table.items ≡ table_of (host_of site.now) kept.now) }
{
    let mut places = Vec::new(alloc);
    places.push(AbsPath::root(alloc))?;
    put_paths(alloc, &mut places, kept)?;
    steps_at(alloc, site, kept, &places)
}

// Makes the plan for mentions in a slice, by the rules of the base profile.
fn plan_of(alloc: Global, site: &SiteTable, mentions: &[Mention]) -> Result<MountSteps, PlanError>
    requires root_is_the_hosts { leaves_the_root mentions.now ≡ true }
    requires whole { list_all is_whole mentions.now ≡ true }
    ensures { PlansBase (host_of site.now) mentions.now result }
{
    // A borrow of the rows says what holds of each site: their paths are short.
    let _rows = site.rows();
    let kept = kept_of(alloc, site, mentions)?;
    let steps = table_of(alloc, site, &kept)?;
    Ok(MountSteps::new(steps))
}

/// Makes the mounts that give a service with these mentions its view of the site, by the rules that read them.
///
/// The first mount is `/` on the host with its flags. One mount follows for each other path that has a kept mention, or a
/// made entry, in byte order. The object at the root is the host's: no mention may hide it, empty it or bind over it
/// (`Mentions::leaves_the_root`).
///
/// `Missing` and `Kind` name the first path in byte order at which the rules refuse a mention, or the source of a bind
/// there that is no row. `Memory` is possible for any mentions.
pub fn plan(alloc: Global, mentions: &Mentioned, site: &SiteTable) -> Result<MountSteps, PlanError>
    requires root_is_the_hosts { IsTrue (mentioned.leaves_the_root mentions.now) }

    // In the base profile the kept mentions decide. The rules keep just these if they are asked with the kept mentions.
    ensures table_or_first_refusal { Plans (host_of site.now) mentions.now result }
    ensures keeps_by_rules { AreKeptByRules (host_of site.now) mentions.now }
    ensures finds_as_view { IfOk result (λ table.
        IfOk (views (host_of site.now) mentions.now) (λ view. FindsAsView view table)) }

    // A launch can mount the plan if its paths are short. The law `plans_have_a_form` holds for paths of any length.
    ensures places_are_mentioned { IfOk result (HasPlacesOf mentions.now) }
    ensures can_be_mounted { mentioned.AreShort mentions.now → IfOk result (CanBeMounted (host_of site.now)) }
{
    let _rows = site.rows();
    match mentions {
        Mentioned::Base(list) => plan_of(alloc, site, list.list()),
        Mentioned::Systemd {
            entries,
            no_new_privs,
        } => {
            let steps = plan_entries(alloc, site, *no_new_privs, entries.list())?;
            Ok(MountSteps::new(steps))
        }
    }
}
