//! The law of two sites: a service cannot find out what lies below a folder that it is blind to.

ghost use Rattle.std.specs.Prelude.{◌≡◌, ℕ, None, Ok};
ghost use Rattle.ceilings.specs.exec_settings.AreSettings.{AreSettings};
ghost use Rattle.ceilings.specs.exec_settings.Refusals.{refusal_of};
ghost use Rattle.ceilings.specs.exec_settings.declared.service.Settings.{Settings};
ghost use Rattle.ceilings.specs.kern_mounts.Launch.{CanBeMounted};
ghost use Rattle.ceilings.specs.kern_mounts.Split.{Table};
ghost use Rattle.ceilings.specs.kernel_model.kernel_calls.Calls.{IsPath};
ghost use Rattle.ceilings.specs.kernel_laws.Denied.{IsBlind};
ghost use Rattle.ceilings.specs.kernel_model.World.{World};
ghost use Rattle.ceilings.specs.launcher.Answers.{given_bytes, launch_with};
ghost use Rattle.ceilings.specs.launcher.Launch.{Launched};
ghost use Rattle.ceilings.specs.mount_plan.Answers.{Plans};
ghost use Rattle.ceilings.specs.mount_plan.Host.{host_of};
ghost use Rattle.ceilings.specs.path_settings.Mentioned.{AreKept};
ghost use Rattle.ceilings.specs.site_table.Table.{IsSite};
ghost use Rattle.judge.specs.Alike.{IsAlike};
ghost use Rattle.judge.specs.Sites.{AgreeForUnit};

use abs_path::AbsPath;
use ceilings::{CallTable, FilterProgram, Resolved, SiteTable};

// Says what holds of both sites: the calls that lend a part of a site ensure it.
fn know_sites(site: &SiteTable, other: &SiteTable)
    ensures site { IsSite site.now }
    ensures other { IsSite other.now }
{
    let _uid = site.dynamic_uid();
    let _other_uid = other.dynamic_uid();
}

/// States that a service cannot distinguish two sites that differ only below a folder to which it is blind.
///
/// On the first site neither the unit nor its plan is refused, the launch with these programs ends in a service, and no list of
/// calls shows that service a place strictly below the folder. Then the other site refuses neither the unit nor its plan.
/// Settings and plan are the same, and so are the replies to every list of calls. The launch with the same programs takes the
/// same number of steps and leaves the same world except for the site.
///
/// The two sites have the same ids, accounts and count of user namespaces, and the same rows except strictly below the folder.
/// They agree in two more things. At each path that a key in force implies (systemd.exec(5), Sandboxing), both have a row of
/// one kind or neither has a row. The source of each bind is a directory in both, a row of another kind in both, or a row of
/// neither.
///
/// The folder is any path: neither site need have a row there. The programs are any that seccomp(2) takes, and need not match
/// the filters. The call takes no memory and does nothing: its contract is the law.
pub fn alike(
    unit: &Resolved,
    calls: &CallTable,
    site: &SiteTable,
    other: &SiteTable,
    programs: &[FilterProgram],
    folder: &AbsPath,
)
    // `settings`, `plan` and `launch` ensure the premises of what they make, or the types of what they make keep them.
    ensures to_what_is_blind { (settings : Settings) (plan : Table) (last : World) (steps : ℕ)
        → refusal_of unit.now calls.now site.now ≡ None → AreSettings unit.now calls.now site.now settings
        → AreKept settings.mentions → IsPath settings.program
        → Plans (host_of site.now) settings.mentions (Ok plan) → CanBeMounted (host_of site.now) plan
        → launch_with calls.now site.now settings plan (given_bytes programs.now) ≡ Launched last steps
        → IsBlind last folder.now → AgreeForUnit folder.now unit.now site.now other.now
        → IsAlike unit.now calls.now other.now settings plan (given_bytes programs.now) last steps }
{
    calls.look_at();
    know_sites(site, other);
}
