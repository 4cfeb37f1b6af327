//! Compares a service with itself on the other site of a pair, by the law of two sites.
ghost use Rattle.std.specs.Prelude.{◌≡◌, true, [], None, Ok, Some, IfOk};
ghost use Rattle.kernel_rows.specs.Elsewhere.{AreSameThere, IsBlindThere, IsSameThere};
ghost use Rattle.asked_service.specs.ceilings.Own.{IsCeilingOf};
ghost use Rattle.asked_service.specs.exec_settings.AreSettings.{AreSettings};
ghost use Rattle.asked_service.specs.exec_settings.Refusals.{refusal_of};
ghost use Rattle.asked_service.specs.kern_mounts.Launch.{CanBeMounted};
ghost use Rattle.asked_service.specs.kernel_laws.Denied.{IsBlind};
ghost use Rattle.asked_service.specs.kernel_laws.Launched.{launch_of};
ghost use Rattle.asked_service.specs.launcher.Answers.{given_bytes};
ghost use Rattle.asked_service.specs.mount_plan.Answers.{Plans};
ghost use Rattle.asked_service.specs.mount_plan.Host.{host_of};
ghost use Rattle.asked_service.specs.path_settings.Mentioned.{AreKept};
ghost use Rattle.asked_service.specs.site_table.Table.{kind_at};
ghost use Rattle.asked_service.specs.site_table.declared.kinds.RowKind.TheVariants.{Dir};
ghost use Rattle.asked_service.specs.launching.Launched.{IsLaunched};

use crate::alike::asked::Asked;
use abs_path::AbsPath;
use asked_service::{
    Ceiling, FilterProgram, Launched, MountStep, RowKind, Settings, alike, blind, ceiling,
};
use mount_plan::Mentioned;
use std::alloc::{AllocError, Global};

// Does nothing. Its contract says that there are few mentions and that each is whole, as a call of `list` guarantees.
fn know_mentions(mentions: &Mentioned)
    ensures kept { AreKept mentions.now }
{
    match mentions {
        Mentioned::Base(mentions) => {
            let _list = mentions.list();
        }
        Mentioned::Systemd { entries, .. } => {
            let _list = entries.list();
        }
    }
}

// States the law at these settings and their plan, which meet its premises, and at any programs. It does nothing.
fn know_alike(
    asked: &Asked<'_>,
    settings: &Settings,
    plan: &[MountStep],
    programs: &[FilterProgram],
    folder: &AbsPath,
)
    requires accepted { refusal_of asked.now.unit.now asked.now.calls.now asked.now.site.now ≡ None }
    requires settings { AreSettings asked.now.unit.now asked.now.calls.now asked.now.site.now settings.now }
    requires plan { Plans (host_of asked.now.site.now) settings.now.mentions (Ok plan.now) }
    requires mounts { CanBeMounted (host_of asked.now.site.now) plan.now }
    ensures whichever_programs { AreSameThere asked.now settings.now plan.now (given_bytes programs.now) folder.now }
{
    know_mentions(&settings.mentions);
    let _program = settings.program.text();
    alike(
        asked.unit,
        asked.calls,
        asked.site,
        asked.other,
        programs,
        folder,
    );
}

// Returns whether the service is blind to the folder. If it is, it is the same on the other site. So is one that is
// launched without any filter, whose programs match no filter of the settings: the law is called at programs that
// nothing is known of.
fn is_blind_at(
    asked: &Asked<'_>,
    settings: &Settings,
    plan: &[MountStep],
    service: &Launched<'_>,
    top: &Ceiling,
    folder: &AbsPath,
) -> bool
    requires accepted { refusal_of asked.now.unit.now asked.now.calls.now asked.now.site.now ≡ None }
    requires settings { AreSettings asked.now.unit.now asked.now.calls.now asked.now.site.now settings.now }
    requires plan { Plans (host_of asked.now.site.now) settings.now.mentions (Ok plan.now) }
    requires mounts { CanBeMounted (host_of asked.now.site.now) plan.now }
    requires launched { IsLaunched asked.now.calls.now asked.now.site.now settings.now plan.now service.now }
    requires its_own_ceiling { IsCeilingOf (launch_of service.now.world) top.now }
    requires folder { kind_at asked.now.site.now.rows folder.now ≡ Some Dir }
    ensures blind { result ≡ true → IsBlind service.now.world folder.now }
    ensures unfiltered { AreSameThere asked.now settings.now plan.now [] folder.now }
    ensures same_there { result ≡ true → IsSameThere asked.now settings.now plan.now
        (given_bytes service.now.filters) folder.now service.now.world service.now.steps }
{
    know_alike(asked, settings, plan, service.filters.list(), folder);
    know_alike(asked, settings, plan, &[], folder);
    blind(service, top, folder)
}

/// Returns whether the folder of the question is a folder of the site that the service is blind to. Then the service
/// is the same on the other site: what `settings`, `plan` and `launch_planned` ensure of it meets each premise of the
/// law of two sites.
pub fn is_blind_there(
    alloc: Global,
    asked: &Asked<'_>,
    settings: &Settings,
    plan: &[MountStep],
    service: &Launched<'_>,
) -> Result<bool, AllocError>
    requires accepted { refusal_of asked.now.unit.now asked.now.calls.now asked.now.site.now ≡ None }
    requires settings { AreSettings asked.now.unit.now asked.now.calls.now asked.now.site.now settings.now }
    requires plan { Plans (host_of asked.now.site.now) settings.now.mentions (Ok plan.now) }
    requires mounts { CanBeMounted (host_of asked.now.site.now) plan.now }
    requires launched { IsLaunched asked.now.calls.now asked.now.site.now settings.now plan.now service.now }
    ensures blind_and_the_same { IfOk result (λ is_blind. is_blind ≡ true
        → IsBlindThere asked.now settings.now plan.now service.now) }
{
    let top = ceiling(alloc, service)?;
    for row in asked.site.rows() {
        if let RowKind::Dir = row.kind {
            if row.path.text() == asked.folder {
                return Ok(is_blind_at(asked, settings, plan, service, &top, &row.path));
            }
        }
    }
    Ok(false)
}
