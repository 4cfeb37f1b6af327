//! Reads all keys that protect the file system.
ghost use Rattle.std.specs.Prelude.{◌≡◌, IfOk};
ghost use Rattle.mount_settings.specs.Protections.{unit_protections, protection_notes, raised, in_effect};

use crate::systemd::read_groups;
use crate::tmp::read_tmp;
use dropin_merge::Resolved;
use dropin_merge::unit_values::{Said, flag_of_key, last_of_key};
use std::alloc::{AllocError, Global};

/// Says how much of the system is read-only for a service.
#[derive(Clone, Copy)]
pub enum SystemProtection {
    /// Nothing is read-only.
    No,
    /// `/usr`, `/boot` and `/efi` are read-only.
    Yes,
    /// `/etc` is read-only too.
    Full,
    /// All is read-only but `/dev`, `/proc` and `/sys`. A known version of systemd also excepts the homes of users.
    Strict,
}

/// Says what a service sees of the homes of users: of `/home`, `/root` and `/run/user`.
#[derive(Clone, Copy)]
pub enum HomeProtection {
    /// The homes are visible.
    No,
    /// The homes are hidden.
    Yes,
    /// The homes are read-only.
    ReadOnly,
    /// The homes are empty and read-only. In systemd 252 they are writable.
    Tmpfs,
}

/// The values of the keys that protect the file system and nothing else.
#[derive(Clone, Copy)]
pub struct Protections {
    /// ProtectSystem=
    pub protect_system: SystemProtection,
    /// ProtectHome=
    pub protect_home: HomeProtection,
    /// PrivateTmp=
    pub private_tmp: bool,
    /// ProtectKernelTunables=
    pub protect_kernel_tunables: bool,
    /// ProtectControlGroups=
    pub protect_control_groups: bool,
}

/// The values of the boolean keys that protect the file system and decide other things too.
#[derive(Clone, Copy)]
pub struct Switches {
    /// PrivateDevices=
    pub private_devices: bool,
    /// ProtectKernelModules=
    pub protect_kernel_modules: bool,
    /// ProtectKernelLogs=
    pub protect_kernel_logs: bool,
    /// DynamicUser=
    pub dynamic_user: bool,
}

/// Reads the protections of the files of a unit, with the notes of each key.
#[tactic(auto, unfolding(crate::specs::Protections::unit_protections, crate::specs::Protections::protection_notes))]
pub(crate) fn read_protections(
    alloc: Global,
    unit: &Resolved,
) -> Result<Said<Protections>, AllocError>
    ensures means { IfOk result (λ said. said.what ≡ unit_protections unit.now) }
    ensures noted { IfOk result (λ said. said.notes.items ≡ protection_notes unit.now) }
{
    let Said {
        what: protect_system,
        mut notes,
    } = last_of_key(alloc, unit, "ProtectSystem", SystemProtection::No)?;
    let home = last_of_key(alloc, unit, "ProtectHome", HomeProtection::No)?;
    let protect_home = home.noted_in(&mut notes)?;
    let private_tmp = read_tmp(alloc, unit)?.noted_in(&mut notes)?;
    let tunables = flag_of_key(alloc, unit, "ProtectKernelTunables")?;
    let protect_kernel_tunables = tunables.noted_in(&mut notes)?;
    let groups = read_groups(alloc, unit)?.noted_in(&mut notes)?;
    let protect_control_groups = groups.is_on();
    let what = Protections {
        protect_system,
        protect_home,
        private_tmp,
        protect_kernel_tunables,
        protect_control_groups,
    };
    Ok(Said { what, notes })
}

fn raised(home: HomeProtection) -> HomeProtection
    ensures { result ≡ raised home }
{
    match home {
        HomeProtection::No => HomeProtection::ReadOnly,
        other => other,
    }
}

/// Returns the protections in effect, with or without a dynamic user.
pub(crate) fn in_effect(dynamic_user: bool, said: Protections) -> Protections
    ensures { result ≡ in_effect dynamic_user said }
{
    if dynamic_user {
        Protections {
            protect_system: SystemProtection::Strict,
            protect_home: raised(said.protect_home),
            private_tmp: true,
            ..said
        }
    } else {
        said
    }
}
