//! Defines the settings of a unit that its filters follow.
ghost use Rattle.std.specs.Prelude.{◌≡◌};
ghost use Rattle.filter_settings.specs.filter_rules.Memory.{marks_memory};

use crate::filter_rules::mentions::{CallList, FamilyList};
use crate::filter_rules::namespace_types::NamespaceTypes;
use crate::filter_rules::personality::Domain;
use call_rules::Action;
use dropin_merge::Version;

/// The settings of a unit that its filters follow (systemd.exec(5)).
#[derive(Drop)]
pub struct FilterSettings {
    /// SystemCallFilter=, if it is set.
    pub calls: Option<CallList>,
    /// SystemCallErrorNumber=: the action on the calls that SystemCallFilter= refuses.
    pub default_action: Action,
    /// RestrictAddressFamilies=, if it is set.
    pub families: Option<FamilyList>,
    /// RestrictNamespaces=
    pub namespaces: NamespaceTypes,
    pub memory_deny_write_execute: bool,
    pub restrict_realtime: bool,
    pub restrict_suid_sgid: bool,
    pub lock_personality: bool,
    pub protect_hostname: bool,
    pub protect_kernel_modules: bool,
    pub protect_kernel_logs: bool,
    pub protect_clock: bool,
    pub private_devices: bool,
    /// SystemCallArchitectures= is set, and does not permit the second ABI.
    pub second_abi_refused: bool,
    /// The systemd whose rules make the filters. None means the base profile.
    pub systemd: Option<Version>,
    /// ProtectKernelTunables=. Only a version of systemd has a filter for it.
    pub protect_kernel_tunables: bool,
    /// Personality=: the domain that LockPersonality= lets be set with a version of systemd.
    pub domain: Domain,
}

/// Returns whether MemoryDenyWriteExecute= is a mark of the process, and no filter. systemd 257 sets it with PR_SET_MDWE of prctl(2).
pub fn marks_memory(settings: &FilterSettings) -> bool
    ensures as_set { result ≡ marks_memory settings.now }
{
    settings.memory_deny_write_execute && matches!(settings.systemd, Some(Version::V257))
}
