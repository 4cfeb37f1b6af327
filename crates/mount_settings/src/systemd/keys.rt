//! Reads further keys of a unit that decide about its mounts (systemd.exec(5)).
ghost use Rattle.std.specs.Prelude.{◌≡◌, ◌||◌, IfOk, codes};
ghost use Rattle.dropin_merge.specs.unit_values.Flags.{unit_flag, unit_flag_notes};
ghost use Rattle.mount_settings.specs.systemd.Keys.{flag_groups, is_given, has_credentials, has_own_network, unit_groups, unit_groups_notes, unit_keys};

use crate::systemd::words::{
    ControlGroups, NetworkPath, OwnTmp, Preserve, PrivateMounts, ProcSubset, ProtectProc,
};
use dropin_merge::unit_values::{Said, flag_of_key, last_of_key, last_text_of_key};
use dropin_merge::{Resolved, Version};
use std::alloc::{AllocError, Global};

/// The values of further keys of a unit.
#[derive(Clone, Copy)]
pub(crate) struct FurtherKeys {
    /// ProtectProc= is not `default`.
    pub(crate) protect_proc: bool,
    /// ProcSubset= is not `all`.
    pub(crate) proc_subset: bool,
    /// MountAPIVFS=
    pub(crate) mount_api_vfs: bool,
    /// PrivateMounts=
    pub(crate) private_mounts: PrivateMounts,
    /// PrivateIPC=
    pub(crate) private_ipc: bool,
    /// PrivatePIDs=
    pub(crate) private_pids: bool,
    /// LogNamespace= is given.
    pub(crate) log_namespace: bool,
    /// BindLogSockets=
    pub(crate) bind_log_sockets: bool,
    /// PrivateNetwork= is on or NetworkNamespacePath= is given.
    pub(crate) own_network: bool,
    /// LoadCredential= or another key of credentials is given.
    pub(crate) credentials: bool,
    /// ProtectHostname=
    pub(crate) protect_hostname: bool,
    /// ProtectControlGroups=
    pub(crate) control_groups: ControlGroups,
    /// RuntimeDirectoryPreserve= keeps folders.
    pub(crate) keeps_runtime: bool,
    /// PrivateTmp=
    pub(crate) own_tmp: OwnTmp,
    /// NoNewPrivileges=
    pub(crate) no_new_privs: bool,
}

fn flag(alloc: Global, unit: &Resolved, key: &str) -> Result<bool, AllocError>
    ensures { IfOk result (λ on. on ≡ unit_flag unit.now key.now) }
{
    Ok(flag_of_key(alloc, unit, key)?.what)
}

fn is_given(alloc: Global, unit: &Resolved, key: &str) -> Result<bool, AllocError>
    ensures { IfOk result (λ is. is ≡ is_given unit.now key.now) }
{
    let said = last_text_of_key(alloc, unit, key)?;
    Ok(!said.what.as_str().is_empty())
}

fn any_of(one: bool, two: bool, three: bool, four: bool, five: bool) -> bool
    ensures { result ≡ one || (two || (three || (four || five))) }
{
    one || two || three || four || five
}

fn has_credentials(alloc: Global, unit: &Resolved) -> Result<bool, AllocError>
    ensures { IfOk result (λ has. has ≡ has_credentials unit.now) }
{
    let loaded = is_given(alloc, unit, "LoadCredential")?;
    let decrypted = is_given(alloc, unit, "LoadCredentialEncrypted")?;
    let imported = is_given(alloc, unit, "ImportCredential")?;
    let set = is_given(alloc, unit, "SetCredential")?;
    let set_encrypted = is_given(alloc, unit, "SetCredentialEncrypted")?;
    Ok(any_of(loaded, decrypted, imported, set, set_encrypted))
}

fn has_own_network(alloc: Global, unit: &Resolved) -> Result<bool, AllocError>
    ensures { IfOk result (λ has. has ≡ has_own_network unit.now) }
{
    let own = flag(alloc, unit, "PrivateNetwork")?;
    let none = NetworkPath { is_given: false };
    let path = last_of_key(alloc, unit, "NetworkNamespacePath", none)?.what;
    Ok(own || path.is_given)
}

fn flag_groups(on: bool) -> ControlGroups
    ensures { result ≡ flag_groups on }
{
    if on {
        ControlGroups::Yes
    } else {
        ControlGroups::No
    }
}

fn flagged_groups(alloc: Global, unit: &Resolved) -> Result<Said<ControlGroups>, AllocError>
    ensures means { IfOk result (λ said. said.what ≡ flag_groups (unit_flag unit.now (codes "ProtectControlGroups"))) }
    ensures noted { IfOk result (λ said. said.notes.items ≡ unit_flag_notes unit.now (codes "ProtectControlGroups")) }
{
    let Said { what, notes } = flag_of_key(alloc, unit, "ProtectControlGroups")?;
    let what = flag_groups(what);
    Ok(Said { what, notes })
}

/// Reads ProtectControlGroups=: a boolean, and in systemd 257 also `private` or `strict`.
pub(crate) fn read_groups(alloc: Global, unit: &Resolved) -> Result<Said<ControlGroups>, AllocError>
    ensures means { IfOk result (λ said. said.what ≡ unit_groups unit.now) }
    ensures noted { IfOk result (λ said. said.notes.items ≡ unit_groups_notes unit.now) }
{
    match unit.systemd {
        Some(Version::V257) => {
            last_of_key(alloc, unit, "ProtectControlGroups", ControlGroups::No)
        }
        Some(Version::V252) => flagged_groups(alloc, unit),
        None => flagged_groups(alloc, unit),
    }
}

/// Reads further keys of a unit. It makes no notes: ProtectHostname=, ProtectControlGroups= and PrivateTmp= get theirs with
/// the keys that protect, NoNewPrivileges= with the credentials, and the other keys are noted as keys that are not judged.
#[tactic(auto, unfolding(crate::specs::systemd::Keys::unit_keys))]
pub(crate) fn further_keys(alloc: Global, unit: &Resolved) -> Result<FurtherKeys, AllocError>
    ensures { IfOk result (λ keys. keys ≡ unit_keys unit.now) }
{
    let all_seen = ProtectProc { is_limited: false };
    let whole = ProcSubset { is_limited: false };
    let gone = Preserve { is_kept: false };
    Ok(FurtherKeys {
        protect_proc: last_of_key(alloc, unit, "ProtectProc", all_seen)?
            .what
            .is_limited,
        proc_subset: last_of_key(alloc, unit, "ProcSubset", whole)?
            .what
            .is_limited,
        mount_api_vfs: flag(alloc, unit, "MountAPIVFS")?,
        private_mounts: last_of_key(alloc, unit, "PrivateMounts", PrivateMounts::Unset)?.what,
        private_ipc: flag(alloc, unit, "PrivateIPC")?,
        private_pids: flag(alloc, unit, "PrivatePIDs")?,
        log_namespace: is_given(alloc, unit, "LogNamespace")?,
        bind_log_sockets: flag(alloc, unit, "BindLogSockets")?,
        own_network: has_own_network(alloc, unit)?,
        credentials: has_credentials(alloc, unit)?,
        protect_hostname: flag(alloc, unit, "ProtectHostname")?,
        control_groups: read_groups(alloc, unit)?.what,
        keeps_runtime: last_of_key(alloc, unit, "RuntimeDirectoryPreserve", gone)?
            .what
            .is_kept,
        own_tmp: last_of_key(alloc, unit, "PrivateTmp", OwnTmp::No)?.what,
        no_new_privs: flag(alloc, unit, "NoNewPrivileges")?,
    })
}
