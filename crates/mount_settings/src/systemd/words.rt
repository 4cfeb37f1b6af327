//! Reads values of further keys that decide about the mounts of a service (systemd.exec(5)).
ghost use Rattle.std.specs.Prelude.{◌≡◌};
ghost use Rattle.mount_settings.specs.systemd.Words.{proc_value, subset_value, network_value, preserve_value, mounts_value, groups_value, own_tmp_value, is_yes, is_unset, is_on, is_private, is_plain_tmp};

use crate::choices::{beside, read_choice};
use dropin_merge::unit_values::KeyValue;
use path_settings::read_bool;

/// ProtectProc=: whether some processes are invisible.
#[derive(Clone, Copy)]
pub(crate) struct ProtectProc {
    pub(crate) is_limited: bool,
}

impl KeyValue for ProtectProc {
    ghost reads = { proc_value };

    fn read(text: &str) -> Option<ProtectProc> {
        let words = [
            ("", false),
            ("default", false),
            ("noaccess", true),
            ("invisible", true),
            ("ptraceable", true),
        ];
        let is_limited = beside(&words, text)?;
        Some(ProtectProc { is_limited })
    }
}

/// ProcSubset=: whether /proc has only the processes.
#[derive(Clone, Copy)]
pub(crate) struct ProcSubset {
    pub(crate) is_limited: bool,
}

impl KeyValue for ProcSubset {
    ghost reads = { subset_value };

    fn read(text: &str) -> Option<ProcSubset> {
        let is_limited = beside(&[("", false), ("all", false), ("pid", true)], text)?;
        Some(ProcSubset { is_limited })
    }
}

/// NetworkNamespacePath=: whether a path is given.
#[derive(Clone, Copy)]
pub(crate) struct NetworkPath {
    pub(crate) is_given: bool,
}

impl KeyValue for NetworkPath {
    ghost reads = { network_value };

    fn read(text: &str) -> Option<NetworkPath> {
        match text.as_bytes().first() {
            None => Some(NetworkPath { is_given: false }),
            Some(byte) if *byte == b'/' => Some(NetworkPath { is_given: true }),
            Some(_) => None,
        }
    }
}

/// RuntimeDirectoryPreserve=: whether systemd keeps folders below /run.
#[derive(Clone, Copy)]
pub(crate) struct Preserve {
    pub(crate) is_kept: bool,
}

impl KeyValue for Preserve {
    ghost reads = { preserve_value };

    fn read(text: &str) -> Option<Preserve> {
        let is_kept = read_choice(text, false, true, &[("restart", true)])?;
        Some(Preserve { is_kept })
    }
}

/// PrivateMounts=. An empty value unsets it.
#[derive(Clone, Copy)]
pub(crate) enum PrivateMounts {
    Unset,
    No,
    Yes,
}

impl KeyValue for PrivateMounts {
    ghost reads = { mounts_value };

    fn read(text: &str) -> Option<PrivateMounts> {
        if text.is_empty() {
            return Some(PrivateMounts::Unset);
        }
        match read_bool(text) {
            Some(true) => Some(PrivateMounts::Yes),
            Some(false) => Some(PrivateMounts::No),
            None => None,
        }
    }
}

impl PrivateMounts {
    pub(crate) fn is_yes(self) -> bool
        ensures { result ≡ is_yes self }
    {
        matches!(self, PrivateMounts::Yes)
    }

    pub(crate) fn is_unset(self) -> bool
        ensures { result ≡ is_unset self }
    {
        matches!(self, PrivateMounts::Unset)
    }
}

/// ProtectControlGroups= in systemd 257.
#[derive(Clone, Copy)]
pub(crate) enum ControlGroups {
    No,
    Yes,
    Private,
    Strict,
}

impl KeyValue for ControlGroups {
    ghost reads = { groups_value };

    fn read(text: &str) -> Option<ControlGroups> {
        let words = [
            ("private", ControlGroups::Private),
            ("strict", ControlGroups::Strict),
        ];
        read_choice(text, ControlGroups::No, ControlGroups::Yes, &words)
    }
}

impl ControlGroups {
    pub(crate) fn is_on(self) -> bool
        ensures { result ≡ is_on self }
    {
        !matches!(self, ControlGroups::No)
    }

    pub(crate) fn is_private(self) -> bool
        ensures { result ≡ is_private self }
    {
        matches!(self, ControlGroups::Private)
    }
}

/// PrivateTmp=. systemd 252 does not know `disconnected`.
#[derive(Clone, Copy)]
pub(crate) enum OwnTmp {
    No,
    Yes,
    Disconnected,
}

impl KeyValue for OwnTmp {
    ghost reads = { own_tmp_value };

    fn read(text: &str) -> Option<OwnTmp> {
        let words = [("disconnected", OwnTmp::Disconnected)];
        read_choice(text, OwnTmp::No, OwnTmp::Yes, &words)
    }
}

impl OwnTmp {
    pub(crate) fn is_plain(self) -> bool
        ensures { result ≡ is_plain_tmp self }
    {
        matches!(self, OwnTmp::Yes)
    }
}
