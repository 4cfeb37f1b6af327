//! Lists the keys of `[Service]` that are judged: the keys that are read, and the keys that refuse a unit.
ghost use Rattle.std.specs.Prelude.{◌≡◌, map};
ghost use Rattle.exec_settings.specs.Keys.{base_keys, known_keys, keys, noted_keys};

use Meaning::{Command, Credentials, Filter, Path, Place, Protection, Refused};
use mount_settings::{PathKey, Version};

/// The meaning of a key here (systemd.exec(5), systemd.service(5)).
#[derive(Clone, Copy)]
pub enum Meaning {
    /// It says what is launched. It refuses the unit if the program has no absolute path and is not found by its name.
    Command,
    /// It says as whom the service runs, and with which capabilities.
    Credentials,
    /// It restricts system calls.
    Filter,
    /// It protects the files, devices, kernel and clock of the system.
    Protection,
    /// It names paths.
    Path,
    /// It says which object is at a path. If the path is `/`, it refuses the unit.
    Place(PathKey),
    /// It refuses a unit that asks for it.
    Refused,
}

// Returns the keys of the base profile.
fn base_keys() -> &'static [(&'static str, Meaning)]
    ensures { map (λ row. (row.0.now, row.1)) result.now ≡ base_keys }
{
    &[
        ("AmbientCapabilities", Credentials),
        ("BindPaths", Place(PathKey::BindPaths)),
        ("BindReadOnlyPaths", Place(PathKey::BindReadOnlyPaths)),
        ("CacheDirectory", Path),
        ("CapabilityBoundingSet", Credentials),
        ("DynamicUser", Credentials),
        ("ExecPaths", Path),
        ("ExecStart", Command),
        ("ExtensionDirectories", Refused),
        ("ExtensionImages", Refused),
        ("Group", Credentials),
        ("InaccessiblePaths", Place(PathKey::InaccessiblePaths)),
        ("LockPersonality", Filter),
        ("LogsDirectory", Path),
        ("MemoryDenyWriteExecute", Filter),
        ("MountImages", Refused),
        ("NoExecPaths", Path),
        ("NoNewPrivileges", Credentials),
        ("PrivateDevices", Protection),
        ("PrivateTmp", Protection),
        ("PrivateUsers", Refused),
        ("ProtectClock", Protection),
        ("ProtectControlGroups", Protection),
        ("ProtectHome", Protection),
        ("ProtectHostname", Protection),
        ("ProtectKernelLogs", Protection),
        ("ProtectKernelModules", Protection),
        ("ProtectKernelTunables", Protection),
        ("ProtectSystem", Protection),
        ("ReadOnlyPaths", Path),
        ("ReadWritePaths", Path),
        ("RestrictAddressFamilies", Filter),
        ("RestrictNamespaces", Filter),
        ("RestrictRealtime", Filter),
        ("RestrictSUIDSGID", Filter),
        ("RootDirectory", Refused),
        ("RootImage", Refused),
        ("RuntimeDirectory", Path),
        ("SecureBits", Refused),
        ("StateDirectory", Path),
        ("SupplementaryGroups", Credentials),
        ("SystemCallArchitectures", Filter),
        ("SystemCallErrorNumber", Filter),
        ("SystemCallFilter", Filter),
        ("TemporaryFileSystem", Place(PathKey::TemporaryFileSystem)),
        ("User", Credentials),
    ]
}

// Returns the keys of a known systemd. It also reads the former names of three keys, and notes three keys without
// judging them.
fn known_keys() -> &'static [(&'static str, Meaning)]
    ensures { map (λ row. (row.0.now, row.1)) result.now ≡ known_keys }
{
    &[
        ("AmbientCapabilities", Credentials),
        ("BindPaths", Place(PathKey::BindPaths)),
        ("BindReadOnlyPaths", Place(PathKey::BindReadOnlyPaths)),
        ("CacheDirectory", Path),
        ("CapabilityBoundingSet", Credentials),
        ("ConfigurationDirectory", Path),
        ("DynamicUser", Credentials),
        ("ExecPaths", Path),
        ("ExecStart", Command),
        ("ExtensionDirectories", Refused),
        ("ExtensionImages", Refused),
        ("Group", Credentials),
        ("InaccessibleDirectories", Path),
        ("InaccessiblePaths", Place(PathKey::InaccessiblePaths)),
        ("LockPersonality", Filter),
        ("LogsDirectory", Path),
        ("MemoryDenyWriteExecute", Filter),
        ("MountImages", Refused),
        ("NoExecPaths", Path),
        ("NoNewPrivileges", Credentials),
        ("PrivateDevices", Protection),
        ("PrivateTmp", Protection),
        ("ProtectClock", Protection),
        ("ProtectControlGroups", Protection),
        ("ProtectHome", Protection),
        ("ProtectHostname", Protection),
        ("ProtectKernelLogs", Protection),
        ("ProtectKernelModules", Protection),
        ("ProtectKernelTunables", Protection),
        ("ProtectSystem", Protection),
        ("ReadOnlyDirectories", Path),
        ("ReadOnlyPaths", Path),
        ("ReadWriteDirectories", Path),
        ("ReadWritePaths", Path),
        ("RestrictAddressFamilies", Filter),
        ("RestrictNamespaces", Filter),
        ("RestrictRealtime", Filter),
        ("RestrictSUIDSGID", Filter),
        ("RootDirectory", Refused),
        ("RootImage", Refused),
        ("RuntimeDirectory", Path),
        ("StateDirectory", Path),
        ("SupplementaryGroups", Credentials),
        ("SystemCallErrorNumber", Filter),
        ("SystemCallFilter", Filter),
        ("TemporaryFileSystem", Place(PathKey::TemporaryFileSystem)),
        ("User", Credentials),
    ]
}

/// Returns the keys with their meanings, in byte order. The reader skips every other key of `[Service]` with a note.
#[tactic(auto, unfolding(crate::specs::Keys::keys))]
pub fn keys(systemd: Option<Version>) -> &'static [(&'static str, Meaning)]
    ensures all_that_are_judged { map (λ row. (row.0.now, row.1)) result.now ≡ keys systemd }
{
    match systemd {
        None => base_keys(),
        Some(_) => known_keys(),
    }
}

/// Returns the keys of a known systemd that are noted, and still read for whether they are set.
pub fn noted_keys() -> &'static [&'static str]
    ensures each { map (λ name. name.now) result.now ≡ noted_keys }
{
    &[
        "BindLogSockets",
        "ExecSearchPath",
        "ImportCredential",
        "LoadCredential",
        "LoadCredentialEncrypted",
        "LogNamespace",
        "MountAPIVFS",
        "NetworkNamespacePath",
        "Personality",
        "PrivateIPC",
        "PrivateMounts",
        "PrivateNetwork",
        "PrivatePIDs",
        "ProcSubset",
        "ProtectProc",
        "RuntimeDirectoryPreserve",
        "SetCredential",
        "SetCredentialEncrypted",
        "SystemCallArchitectures",
        "SystemCallLog",
    ]
}
