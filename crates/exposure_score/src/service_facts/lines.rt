//! The table of the tests that settings decide.

ghost use Rattle.std.specs.Prelude.{◌≡◌, map};
ghost use Rattle.exposure_score.specs.service_facts.Table.{lines};

use Matter::{
    EachCapability, EachFamily, EachGroup, EachNamespaceType, GainsPrivileges, HasAmbient,
    InternetFamilies, Lacks, NamesGroups, RunsAsRoot, SeesHomes, WritesSystem,
};
use Protection::{
    LockPersonality, MemoryDenyWriteExecute, PrivateDevices, PrivateTmp, ProtectClock,
    ProtectControlGroups, ProtectHostname, ProtectKernelLogs, ProtectKernelModules,
    ProtectKernelTunables, RestrictRealtime, RestrictSuidSgid,
};

/// A boolean key that protects a service if it is on (systemd.exec(5), Sandboxing).
#[derive(Clone, Copy)]
pub enum Protection {
    PrivateDevices,
    PrivateTmp,
    ProtectClock,
    ProtectControlGroups,
    ProtectHostname,
    ProtectKernelLogs,
    ProtectKernelModules,
    ProtectKernelTunables,
    LockPersonality,
    MemoryDenyWriteExecute,
    RestrictRealtime,
    RestrictSuidSgid,
}

/// The setting that a test looks at, and its badness.
#[derive(Clone, Copy)]
pub enum Matter {
    /// 1 if the uid is 0.
    RunsAsRoot,
    /// 1 if SupplementaryGroups= names a group.
    NamesGroups,
    /// 1 if NoNewPrivileges= is not in effect.
    GainsPrivileges,
    /// 1 if there is an ambient capability.
    HasAmbient,
    /// 1 if the protection is off.
    Lacks(Protection),
    /// ProtectSystem=: no 10, yes 8, full 3, strict 0.
    WritesSystem,
    /// ProtectHome=: no 10, read-only 5, tmpfs 1, yes 0.
    SeesHomes,
    /// For each capability, 1 if it is in the bounding set. Its name follows the identifier.
    EachCapability,
    /// For each type of namespaces, 1 if it is permitted. Its name follows the identifier.
    EachNamespaceType,
    /// For each family of the table of calls, 1 if it is permitted. Its name follows the identifier.
    EachFamily,
    /// 1 if AF_INET or AF_INET6 is permitted. The line has this test only if the table of calls has both families, and no
    /// family named after both.
    InternetFamilies,
    /// For each group of the table of calls, 1 if SystemCallFilter= is off or allows a member. Its name follows the identifier.
    EachGroup,
}

/// A line of the table: an identifier, or the front of several identifiers, and the setting that the test looks at.
pub type Line = (&'static str, Matter);

// The comment of each line says what a service can do if it is bad.
const TABLE: &[Line] = &[
    ("AmbientCapabilities", HasAmbient), // gets ambient capabilities
    ("CapabilityBoundingSet_", EachCapability), // may gain the capability
    ("LockPersonality", Lacks(LockPersonality)), // may change its execution domain
    ("MemoryDenyWriteExecute", Lacks(MemoryDenyWriteExecute)), // may run memory that it wrote
    ("NoNewPrivileges", GainsPrivileges), // may gain privileges by execve
    ("PrivateDevices", Lacks(PrivateDevices)), // reaches hardware devices
    ("PrivateTmp", Lacks(PrivateTmp)), // shares folders for temporary files
    ("ProtectClock", Lacks(ProtectClock)), // may set the clock
    ("ProtectControlGroups", Lacks(ProtectControlGroups)), // may change control groups
    ("ProtectHome", SeesHomes), // reaches the homes of users
    ("ProtectHostname", Lacks(ProtectHostname)), // may change the names of the host
    ("ProtectKernelLogs", Lacks(ProtectKernelLogs)), // reaches the log of the kernel
    ("ProtectKernelModules", Lacks(ProtectKernelModules)), // may load kernel modules
    ("ProtectKernelTunables", Lacks(ProtectKernelTunables)), // may change kernel variables
    ("ProtectSystem", WritesSystem), // may write to the system
    ("RestrictAddressFamilies_", EachFamily), // may have sockets of the family
    ("RestrictAddressFamilies_AF_INET_INET6", InternetFamilies), // may reach the Internet
    ("RestrictNamespaces_", EachNamespaceType), // may have namespaces of the type
    ("RestrictRealtime", Lacks(RestrictRealtime)), // may run in real time
    ("RestrictSUIDSGID", Lacks(RestrictSuidSgid)), // may make set-user-ID files
    ("SupplementaryGroups", NamesGroups), // has supplementary groups
    ("SystemCallFilter_", EachGroup), // may make calls of the group
    ("UserOrDynamicUser", RunsAsRoot), // runs as root
];

/// The lines of the table in byte order of their identifiers.
pub fn table() -> &'static [Line]
    ensures lines { map (λ line. (line.0.now, line.1)) result.now ≡ lines }
{
    TABLE
}
