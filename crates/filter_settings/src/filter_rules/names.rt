//! Names the filters, in the order in which they are installed.
ghost use Rattle.std.specs.Prelude.{◌≡◌, ◌<◌, map, length};
ghost use Rattle.std.specs.List.{All};
ghost use Rattle.call_table.specs.Table.{abis};
ghost use Rattle.filter_settings.specs.filter_rules.Names.{all_programs, text_of};
ghost use Rattle.filter_settings.specs.filter_rules.Installed.{shown};

use call_table::CallTable;

/// A filter, by the setting that asks for it (systemd.exec(5)).
#[derive(Clone, Copy)]
pub enum FilterName {
    /// RestrictAddressFamilies=
    Families,
    /// MemoryDenyWriteExecute=
    MemoryDenyWriteExecute,
    /// RestrictRealtime=
    Realtime,
    /// RestrictSUIDSGID=
    Suid,
    /// RestrictNamespaces=
    Namespaces,
    /// ProtectKernelTunables=
    Tunables,
    /// ProtectHostname=
    Hostname,
    /// ProtectKernelModules=
    Modules,
    /// ProtectKernelLogs=
    Logs,
    /// ProtectClock=
    Clock,
    /// PrivateDevices=
    Devices,
    /// LockPersonality=
    Personality,
    /// SystemCallFilter=
    Calls,
    /// SystemCallArchitectures=
    Archs,
}

impl FilterName {
    /// Returns the name as it is printed.
    pub fn text(self) -> &'static str
        ensures as_printed { result.now ≡ text_of self }
    {
        match self {
            FilterName::Families => "families",
            FilterName::MemoryDenyWriteExecute => "mdwe",
            FilterName::Realtime => "realtime",
            FilterName::Suid => "suid",
            FilterName::Namespaces => "namespaces",
            FilterName::Tunables => "tunables",
            FilterName::Hostname => "hostname",
            FilterName::Modules => "modules",
            FilterName::Logs => "logs",
            FilterName::Clock => "clock",
            FilterName::Devices => "devices",
            FilterName::Personality => "personality",
            FilterName::Calls => "calls",
            FilterName::Archs => "archs",
        }
    }
}

/// The program of a filter for an ABI. The position in the table of calls, from 0, names the ABI.
#[derive(Clone, Copy)]
pub struct FilterPlace {
    pub name: FilterName,
    pub abi: u8,
}

// Each filter for the only ABI.
const FOR_ONE: [FilterPlace; 13] = [
    FilterPlace {
        name: FilterName::Families,
        abi: 0,
    },
    FilterPlace {
        name: FilterName::MemoryDenyWriteExecute,
        abi: 0,
    },
    FilterPlace {
        name: FilterName::Realtime,
        abi: 0,
    },
    FilterPlace {
        name: FilterName::Suid,
        abi: 0,
    },
    FilterPlace {
        name: FilterName::Namespaces,
        abi: 0,
    },
    FilterPlace {
        name: FilterName::Tunables,
        abi: 0,
    },
    FilterPlace {
        name: FilterName::Hostname,
        abi: 0,
    },
    FilterPlace {
        name: FilterName::Modules,
        abi: 0,
    },
    FilterPlace {
        name: FilterName::Logs,
        abi: 0,
    },
    FilterPlace {
        name: FilterName::Clock,
        abi: 0,
    },
    FilterPlace {
        name: FilterName::Devices,
        abi: 0,
    },
    FilterPlace {
        name: FilterName::Personality,
        abi: 0,
    },
    FilterPlace {
        name: FilterName::Calls,
        abi: 0,
    },
];

// The filter on a second ABI, and each filter for both.
const FOR_TWO: [FilterPlace; 27] = [
    FilterPlace {
        name: FilterName::Archs,
        abi: 1,
    },
    FilterPlace {
        name: FilterName::Families,
        abi: 0,
    },
    FilterPlace {
        name: FilterName::Families,
        abi: 1,
    },
    FilterPlace {
        name: FilterName::MemoryDenyWriteExecute,
        abi: 0,
    },
    FilterPlace {
        name: FilterName::MemoryDenyWriteExecute,
        abi: 1,
    },
    FilterPlace {
        name: FilterName::Realtime,
        abi: 0,
    },
    FilterPlace {
        name: FilterName::Realtime,
        abi: 1,
    },
    FilterPlace {
        name: FilterName::Suid,
        abi: 0,
    },
    FilterPlace {
        name: FilterName::Suid,
        abi: 1,
    },
    FilterPlace {
        name: FilterName::Namespaces,
        abi: 0,
    },
    FilterPlace {
        name: FilterName::Namespaces,
        abi: 1,
    },
    FilterPlace {
        name: FilterName::Tunables,
        abi: 0,
    },
    FilterPlace {
        name: FilterName::Tunables,
        abi: 1,
    },
    FilterPlace {
        name: FilterName::Hostname,
        abi: 0,
    },
    FilterPlace {
        name: FilterName::Hostname,
        abi: 1,
    },
    FilterPlace {
        name: FilterName::Modules,
        abi: 0,
    },
    FilterPlace {
        name: FilterName::Modules,
        abi: 1,
    },
    FilterPlace {
        name: FilterName::Logs,
        abi: 0,
    },
    FilterPlace {
        name: FilterName::Logs,
        abi: 1,
    },
    FilterPlace {
        name: FilterName::Clock,
        abi: 0,
    },
    FilterPlace {
        name: FilterName::Clock,
        abi: 1,
    },
    FilterPlace {
        name: FilterName::Devices,
        abi: 0,
    },
    FilterPlace {
        name: FilterName::Devices,
        abi: 1,
    },
    FilterPlace {
        name: FilterName::Personality,
        abi: 0,
    },
    FilterPlace {
        name: FilterName::Personality,
        abi: 1,
    },
    FilterPlace {
        name: FilterName::Calls,
        abi: 0,
    },
    FilterPlace {
        name: FilterName::Calls,
        abi: 1,
    },
];

/// Returns all programs of filters in the order in which they are installed.
pub fn all_programs(table: &CallTable) -> &'static [FilterPlace]
    ensures programs { map shown result.now ≡ all_programs table.now.second }
    ensures in_range { All (λ place. place.abi < length (abis table.now)) result.now }
{
    if table.abis() == 1 {
        &FOR_ONE
    } else {
        &FOR_TWO
    }
}
