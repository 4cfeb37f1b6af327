//! Lists the keys that name paths, and reads their words as mentions.

ghost use Rattle.std.specs.Prelude.{◌≡◌, IfOk, map};
ghost use Rattle.std.specs.List.{list_any};
ghost use Rattle.std.specs.Str.{bytes_eq};
ghost use Rattle.path_settings.specs.declared.dialect.Dialect.TheVariants.{Base, Systemd257};
ghost use Rattle.path_settings.specs.Keys.{name_of, names_of, is_named, key_named, is_implied, mention_of};

use crate::binds::read_bind;
use crate::dialect::Dialect;
use crate::folders::read_folder;
use crate::lists::read_path;
use crate::mentions::{Kind, Mention};
use crate::temporary::read_temporary;
use PathKey::{
    BindPaths, BindReadOnlyPaths, CacheDirectory, ConfigurationDirectory, ExecPaths,
    InaccessiblePaths, LogsDirectory, NoExecPaths, ReadOnlyPaths, ReadWritePaths, RuntimeDirectory,
    StateDirectory, TemporaryFileSystem,
};
use std::alloc::{AllocError, Global};

fn is_among(names: &[&str], text: &str) -> bool
    ensures { result ≡ list_any (λ name. bytes_eq name.now text.now) names.now }
{
    names.iter().any(|name| *name == text)
}

/// A key of `[Service]` whose value is a list of paths, binds, empty file systems or folders (systemd.exec(5)).
#[derive(Clone, Copy, Debug, PartialEq, Eq)]
pub enum PathKey {
    ReadWritePaths,
    ReadOnlyPaths,
    InaccessiblePaths,
    ExecPaths,
    NoExecPaths,
    BindPaths,
    BindReadOnlyPaths,
    TemporaryFileSystem,
    /// Folders below `/var/lib`.
    StateDirectory,
    /// Folders below `/run`.
    RuntimeDirectory,
    /// Folders below `/var/cache`.
    CacheDirectory,
    /// Folders below `/var/log`.
    LogsDirectory,
    /// Folders below `/etc`. The base profile does not know this key.
    ConfigurationDirectory,
}

/// All keys.
pub const ALL_PATH_KEYS: [PathKey; 13] = [
    PathKey::ReadWritePaths,
    PathKey::ReadOnlyPaths,
    PathKey::InaccessiblePaths,
    PathKey::ExecPaths,
    PathKey::NoExecPaths,
    PathKey::BindPaths,
    PathKey::BindReadOnlyPaths,
    PathKey::TemporaryFileSystem,
    PathKey::StateDirectory,
    PathKey::RuntimeDirectory,
    PathKey::CacheDirectory,
    PathKey::LogsDirectory,
    PathKey::ConfigurationDirectory,
];

// The fewest bytes of a name. A shorter text is not compared with the names.
const SHORTEST_NAME: usize = 9;

impl PathKey {
    /// Returns the key of this name. None if no key that names paths has it.
    pub fn named(dialect: Dialect, text: &str) -> Option<PathKey>
        ensures first_of_this_name { result ≡ key_named dialect text.now }
    {
        if text.len() < SHORTEST_NAME {
            return None;
        }
        ALL_PATH_KEYS
            .iter()
            .copied()
            .find(|key| key.is_named(dialect, text))
    }

    // Returns whether the key has this name.
    fn is_named(self, dialect: Dialect, text: &str) -> bool
        ensures { result ≡ is_named dialect text.now self }
    {
        is_among(self.names(dialect), text)
    }

    /// Returns the names of the key.
    pub fn names(self, dialect: Dialect) -> &'static [&'static str]
        ensures all_names { map (λ name. name.now) result.now ≡ names_of dialect self }
    {
        match dialect {
            Dialect::Base => self.base_names(),
            Dialect::Systemd252 | Dialect::Systemd257 => self.all_names(),
        }
    }

    fn base_names(self) -> &'static [&'static str]
        ensures { map (λ name. name.now) result.now ≡ names_of Base self }
    {
        match self {
            ReadWritePaths => &["ReadWritePaths"],
            ReadOnlyPaths => &["ReadOnlyPaths"],
            InaccessiblePaths => &["InaccessiblePaths"],
            ExecPaths => &["ExecPaths"],
            NoExecPaths => &["NoExecPaths"],
            BindPaths => &["BindPaths"],
            BindReadOnlyPaths => &["BindReadOnlyPaths"],
            TemporaryFileSystem => &["TemporaryFileSystem"],
            StateDirectory => &["StateDirectory"],
            RuntimeDirectory => &["RuntimeDirectory"],
            CacheDirectory => &["CacheDirectory"],
            LogsDirectory => &["LogsDirectory"],
            ConfigurationDirectory => &[],
        }
    }

    fn all_names(self) -> &'static [&'static str]
        ensures { map (λ name. name.now) result.now ≡ names_of Systemd257 self }
    {
        match self {
            ReadWritePaths => &["ReadWritePaths", "ReadWriteDirectories"],
            ReadOnlyPaths => &["ReadOnlyPaths", "ReadOnlyDirectories"],
            InaccessiblePaths => &["InaccessiblePaths", "InaccessibleDirectories"],
            ConfigurationDirectory => &["ConfigurationDirectory"],
            ExecPaths => &["ExecPaths"],
            NoExecPaths => &["NoExecPaths"],
            BindPaths => &["BindPaths"],
            BindReadOnlyPaths => &["BindReadOnlyPaths"],
            TemporaryFileSystem => &["TemporaryFileSystem"],
            StateDirectory => &["StateDirectory"],
            RuntimeDirectory => &["RuntimeDirectory"],
            CacheDirectory => &["CacheDirectory"],
            LogsDirectory => &["LogsDirectory"],
        }
    }

    /// Returns the key as it is written.
    pub fn name(self) -> &'static str
        ensures as_written { result.now ≡ name_of self }
    {
        match self {
            ReadWritePaths => "ReadWritePaths",
            ReadOnlyPaths => "ReadOnlyPaths",
            InaccessiblePaths => "InaccessiblePaths",
            ExecPaths => "ExecPaths",
            NoExecPaths => "NoExecPaths",
            BindPaths => "BindPaths",
            BindReadOnlyPaths => "BindReadOnlyPaths",
            TemporaryFileSystem => "TemporaryFileSystem",
            StateDirectory => "StateDirectory",
            RuntimeDirectory => "RuntimeDirectory",
            CacheDirectory => "CacheDirectory",
            LogsDirectory => "LogsDirectory",
            ConfigurationDirectory => "ConfigurationDirectory",
        }
    }

    /// Returns whether the key names folders, whose mentions follow all written ones.
    pub fn is_implied(self) -> bool
        ensures by_its_key { result ≡ is_implied self }
    {
        matches!(
            self,
            StateDirectory
                | RuntimeDirectory
                | CacheDirectory
                | LogsDirectory
                | ConfigurationDirectory
        )
    }
}

/// Reads the mention of a word of a key's list. None if the word cannot be read.
pub fn read_mention(alloc: Global, key: PathKey, word: &str) -> Result<Option<Mention>, AllocError>
    ensures mention_or_none { IfOk result (λ mention. mention ≡ mention_of key word.now) }
{
    match key {
        ReadWritePaths => read_path(alloc, Kind::Rw, word),
        ReadOnlyPaths => read_path(alloc, Kind::Ro, word),
        InaccessiblePaths => read_path(alloc, Kind::Hide, word),
        ExecPaths => read_path(alloc, Kind::Exec, word),
        NoExecPaths => read_path(alloc, Kind::NoExec, word),
        BindPaths => read_bind(alloc, false, word),
        BindReadOnlyPaths => read_bind(alloc, true, word),
        TemporaryFileSystem => read_temporary(alloc, word),
        StateDirectory => read_folder(alloc, "/var/lib", word),
        RuntimeDirectory => read_folder(alloc, "/run", word),
        CacheDirectory => read_folder(alloc, "/var/cache", word),
        LogsDirectory => read_folder(alloc, "/var/log", word),
        ConfigurationDirectory => read_folder(alloc, "/etc", word),
    }
}
