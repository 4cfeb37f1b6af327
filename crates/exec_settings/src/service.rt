//! Defines the settings of a unit.
use abs_path::AbsPath;
use cred_settings::{CapSet, FileNote, Gids};
use filter_settings::filter_rules::Filter;
use mount_settings::Mentioned;

/// The settings of a unit.
#[derive(Drop)]
pub struct Settings {
    /// The program that is launched.
    pub program: AbsPath,
    /// The user that the service runs as.
    pub uid: u32,
    /// Its group.
    pub gid: u32,
    /// Its supplementary groups.
    pub groups: Gids,
    /// The capabilities that the service and its descendants may ever have, capabilities(7).
    pub bounding: CapSet,
    /// The capabilities that it keeps over execve(2).
    pub ambient: CapSet,
    /// Whether it keeps CAP_SETPCAP and CAP_SYS_ADMIN until its filters are installed, and gives them up then.
    pub keeps_capabilities: bool,
    /// Whether execve(2) can give it no new privileges.
    pub no_new_privs: bool,
    /// Whether the kernel is to refuse it memory that it can both write and execute, PR_SET_MDWE of prctl(2).
    pub mdwe: bool,
    /// The filters of system calls that are on, in the order in which they are installed.
    pub filters: Vec<Filter>,
    /// The written mentions, and after them the implied ones.
    pub mentions: Mentioned,
    /// The notes, in the order of files and lines.
    pub notes: Vec<FileNote>,
}
