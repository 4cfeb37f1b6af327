//! The type of a ceiling.

use crate::ids::IdList;
use crate::leads::RowLeads;
use crate::passing::PathCalls;
use crate::ruled::LineRules;
use kernel_model::CapSet;
use kernel_ways::Power;

/// The bounds of a launched service. No process of it exceeds them, whatever calls its processes make.
#[derive(Drop)]
pub struct Ceiling {
    /// The capabilities that can become effective, capabilities(7).
    pub effective: CapSet,
    /// How far the mount tables can be changed, mount(2), umount2(2).
    pub power: Power,
    /// Whether every uid can be taken: CAP_SETUID can become effective, and setuid(2) or setresuid(2) passes.
    pub any_uid: bool,
    /// Whether every gid can be taken: CAP_SETGID can become effective, and setgid(2), setresgid(2) or setgroups(2) passes.
    pub any_gid: bool,
    /// The uids that the service can get without using CAP_SETUID: the uid of the launch, and the owners of set-user-id
    /// programs.
    pub uids: IdList,
    /// The gids that the service can get without using CAP_SETGID: the gids of the launch, and the groups of set-group-id
    /// programs.
    pub gids: IdList,
    /// Which calls on paths pass.
    pub paths: PathCalls,
    /// The rules of the lines of the table of calls.
    pub rules: LineRules,
    /// The entries of the launched mount table that lead to each row of the site, by its number.
    pub leads: Vec<RowLeads>,
}
