//! States what no list of calls can reach in the modelled kernel, and defines the questions about a launched service.
//!
//! For example, [`denial`] states that no list of calls reaches what the ceiling of a launched service closes. Each function is
//! a law: its contract states the law, and its body is empty. The definitions are in `specs/`.
//!
//! - [`question_types`]: the types of questions, and of their verdicts.
#![tactic(auto)]

ghost use Rattle.kernel_laws.specs.Blind.{BlindIsSound, ExposedAtOnce, ExposedByMount, ExposesByUnmounts};
ghost use Rattle.kernel_laws.specs.FirstChoice.{FirstPasses, SettingsChoose};
ghost use Rattle.kernel_laws.specs.Laws.{DenialIsSound, ListedAreAsked};
ghost use Rattle.kernel_laws.specs.PlainCalls.{ShownIsNotDenied};
ghost use Rattle.kernel_laws.specs.ReachLaws.{ReachByUnmounts, ReachOfTheTable};

/// A question that some list of calls shows is not denied.
pub fn plain_calls()
    ensures never_both { ShownIsNotDenied }
{}

/// No list of calls reaches a question that the ceiling of a launched service closes. Every question of the list may
/// be asked.
pub fn denial()
    ensures sound { DenialIsSound }
    ensures asked { ListedAreAsked }
{}

/// `reach` says exactly which rows of the host a path can find: with no power on the mount table itself, and with
/// umount2(2) on the tables that its calls make.
pub fn reach_laws()
    ensures of_the_table { ReachOfTheTable }
    ensures by_unmounts { ReachByUnmounts }
{}

/// The filters of settings look at no more words of a call than the chosen ones. If the filters let a call through
/// that asks for a kind of thing, they let the words through as well that ask for it first, or the wide ones.
pub fn first_choice()
    ensures first_passes { FirstPasses }
    ensures settings_choose { SettingsChoose }
{}

/// If the launched mount table does not show what lies below a folder, no world shows it. If the table does show it,
/// the folder is exposed: at once, on a table that umount2(2) makes, or after one mount(2).
pub fn blindness()
    ensures sound { BlindIsSound }
    ensures at_once { ExposedAtOnce }
    ensures by_unmounts { ExposesByUnmounts }
    ensures by_mount { ExposedByMount }
{}

pub mod question_types;

pub use filter_settings::linux_numbers::namespaces::NamespaceType;
pub use filter_settings::{
    CallData, CallLine, CallTable, CallsError, Decision, Insn, Program, is_known, linux_numbers,
    read_calls,
};
pub use kernel_model::kernel_calls::{Bytes, Call, IdList, Payload, Request, Rule, fits};
pub use kernel_model::{
    Flags, Group, MountStep, MountTable, Reply, Row, RowKind, SiteTable, User, What, World,
};
