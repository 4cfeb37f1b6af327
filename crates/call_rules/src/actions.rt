//! Actions of seccomp(2): what a filter does with a call.
ghost use Rattle.std.specs.Prelude.{◌≡◌};
ghost use Rattle.call_rules.specs.Action.{word_of};

use text_forms::linux_numbers::actions::{ALLOW, ERRNO, KILL_PROCESS};

/// What a filter does with a call.
#[derive(Clone, Copy, Debug, PartialEq, Eq)]
pub enum Action {
    /// The process is ended.
    KillProcess,
    /// The call is not performed, and is answered with this number of errno(3).
    Errno(u16),
    /// The call is performed.
    Allow,
}

impl Action {
    /// The 32-bit word that a filter returns for it: SECCOMP_RET_KILL_PROCESS, SECCOMP_RET_ERRNO with the number in
    /// its low 16 bits, or SECCOMP_RET_ALLOW.
    pub fn word(self) -> u32
        ensures the_word { result ≡ word_of self }
    {
        match self {
            Action::KillProcess => KILL_PROCESS,
            Action::Errno(number) => ERRNO + u32::from(number),
            Action::Allow => ALLOW,
        }
    }
}
