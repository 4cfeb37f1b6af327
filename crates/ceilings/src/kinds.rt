//! Kinds of calls, and the words with which a call asks for its kind first.

ghost use Rattle.std.specs.Prelude.{◌≡◌, ◌<◌};
ghost use Rattle.kernel_ways.specs.call_table.declared.call_names.rule.CallRule.TheVariants.{Socketpair};
ghost use Rattle.kernel_ways.specs.kernel_model.declared.kernel_calls.rule.Rule.TheVariants.{Known, Plain};
ghost use Rattle.kernel_ways.specs.kernel_laws.Kinds.{made_words, one_word, words, wide_words};
ghost use Rattle.kernel_ways.specs.kernel_laws.declared.question_types.kind.CallKind.TheVariants.{ForFamily, ForPath};

use kernel_model::kernel_calls::Rule;
use kernel_model::{Argument, CallRule};
use kernel_ways::{CallKind, Wish};

/// PROT_WRITE and PROT_EXEC of mmap(2).
const WRITE_AND_EXEC: u64 = 6;

/// PROT_EXEC of mprotect(2).
const EXEC: u64 = 4;

/// SHM_EXEC of shmat(2).
const SHM_EXEC: u64 = 0x8000;

/// SHM_EXEC and SHM_RDONLY of shmat(2).
const SHM_EXEC_AND_RDONLY: u64 = 0x9000;

/// SCHED_FIFO of sched(7).
const SCHED_FIFO: u64 = 1;

/// PER_LINUX32 of personality(2).
const PER_LINUX32: u64 = 8;

/// S_ISUID of inode(7).
const S_ISUID: u64 = 0x800;

/// SYS_SOCKET of socketcall(2).
const SYS_SOCKET: u64 = 1;

/// O_TMPFILE of open(2).
const O_TMPFILE: u64 = 0x41_0000;

/// AF_UNIX of socketpair(2).
const AF_UNIX: u32 = 1;

/// O_WRONLY of open(2).
const O_WRONLY: u64 = 1;

/// A bit of a word that the kernel does not look at where it looks at the low 32 alone.
const HIGH_BIT: u64 = 1 << 32;

/// Six words, all 0.
const NO_WORDS: [u64; 6] = [0; 6];

// Six words, all 0 but the one of this place.
fn one_word(at: usize, value: u64) -> [u64; 6]
    requires { at < 6 }
    ensures { result ≡ one_word at value }
{
    let mut words = [0; 6];
    words[at] = value;
    words
}

// The words with which open(2) makes a file with a set-id bit.
fn made_words(flags: Argument) -> [u64; 6]
    ensures { result ≡ made_words flags }
{
    let mut words = one_word(flags.place(), O_TMPFILE);
    words[flags.mode_place()] = S_ISUID;
    words
}

// The words with which a call of the rule does first what is wished of a path.
fn path_words(wish: Wish, rule: CallRule) -> Option<[u64; 6]>
    ensures { result ≡ words (ForPath wish) (Known rule) }
{
    match wish {
        Wish::See => match rule {
            CallRule::See => Some(NO_WORDS),
            _ => None,
        },
        Wish::Read => match rule {
            CallRule::Open(_) | CallRule::OpenWith(_) | CallRule::Openat2 => Some(NO_WORDS),
            _ => None,
        },
        Wish::Write => match rule {
            CallRule::Open(flags) | CallRule::OpenWith(flags) => {
                Some(one_word(flags.place(), O_WRONLY))
            }
            CallRule::Openat2 | CallRule::Create | CallRule::CreateWith | CallRule::Truncate =>
                Some(NO_WORDS),
            _ => None,
        },
        Wish::Exec => match rule {
            CallRule::Execve => Some(NO_WORDS),
            _ => None,
        },
    }
}

// The words with which socketpair(2) makes sockets of the family first: it makes none but of AF_UNIX.
fn pair_words(family: u32) -> Option<[u64; 6]>
    ensures { result ≡ words (ForFamily family) (Known Socketpair) }
{
    if family == AF_UNIX {
        Some(one_word(0, u64::from(AF_UNIX)))
    } else {
        None
    }
}

// The words with which a call of the rule asks first for what else the kernel has rules for.
fn known_words(kind: CallKind, rule: CallRule) -> Option<[u64; 6]>
    ensures { result ≡ words kind (Known rule) }
{
    let words = match (kind, rule) {
        (CallKind::ForPath(wish), _) => return path_words(wish, rule),
        (CallKind::ForFamily(family), CallRule::Socket) => one_word(0, u64::from(family)),
        (CallKind::ForFamily(_), CallRule::Socketcall) => one_word(0, SYS_SOCKET),
        (CallKind::ForFamily(family), CallRule::Socketpair) => return pair_words(family),
        (CallKind::ForNamespace(kind), CallRule::Unshare | CallRule::Clone) => {
            one_word(0, u64::from(kind.flag()))
        }
        (CallKind::ForNamespace(_), CallRule::Clone3) => NO_WORDS,
        (CallKind::MapsWx, CallRule::Map) => one_word(2, WRITE_AND_EXEC),
        (CallKind::ProtectsX, CallRule::Protect) => one_word(2, EXEC),
        (CallKind::AttachesX, CallRule::Attach) => one_word(2, SHM_EXEC),
        (CallKind::AttachesReadOnlyX, CallRule::Attach) => one_word(2, SHM_EXEC_AND_RDONLY),
        (CallKind::SchedulesRealtime, CallRule::Schedule) => one_word(1, SCHED_FIFO),
        (CallKind::SetsRealtime, CallRule::SetAttributes) => NO_WORDS,
        (CallKind::TakesPersonality, CallRule::Personality) => one_word(0, PER_LINUX32),
        (CallKind::SetsMode, CallRule::SetMode(mode)) => one_word(mode.place(), S_ISUID),
        (CallKind::OpensMode, CallRule::OpenWith(flags)) => made_words(flags),
        (CallKind::CreatesMode, CallRule::CreateWith) => one_word(1, S_ISUID),
        (CallKind::ChangesMounts, CallRule::Mount)
        | (CallKind::RemovesMounts, CallRule::Umount)
        | (CallKind::SetsCaps, CallRule::Capset)
        | (CallKind::TakesUid, CallRule::Setuid | CallRule::Setresuid | CallRule::Setreuid)
        | (CallKind::TakesGid, CallRule::Setgid | CallRule::Setresgid)
        | (CallKind::TakesGid, CallRule::Setregid | CallRule::Setgroups)
        | (CallKind::SetsUpRing, CallRule::SetUpRing)
        | (CallKind::Submits, CallRule::Submit) => NO_WORDS,
        _ => return None,
    };
    Some(words)
}

// Of a plain call nothing else is asked than that it is made, without words.
fn plain_words(kind: CallKind, cap: Option<u8>) -> Option<[u64; 6]>
    ensures { result ≡ words kind (Plain cap) }
{
    match kind {
        CallKind::PlainCall => Some(NO_WORDS),
        _ => None,
    }
}

/// The words with which a call of the rule asks for the kind first; None where no call of the rule asks for it.
pub fn words(kind: CallKind, rule: Rule) -> Option<[u64; 6]>
    ensures ask_first { result ≡ words kind rule }
{
    match rule {
        Rule::Known(rule) => known_words(kind, rule),
        Rule::Plain(cap) => plain_words(kind, cap),
    }
}

/// The words with which a call of the rule asks for the same with a high bit set, which the kernel does not look at.
/// None where it looks at every bit, or where no call of the rule asks for the kind.
pub fn wide_words(kind: CallKind, rule: Rule) -> Option<[u64; 6]>
    ensures ask_as_well { result ≡ wide_words kind rule }
{
    match (kind, rule) {
        (CallKind::ForFamily(family), Rule::Known(CallRule::Socket)) => {
            Some(one_word(0, HIGH_BIT + u64::from(family)))
        }
        _ => None,
    }
}
