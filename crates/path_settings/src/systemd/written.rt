//! Says what the words of a unit's lists ask systemd to mount (systemd.exec(5), Sandboxing).

ghost use Rattle.std.specs.Prelude.{◌≡◌, IfOk};
ghost use Rattle.path_settings.specs.systemd.Written.{mode_of, entry_of};

use crate::mentions::{Kind, Mention};
use crate::systemd::entries::MountEntry;
use crate::systemd::modes::MountMode;
use std::alloc::{AllocError, Global};

fn mode_of(alloc: Global, kind: &Kind) -> Result<MountMode, AllocError>
    ensures { IfOk result (λ mode. mode ≡ mode_of kind.now) }
{
    Ok(match kind {
        Kind::Ro => MountMode::ReadOnly,
        Kind::Rw => MountMode::ReadWrite,
        Kind::Exec => MountMode::Exec,
        Kind::NoExec => MountMode::NoExec,
        Kind::Hide => MountMode::Hidden,
        Kind::Tmp {
            read_only,
            no_exec,
            no_suid,
        } => MountMode::Tmpfs {
            read_only: *read_only,
            no_exec: *no_exec,
            no_suid: *no_suid,
        },
        Kind::Bind {
            source,
            read_only,
            recursive: true,
        } => MountMode::RecursiveBind {
            source: source.copy(alloc)?,
            read_only: *read_only,
        },
        Kind::Bind {
            source,
            read_only,
            recursive: false,
        } => MountMode::Bind {
            source: source.copy(alloc)?,
            read_only: *read_only,
        },
    })
}

/// Returns the entry that a written mention asks for.
pub fn entry_of(alloc: Global, mention: &Mention) -> Result<MountEntry, AllocError>
    ensures as_written { IfOk result (λ entry. entry ≡ entry_of mention.now) }
{
    let mode = mode_of(alloc, &mention.kind)?;
    Ok(MountEntry {
        path: mention.path.copy(alloc)?,
        mode,
        optional: mention.optional,
    })
}
