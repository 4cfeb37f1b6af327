//! Makes the rules of MemoryDenyWriteExecute=: no memory is both writable and executable.
ghost use Rattle.std.specs.Prelude.{◌≡◌, IfOk};
ghost use Rattle.filter_settings.specs.filter_rules.MappingChoice.{refused_bits, mapping_choice};

use crate::filter_rules::choice::{Choice, bits, refused_where};
use std::alloc::{AllocError, Global};

/// PROT_WRITE and PROT_EXEC, mmap(2).
const PROT_WRITE_EXEC: u32 = 6;

/// PROT_EXEC, mprotect(2).
const PROT_EXEC: u32 = 4;

/// SHM_EXEC, shmop(2).
const SHM_EXEC: u32 = 0x8000;

fn refused_bits(name: &str) -> Option<u32>
    ensures { result ≡ refused_bits name.now }
{
    match name {
        "mmap" => Some(PROT_WRITE_EXEC),
        "mprotect" | "pkey_mprotect" => Some(PROT_EXEC),
        "shmat" => Some(SHM_EXEC),
        _ => None,
    }
}

/// Returns what the rules do to calls of this name, if they map memory. The bits of argument 2 decide.
pub fn mapping_choice(alloc: Global, name: &str) -> Result<Option<Choice>, AllocError>
    ensures by_the_call { IfOk result (λ choice. choice ≡ mapping_choice name.now) }
{
    match refused_bits(name) {
        Some(mask) => Ok(Some(refused_where(alloc, &[bits(2, mask)])?)),
        None => Ok(None),
    }
}
