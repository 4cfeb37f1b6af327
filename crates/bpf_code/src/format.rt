// Converts instructions to bytes and back: eight bytes each, little endian.
ghost use Rattle.std.specs.Prelude.{◌≡◌, ◌≤◌, IfOk, length};
ghost use Rattle.std.specs.List.{All};
ghost use Rattle.bpf_code.specs.Reading.{Fits, insn_of, insns_of, bytes_of_insn, bytes_of};

use crate::machine::Insn;
use std::alloc::{AllocError, Global};

/// The number of bytes of an instruction, `sizeof(struct sock_filter)`.
pub const INSN_LEN: usize = 8;

// Returns the instruction of these bytes.
fn insn_from(bytes: &[u8; INSN_LEN]) -> Insn
    ensures read { result ≡ insn_of bytes.now }
    ensures fits { Fits result }
{
    let [c0, c1, jt, jf, k0, k1, k2, k3] = *bytes;
    Insn {
        code: u16::from_le_bytes([c0, c1]),
        jt,
        jf,
        k: u32::from_le_bytes([k0, k1, k2, k3]),
    }
}

// Returns the bytes of this instruction.
fn bytes_from(insn: Insn) -> [u8; INSN_LEN]
    ensures { result ≡ bytes_of_insn insn }
{
    let [c0, c1] = insn.code.to_le_bytes();
    let [k0, k1, k2, k3] = insn.k.to_le_bytes();
    [c0, c1, insn.jt, insn.jf, k0, k1, k2, k3]
}

/// Returns the instructions of some bytes, and skips a rest of fewer than eight bytes.
pub fn insns_from_bytes(alloc: Global, bytes: &[u8]) -> Result<Vec<Insn>, AllocError>
    ensures read { IfOk result (λ insns. insns.items ≡ insns_of bytes.now) }
    ensures fit { IfOk result (λ insns. All Fits insns.items) }
{
    let (chunks, _) = bytes.as_chunks::<INSN_LEN>();
    let mut insns = Vec::with_capacity(alloc, chunks.len())?;
    for chunk in chunks {
        insns.push(insn_from(chunk))?;
    }
    Ok(insns)
}

/// Returns the bytes of these instructions.
pub fn bytes_from_insns(alloc: Global, insns: &[Insn]) -> Result<Vec<u8>, AllocError>
    requires { length insns.now ≤ 4096 }
    ensures of_the_instructions { IfOk result (λ bytes. bytes.items ≡ bytes_of insns.now) }
{
    let mut bytes = Vec::with_capacity(alloc, INSN_LEN * insns.len())?;
    for insn in insns {
        bytes.extend_from_slice(&bytes_from(*insn))?;
    }
    Ok(bytes)
}
