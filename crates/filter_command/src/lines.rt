//! The lines of compiled filters.
ghost use Rattle.std.specs.Prelude.{◌≡◌, ◌<◌, ◌++◌, flat_map, IfOk, OnOk};
ghost use Rattle.filter_command.specs.Lines.{count_line, head_line, hex_byte, hex_digit, insn_line};

use launcher::{FilterProgram, Insn};
use std::alloc::{AllocError, Global};

fn lower_digit(n: u8) -> u8
    requires { n < 16 }
    ensures { result ≡ hex_digit n }
{
    if n < 10 { b'0' + n } else { b'a' + (n - 10) }
}

fn push_hex_byte(out: &mut Vec<u8>, n: u8) -> Result<(), AllocError>
    ensures { OnOk result (out.new.items ≡ out.old.items ++ hex_byte n) }
{
    out.push(lower_digit(n / 16))?;
    out.push(lower_digit(n % 16))?;
    Ok(())
}

fn push_hex(out: &mut Vec<u8>, bytes: &[u8]) -> Result<(), AllocError>
    ensures { OnOk result (out.new.items ≡ out.old.items ++ flat_map hex_byte bytes.now) }
{
    for byte in bytes {
        push_hex_byte(out, *byte)?;
    }
    Ok(())
}

/// The line of an instruction.
pub fn insn_line(alloc: Global, insn: &Insn) -> Result<Vec<u8>, AllocError>
    ensures tells_the_instruction { IfOk result (λ line. line.items ≡ insn_line insn.now) }
{
    let mut line = Vec::new(alloc);
    push_hex(&mut line, &insn.code.to_le_bytes())?;
    push_hex(&mut line, &insn.jt.to_le_bytes())?;
    push_hex(&mut line, &insn.jf.to_le_bytes())?;
    push_hex(&mut line, &insn.k.to_le_bytes())?;
    line.push(b'\n')?;
    Ok(line)
}

/// The first line of a filter.
pub fn head_line(alloc: Global, filter: &FilterProgram) -> Result<Vec<u8>, AllocError>
    ensures tells_the_filter { IfOk result (λ line. line.items ≡ head_line filter.now) }
{
    let name = filter.name.text();
    let length = filter.program.insns().len();
    Ok(format!(in alloc; "filter {name} {length}\n")?.into_bytes())
}

/// The last line of all.
pub fn count_line(alloc: Global, count: usize) -> Result<Vec<u8>, AllocError>
    ensures counts { IfOk result (λ line. line.items ≡ count_line count) }
{
    Ok(format!(in alloc; "filters {count}\n")?.into_bytes())
}
