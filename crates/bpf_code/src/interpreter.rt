// Runs a program.
//
// A step performs one instruction (`effects`). An accepted program (`program`) has an instruction at every place to which a
// step leads, so the program always ends.
ghost use Rattle.std.specs.Prelude.{◌≡◌, ◌<◌, Some, None, false, length};
ghost use Rattle.bpf_code.specs.Ops.{op_of};
ghost use Rattle.bpf_code.specs.Effects.{effect_by, StaysWithin};
ghost use Rattle.bpf_code.specs.Meaning.{Answers, AnswersWithin, IsOnlyAnswer};
ghost use Rattle.bpf_code.specs.Accepted.{fault_of, is_return};

use crate::codes::decode;
use crate::effects::perform;
use crate::machine::{CallData, Effect, Insn, Regs};
use crate::program::Program;

// Performs an instruction without a fault, given how many instructions follow it.
#[inline(always)]
fn step(insn: Insn, left: usize, regs: &mut Regs, input: &CallData) -> Effect
    requires fine { fault_of insn left ≡ None }
    requires more { is_return (op_of insn.code) ≡ false → 0 < left }
    ensures effect { effect_by (op_of insn.code) insn regs.old input.now ≡ Some (result, regs.new) }
    ensures inside { StaysWithin left result }
{
    perform(decode(insn.code).unwrap(), insn, regs, input)
}

/// Returns the answer of the program for the data of a call.
///
/// Every program ends on all data, with one answer, after at most as many instructions as it has. A run takes no
/// memory.
pub fn run(program: &Program, input: &CallData) -> u32
    ensures answers { Answers program.now input.now result }
    ensures only_answer { IsOnlyAnswer program.now input.now result }
    ensures in_time { AnswersWithin (length program.now) program.now input.now result }
{
    let mut regs = Regs::new();
    let mut code = program.insns();
    while let Some((insn, rest)) = code.split_first() {
        match step(*insn, rest.len(), &mut regs, input) {
            Effect::End(answer) => return answer,
            Effect::Skip(skip) => code = &rest[skip as usize..],
        }
    }
    unreachable!()
}
