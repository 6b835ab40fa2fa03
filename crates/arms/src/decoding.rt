// A program decoded: for each instruction the number of its arm, the registers r and s, and the operand.
ghost use Rattle.std.specs.Prelude.{◌≡◌, true, ◌+◌, ◌*◌, ◌<◌, ◌≤◌, length};
ghost use Rattle.image.specs.Layout.{block_count, instruction_count};
ghost use Rattle.arms.specs.Code.{Armed, DecodesOne, Decodes};

use crate::Arm;
use image::program::Program;
use image::{Instruction, layout};

// Whether it is a jump or if-jump to a label.
fn jumps_to_label(x: Instruction) -> bool
    ensures { result ≡ true → (x.kind ≡ 2) × ((x.opcode ≡ 10 → ⊥) → x.opcode ≡ 13) }
{
    x.kind == 2 && (x.opcode == 10 || x.opcode == 13)
}

// `decode_one` alone calls it, with an instruction of the program. A block that is not promotion-ready is entered without a question, so
// a jump to its label has an arm of its own.
fn arm_of(program: &Program, x: Instruction) -> Arm
    requires { (x.opcode ≤ 17) × (x.kind ≤ 3) × (x.kind ≡ 2 → x.operand < block_count program.now.cells.now) }
    ensures { Armed program.now.cells.now x result.number result.operand }
{
    let number = x.opcode + 32 * x.kind;
    if jumps_to_label(x) {
        let b = x.operand as usize;
        if program.annotation(b) != 1 {
            let first = program.first(b);
            return Arm {
                number: 128 + number,
                operand: 4 * first,
            };
        }
    }
    Arm {
        number,
        operand: x.operand,
    }
}

// `decode` alone calls it, with an instruction of the program.
fn decode_one(program: &Program, i: usize, code: &mut [u64])
    requires { (i < instruction_count program.now.cells.now) × (4 * i + 4 ≤ length code.old) }
    ensures { DecodesOne program.now.cells.now i code.old code.new }
{
    let x = program.instruction(i);
    let arm = arm_of(program, x);
    let at = 4 * i;
    code[at] = arm.number;
    code[at + 1] = x.r;
    code[at + 2] = x.s;
    code[at + 3] = arm.operand;
}

// Our crates alone call it, with room for the program.
pub fn decode(program: &Program, code: &mut [u64])
    requires { (4 * instruction_count program.now.cells.now ≤ length code.old) }
    ensures { Decodes program.now.cells.now code.new }
{
    let n = layout::instruction_count(program.cells) as usize;
    for i in 0..n {
        decode_one(program, i, code);
    }
}
