// One instruction carried out on small values: the numbers of a running task, its open forks, and the values of its operands.
ghost use Rattle.std.specs.Prelude.{◌≡◌, ◌<◌};
ghost use Rattle.image.specs.Layout.{program_of};
ghost use Rattle.image.specs.Questions.{most_blocks};
ghost use Rattle.task.specs.Choices.{chosen};
ghost use Rattle.task.specs.Execute.{Ready, selected, executed};

use crate::arithmetic::{add, divide, equal, fetch, less, modulo, multiply, subtract};
use crate::control::{allocate, branch, halt, jump};
use crate::forking::{fork, meet};
use crate::results::{count, fault, store};
use crate::stacking::{pop, push};
use crate::{Active, Executed, Fork, Value};
use image::Instruction;
use image::program::Program;

// The value of operand v, where `held` is the value of the register that an operand of kind 1 names. The machine's loop calls it, with an
// instruction of an accepted program. The kind is the image's number, as `selected` (specs/Execute.antt), which may not change, reads it.
pub fn operand(x: Instruction, held: Value) -> Value
    requires { x.kind ≡ 2 → x.operand < most_blocks }
    ensures { result ≡ selected x held }
{
    match x.kind {
        1 => held,
        2 => Value::Label(x.operand as u32),
        _ => Value::Int(int64::number(x.operand)),
    }
}

// The machine ensures `Ready`, by question 20 and the work's limit. The opcode is the image's number and no enum: `executed`
// (specs/Execute.antt), which may not change, reads it so.
pub fn execute(
    cells: &[u64],
    words: &[i64],
    interval: u64,
    x: Instruction,
    s: Value,
    v: Value,
    active: Active,
    forks: [Fork; 6],
) -> Executed
    requires { Ready cells.now s v active }
    ensures { result ≡ executed (program_of cells.now) words.now (chosen interval) x s v active forks }
{
    let program = Program { cells };
    let t = count(active);
    let opcode = x.opcode;
    match opcode {
        1 => store(v, t),
        2 => add(s, v, t),
        3 => subtract(s, v, t),
        4 => multiply(s, v, t),
        5 => divide(s, v, t),
        6 => modulo(s, v, t),
        7 => less(s, v, t),
        8 => equal(s, v, t),
        9 => fetch(words, v, t),
        10 => branch(&program, interval, s, v, t),
        11 => allocate(&program, v, t),
        12 => fork(&program, s, v, t, forks),
        13 => jump(&program, interval, v, t),
        14 => halt(t),
        15 => meet(&program, interval, v, t, forks),
        16 => push(v, t),
        17 => pop(t),
        _ => fault(8),
    }
}
