// The arms that set a register.
ghost use Rattle.std.specs.Prelude.{◌≡◌, ℕ, ◌+◌, ◌<◌, length, get_or};
ghost use Rattle.arms.specs.Arms.{context_of, CanSet, SetsBy};

use crate::arithmetic::{
    Difference, Order, Product, Quotient, Remainder, Sameness, Sum, of_number, of_registers,
};
use crate::moves::{
    allocate_label, allocate_register, fetch_number, fetch_register, move_register, move_value,
};
use crate::{Code, Registers, Way};

impl Code<'_> {
    // The register that the instruction at pc sets. Each arm below reads it by itself: a read ahead of a match would keep that one and `turn`'s from
    // being one jump. The two functions below alone call it, with a place of the decoded code.
    fn register_at(&self, pc: usize) -> usize
        requires { pc + 1 < length self.now.code.now }
        ensures { result ≡ get_or self.now.code.now (pc + 1) 0 }
    {
        self.code[pc + 1] as usize
    }
}

// The arm of opcode n and operand kind k is n + 32 k. These are those whose operand is a label or a number; a label is no operand of an operation or
// of word, a number none of jralloc. `set_register` alone calls it, with what it is called with.
fn set_immediate(
    code: &Code,
    registers: &mut Registers,
    depth: u64,
    pc: usize,
    arm: u64,
    s: usize,
    v: u64,
) -> Way
    requires { CanSet code.now.program.cells.now code.now.code.now registers.old.nums registers.old.kinds depth pc arm s v }
    ensures { (interval : ℕ) → SetsBy (context_of code.now.program.cells.now code.now.words.now interval depth) 2 arm result (get_or code.now.code.now (pc + 1) 0) s v
        registers.old registers.new }
{
    match arm {
        65 => move_value(registers, code.register_at(pc), v, 1),
        75 => allocate_label(code, registers, depth, code.register_at(pc), v),
        97 => move_value(registers, code.register_at(pc), v, 0),
        98 => of_number::<Sum>(registers, code.register_at(pc), s, v),
        99 => of_number::<Difference>(registers, code.register_at(pc), s, v),
        100 => of_number::<Product>(registers, code.register_at(pc), s, v),
        101 => of_number::<Quotient>(registers, code.register_at(pc), s, v),
        102 => of_number::<Remainder>(registers, code.register_at(pc), s, v),
        103 => of_number::<Order>(registers, code.register_at(pc), s, v),
        104 => of_number::<Sameness>(registers, code.register_at(pc), s, v),
        105 => fetch_number(code.words, registers, code.register_at(pc), v),
        107 => Way::Fault(35),
        66..=73 => Way::Fault(31),
        _ => Way::Off,
    }
}

// Those whose operand is a register, and all others. `turn` alone calls it, with the numbers of an accepted program's instruction.
pub fn set_register(
    code: &Code,
    registers: &mut Registers,
    depth: u64,
    pc: usize,
    arm: u64,
    s: usize,
    v: u64,
) -> Way
    requires { CanSet code.now.program.cells.now code.now.code.now registers.old.nums registers.old.kinds depth pc arm s v }
    ensures { (interval : ℕ) → SetsBy (context_of code.now.program.cells.now code.now.words.now interval depth) 1 arm result (get_or code.now.code.now (pc + 1) 0) s v
        registers.old registers.new }
{
    match arm {
        33 => move_register(registers, code.register_at(pc), v as usize),
        34 => of_registers::<Sum>(registers, code.register_at(pc), s, v as usize),
        35 => of_registers::<Difference>(registers, code.register_at(pc), s, v as usize),
        36 => of_registers::<Product>(registers, code.register_at(pc), s, v as usize),
        37 => of_registers::<Quotient>(registers, code.register_at(pc), s, v as usize),
        38 => of_registers::<Remainder>(registers, code.register_at(pc), s, v as usize),
        39 => of_registers::<Order>(registers, code.register_at(pc), s, v as usize),
        40 => of_registers::<Sameness>(registers, code.register_at(pc), s, v as usize),
        41 => fetch_register(code.words, registers, code.register_at(pc), v as usize),
        43 => allocate_register(code, registers, depth, code.register_at(pc), v as usize),
        _ => set_immediate(code, registers, depth, pc, arm, s, v),
    }
}
