// Arms for opcodes 1, 9 and 11: r := v, r := word v of the call record, and r := jralloc v.
// `set_register` and `set_immediate` alone call them, with registers and labels of an accepted program.
ghost use Rattle.std.specs.Prelude.{◌≡◌, true, List, ℕ, ◌<◌, ◌≤◌, ℤ};
ghost use Rattle.image.specs.Program.{Program};
ghost use Rattle.image.specs.Layout.{block_count, program_of};
ghost use Rattle.task.specs.declared.Value.{Value};
ghost use Rattle.task.specs.declared.Register.{Register};
ghost use Rattle.task.specs.Choices.{Choices};
ghost use Rattle.task.specs.Effect.{move, word, jralloc};
ghost use Rattle.task.specs.Formed.{value_fits};
ghost use Rattle.arms.specs.Registers.{registers_in, value_of, in_register, as_label, as_number};
ghost use Rattle.arms.specs.Arms.{Context, context_with, SetsAs};

use crate::{Code, Registers, Way};

// Opcode 1, r := v: the value of a register; a label or a number.
pub fn move_register(registers: &mut Registers, r: usize, v: usize) -> Way
    requires { (r < 16) × (v < 16) }
    ensures { (x : Context) (s : List Register → Value) → SetsAs x move result r registers.old registers.new
        s (in_register v) }
{
    let num = registers.nums[v];
    let kind = registers.kinds[v];
    registers.put(r, num, kind);
    Way::On
}

pub fn move_value(registers: &mut Registers, r: usize, num: u64, kind: u8) -> Way
    requires { (r < 16) }
    ensures { (x : Context) (s : List Register → Value) → SetsAs x move result r registers.old registers.new
        s (λ l. value_of kind num) }
{
    registers.put(r, num, kind);
    Way::On
}

// Opcode 9, r := word v of the call record.
pub fn fetch_number(words: &[i64], registers: &mut Registers, r: usize, v: u64) -> Way
    requires { (r < 16) }
    ensures { (p : Program) (c : Choices) (d : ℕ) (s : List Register → Value) → SetsAs (context_with p words.now c d) word result r registers.old registers.new
        s (as_number v) }
{
    if (words.len() as u64) <= v {
        return Way::Fault(33);
    }
    let u = int64::bits(words[v as usize]);
    registers.put(r, u, 0);
    Way::On
}

pub fn fetch_register(words: &[i64], registers: &mut Registers, r: usize, v: usize) -> Way
    requires { (r < 16) × (v < 16) }
    ensures { (p : Program) (c : Choices) (d : ℕ) (s : List Register → Value) → SetsAs (context_with p words.now c d) word result r registers.old registers.new
        s (in_register v) }
{
    if registers.kinds[v] != 0 {
        return Way::Fault(31);
    }
    let u = registers.nums[v];
    fetch_number(words, registers, r, u)
}

// Opcode 11, r := jralloc v: the label of a join target and the task's depth, as one number.
pub fn allocate_label(code: &Code, registers: &mut Registers, depth: u64, r: usize, v: u64) -> Way
    requires { (v < block_count code.now.program.cells.now) × (depth ≤ 6) × (r < 16) }
    ensures { (w : List ℤ) (c : Choices) (s : List Register → Value) → SetsAs (context_with (program_of code.now.program.cells.now) w c depth) jralloc result r registers.old registers.new s (as_label v) }
{
    if code.program.annotation(v as usize) != 2 {
        return Way::Fault(35);
    }
    registers.put(r, 4294967296 * v + depth, 2);
    Way::On
}

pub fn allocate_register(
    code: &Code,
    registers: &mut Registers,
    depth: u64,
    r: usize,
    v: usize,
) -> Way
    requires { (depth ≤ 6) × (r < 16) × (v < 16)
        × (value_fits (program_of code.now.program.cells.now) (in_register v (registers_in registers.old)) ≡ true) }
    ensures { (w : List ℤ) (c : Choices) (s : List Register → Value) → SetsAs (context_with (program_of code.now.program.cells.now) w c depth) jralloc result r registers.old registers.new s (in_register v) }
{
    if registers.kinds[v] != 1 {
        return Way::Fault(35);
    }
    let b = registers.nums[v];
    allocate_label(code, registers, depth, r, b)
}
