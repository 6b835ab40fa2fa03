// Arms for opcodes 10 and 13, if-jump and jump, and entering a block; each answers as `Gone` says. `turn` ensures what they require: the place
// of one of the program's instructions, and registers of a well-formed task.
ghost use Rattle.std.specs.Prelude.{◌≡◌, true, List, ℕ, ◌+◌, ◌*◌, ◌-◌, ◌/◌, ◌<◌, ◌≤◌};
ghost use Rattle.image.specs.Layout.{block_count, instruction_count, program_of};
ghost use Rattle.task.specs.declared.Value.{Value};
ghost use Rattle.task.specs.declared.Value.TheVariants.{Label};
ghost use Rattle.task.specs.Choices.{chosen};
ghost use Rattle.task.specs.Effect.{if_jump, jump};
ghost use Rattle.task.specs.Formed.{value_fits};
ghost use Rattle.task.specs.Execute.{entering};
ghost use Rattle.arms.specs.Registers.{value_of, registers_in, in_register};
ghost use Rattle.arms.specs.Arms.{active, Leads, LeadsAs, Unready};

use crate::{Code, Going, Gone, Registers, Way};
use task::control::is_promoted;

// Entering block b. At a promotion the counter becomes 0: the beat is what is left.
pub fn enter(code: &Code, task: Going, b: usize) -> Gone
    requires { (b < block_count code.now.program.cells.now) × (task.left ≤ task.beat) }
    ensures { (i depth : ℕ) → Leads code.now.program.cells.now task.beat task.left result
        (entering (program_of code.now.program.cells.now) (chosen code.now.interval) b (active task.places i (task.beat - task.left) depth)) }
{
    if is_promoted(
        &code.program,
        code.interval,
        b,
        task.beat - task.left,
        task.places,
    ) {
        let handler = code.program.label(b) as usize;
        let first = code.program.first(handler) as usize;
        return Gone {
            way: Way::On,
            pc: 4 * first,
            beat: task.left,
        };
    }
    let first = code.program.first(b) as usize;
    Gone {
        way: Way::On,
        pc: 4 * first,
        beat: task.beat,
    }
}

// Jump to the label in a register.
pub fn jump_register(code: &Code, registers: &Registers, task: Going, v: usize) -> Gone
    requires { (task.left ≤ task.beat) × (v < 16) × (task.pc ≡ 4 * (task.pc / 4))
        × (value_fits (program_of code.now.program.cells.now) (in_register v (registers_in registers.now)) ≡ true) }
    ensures { (s : Value) → LeadsAs code.now.program.cells.now code.now.interval jump task.places task.pc task.beat task.left result s
        (in_register v (registers_in registers.now)) }
{
    if registers.kinds[v] != 1 {
        return Gone {
            way: Way::Fault(34),
            pc: task.pc,
            beat: task.beat,
        };
    }
    enter(code, task, registers.nums[v] as usize)
}

// If-jump to a value of this kind with these bits, which it looks at only when it jumps.
pub fn branch_to(
    code: &Code,
    registers: &Registers,
    task: Going,
    s: usize,
    kind: u8,
    num: u64,
) -> Gone
    requires { (value_fits (program_of code.now.program.cells.now) (value_of kind num) ≡ true) × (task.left ≤ task.beat)
        × (s < 16) × (task.pc ≡ 4 * (task.pc / 4)) × (task.pc / 4 + 1 < instruction_count code.now.program.cells.now) }
    ensures { LeadsAs code.now.program.cells.now code.now.interval if_jump task.places task.pc task.beat task.left result
        (in_register s (registers_in registers.now)) (value_of kind num) }
{
    if registers.kinds[s] != 0 {
        return Gone {
            way: Way::Fault(31),
            pc: task.pc,
            beat: task.beat,
        };
    }
    if registers.nums[s] != 0 {
        return Gone {
            way: Way::On,
            pc: task.pc + 4,
            beat: task.beat,
        };
    }
    if kind != 1 {
        return Gone {
            way: Way::Fault(34),
            pc: task.pc,
            beat: task.beat,
        };
    }
    enter(code, task, num as usize)
}

// If-jump to the label in a register.
pub fn branch_register(code: &Code, registers: &Registers, task: Going, s: usize, v: usize) -> Gone
    requires { (value_fits (program_of code.now.program.cells.now) (in_register v (registers_in registers.now)) ≡ true)
        × (task.left ≤ task.beat) × (s < 16) × (task.pc ≡ 4 * (task.pc / 4)) × (task.pc / 4 + 1 < instruction_count code.now.program.cells.now) × (v < 16) }
    ensures { LeadsAs code.now.program.cells.now code.now.interval if_jump task.places task.pc task.beat task.left result
        (in_register s (registers_in registers.now)) (in_register v (registers_in registers.now)) }
{
    branch_to(
        code,
        registers,
        task,
        s,
        registers.kinds[v],
        registers.nums[v],
    )
}

// If-jump to a block that is not promotion-ready, whose first place in the decoded code is v.
pub fn branch_plain(registers: &Registers, beat: u64, s: usize, pc: usize, v: usize) -> Gone
    requires { (s < 16) × (pc < 4294967296) }
    ensures { (cells : List ℕ) (interval places left b : ℕ) → Unready cells b v → pc ≡ 4 * (pc / 4) → pc / 4 + 1 < instruction_count cells
        → left ≤ beat → LeadsAs cells interval if_jump places pc beat left result (in_register s (registers_in registers.now)) (Label b) }
{
    if registers.kinds[s] != 0 {
        return Gone {
            way: Way::Fault(31),
            pc,
            beat,
        };
    }
    if registers.nums[s] == 0 {
        return Gone {
            way: Way::On,
            pc: v,
            beat,
        };
    }
    Gone {
        way: Way::On,
        pc: pc + 4,
        beat,
    }
}
