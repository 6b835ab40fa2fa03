// The instruction that the task in hand does not carry out by itself: a fault that its arm has found, or fork, join, halt, push or pop. Of the last
// two the loop leaves those for which there is no place or no value; nothing here rests on that.
ghost use Rattle.std.specs.Prelude.{◌≡◌, true, List, ℕ, ◌-◌, ◌/◌, ◌<◌, ◌≤◌, ℤ};
ghost use Rattle.image.specs.Program.{Program as SpecProgram};
ghost use Rattle.image.specs.Layout.{program_of};
ghost use Rattle.image.specs.Questions.{most_instructions};
ghost use Rattle.task.specs.declared.Value.{Value};
ghost use Rattle.task.specs.declared.Register.{Register};
ghost use Rattle.task.specs.declared.Fork.{Fork};
ghost use Rattle.task.specs.Choices.{Choices, chosen};
ghost use Rattle.task.specs.Effect.{fork, meet, push};
ghost use Rattle.task.specs.Formed.{value_fits};
ghost use Rattle.task.specs.Execute.{answered};
ghost use Rattle.arms.specs.Registers.{value_of, operand_by};
ghost use Rattle.evaluator.specs.Banks.{bank_of, forks_of, Nested};
ghost use Rattle.arms.specs.Arms.{IfOn};
ghost use Rattle.arms.specs.Turns.{executed_of, Ends};
ghost use Rattle.evaluator.specs.Sides.{frame_of, CanStep};
ghost use Rattle.evaluator.specs.Hands.{hand_side};

use crate::fitting::does_fit;
use crate::{Hand, Rows};
use arms::rows::value_of;
use arms::{Code, Pair, Registers, Way};
use image::Instruction;
use image::program::Program;
use task::control::halt;
use task::{Active, Executed, Kind, Value, results};

// The operand's kind and bits.
fn operand_pair(registers: &Registers, x: Instruction) -> Pair
    requires { x.kind ≡ 1 → x.operand < 16 }
    ensures { value_of result.kind result.num ≡ operand_by x.kind x.operand (bank_of registers.now) }
{
    if x.kind == 1 {
        let at = x.operand as usize;
        return Pair {
            kind: registers.kinds[at],
            num: registers.nums[at],
        };
    }
    if x.kind == 2 {
        return Pair {
            kind: 1,
            num: x.operand,
        };
    }
    Pair {
        kind: 0,
        num: x.operand,
    }
}

// Opcode 12, of a task that has counted it: a record s that fits, a label v, two places. `ending` alone calls these three, with the values
// of a well-formed task.
fn fork_under(program: &Program, records: &[u64; 6], s: Pair, v: Pair, t: Active) -> Executed
    requires { (value_fits (program_of program.now.cells.now) (value_of v.kind v.num) ≡ true) × (t.pc < most_instructions) × (t.depth ≤ 6)
        × Nested records.now t.depth }
    ensures { (w : List ℤ) (c : Choices) → result ≡ answered (program_of program.now.cells.now) w c (value_of s.kind s.num) (value_of v.kind
        v.num) t (forks_of records.now t.depth) fork }
{
    if s.kind < 2 {
        return results::fault(36);
    }
    let under = s.num;
    if !does_fit(records, under, t.depth as u64) {
        return results::fault(36);
    }
    if v.kind != 1 {
        return results::fault(34);
    }
    if t.places < 2 {
        return results::fault(37);
    }
    let child = program.first(v.num as usize) as u16;
    Executed {
        kind: Kind::Forks,
        value: Value::Record((under / 4294967296) as u32, (under % 4294967296) as u32),
        pc: t.pc + 1,
        counter: t.counter,
        fault: 0,
        child,
    }
}

// Opcode 15, likewise: to the continuation, which is a join target and so never promotes; or the task waits.
fn meet_under(program: &Program, records: &[u64; 6], v: Pair, t: Active) -> Executed
    requires { (value_fits (program_of program.now.cells.now) (value_of v.kind v.num) ≡ true) × (t.depth ≤ 6)
        × Nested records.now t.depth }
    ensures { (w : List ℤ) (interval : ℕ) (s : Value) → result ≡ answered (program_of program.now.cells.now) w (chosen interval) s (value_of v.kind
        v.num) t (forks_of records.now t.depth) meet }
{
    if v.kind < 2 {
        return results::fault(36);
    }
    let under = v.num;
    if !does_fit(records, under, t.depth as u64) {
        return results::fault(36);
    }
    if under % 4294967296 != (t.depth as u64) {
        return results::end(Kind::Waits, 0);
    }
    let b = (under / 4294967296) as usize;
    results::go(program.first(b) as u16, t.counter)
}

// Opcode 16, likewise: whether there is a place on the stack `apply` asks.
fn push_of(v: Pair, t: Active) -> Executed
    requires { (v.kind ≡ 1 → v.num < 4294967296) × (t.pc < most_instructions) }
    ensures { (p : SpecProgram) (w : List ℤ) (c : Choices) (s : Value) (o : List Fork) → result ≡ answered p w c s (value_of v.kind v.num) t o push }
{
    let value = value_of(v.kind, v.num);
    results::pass(Kind::Pushes, value, t)
}

impl Hand {
    // `act` alone calls it, and ensures `CanStep` and, by `Point`, `Nested`; `run_hand` ensures `Ends`. The call record and the interval are the
    // contract's: none of these instructions looks at them.
    pub fn ending(self, code: &Code, way: Way, rows: &Rows) -> Executed
        requires { CanStep code.now.program.cells.now (hand_side self rows.now.records rows.now.registers) × (self.left ≤ self.beat) × IfOn way ⊥
            × Ends code.now.program.cells.now code.now.words.now code.now.interval self.places self.depth way (self.pc / 4) (self.beat - self.left) (bank_of rows.now.registers)
            × Nested rows.now.records self.depth }
        ensures { (stack : List Register) → result ≡ executed_of (program_of code.now.program.cells.now) code.now.words.now (chosen code.now.interval)
            (frame_of (hand_side self rows.now.records rows.now.registers) stack) }
    {
        if let Way::Fault(n) = way {
            return results::fault(n);
        }
        let at = self.pc / 4;
        let x = code.program.instruction(at);
        let t = results::count(Active {
            places: self.places,
            pc: at as u16,
            counter: (self.beat - self.left) as u32,
            depth: self.depth as u32,
        });
        let at_s = x.s as usize;
        let s = Pair {
            kind: rows.registers.kinds[at_s],
            num: rows.registers.nums[at_s],
        };
        let v = operand_pair(&rows.registers, x);
        match x.opcode {
            12 => fork_under(&code.program, &rows.records, s, v, t),
            15 => meet_under(&code.program, &rows.records, v, t),
            16 => push_of(v, t),
            17 => results::pass(Kind::Pops, Value::Int(0), t),
            _ => halt(t),
        }
    }
}
