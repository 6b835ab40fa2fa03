// Opcodes 10, 11, 13 and 14: if-jump, jralloc, jump and halt; and entering a block.
ghost use Rattle.std.specs.Prelude.{◌≡◌, true, List, ℤ, ◌<◌};
ghost use Rattle.image.specs.Program.{Program as SpecProgram};
ghost use Rattle.image.specs.Layout.{block_count, block_of, program_of};
ghost use Rattle.image.specs.Questions.{most_instructions};
ghost use Rattle.task.specs.Choices.{Choices, chosen};
ghost use Rattle.task.specs.declared.Fork.{Fork};
ghost use Rattle.task.specs.Effect.{if_jump, jralloc, jump, halt};
ghost use Rattle.task.specs.Step.{promotes};
ghost use Rattle.task.specs.Formed.{value_fits};
ghost use Rattle.task.specs.Execute.{entering, answered};

use crate::results::{end, fault, go, store};
use crate::{Active, Executed, Kind, Value};
use image::program::Program;

// The first instruction of block b. This crate alone calls it, with a block of the program.
pub(crate) fn first_of(program: &Program, b: usize) -> u16
    requires { b < block_count program.now.cells.now }
    ensures { result ≡ (block_of program.now.cells.now b).first }
{
    program.first(b) as u16
}

// Whether control goes to the handler of block b instead. Our crates alone call it, as above. The annotation is the image's number, as
// `promotes` (specs/Step.antt), which may not change, reads it.
#[tactic(auto, unfolding(crate::specs::Step::promotes))]
pub fn is_promoted(program: &Program, interval: u64, b: usize, counter: u64, places: u64) -> bool
    requires { b < block_count program.now.cells.now }
    ensures { result ≡ promotes (program_of program.now.cells.now) (chosen interval) b counter places }
{
    program.annotation(b) == 1 && interval != 0 && interval <= counter && 2 <= places
}

// Entering block b by jump, taken if-jump or join. This crate alone calls it, as above.
pub(crate) fn enter(program: &Program, interval: u64, b: u32, t: Active) -> Executed
    requires { b < block_count program.now.cells.now }
    ensures { result ≡ entering (program_of program.now.cells.now) (chosen interval) b t }
{
    let block = b as usize;
    if is_promoted(program, interval, block, u64::from(t.counter), t.places) {
        let handler = program.label(block) as usize;
        return go(first_of(program, handler), 0);
    }
    go(first_of(program, block), t.counter)
}

// This crate alone calls it, with a value whose label the shape test has put inside the program.
pub(crate) fn jump(program: &Program, interval: u64, v: Value, t: Active) -> Executed
    requires { value_fits (program_of program.now.cells.now) v ≡ true }
    ensures { (w : List ℤ) (s : Value) (o : List Fork) → result ≡ answered (program_of program.now.cells.now) w (chosen interval) s v t o jump }
{
    let Value::Label(b) = v else {
        return fault(34);
    };
    enter(program, interval, b, t)
}

// If-jump looks at its target only when it jumps. Execute alone calls it, as above; the shape test has put pc inside the program.
pub(crate) fn branch(program: &Program, interval: u64, s: Value, v: Value, t: Active) -> Executed
    requires { (value_fits (program_of program.now.cells.now) v ≡ true) × (t.pc < most_instructions) }
    ensures { (w : List ℤ) (o : List Fork) → result ≡ answered (program_of program.now.cells.now) w (chosen interval) s v t o if_jump }
{
    let Value::Int(a) = s else {
        return fault(31);
    };
    if a == 0 {
        return jump(program, interval, v, t);
    }
    go(t.pc + 1, t.counter)
}

// A record: the continuation block and the task's present depth. As above.
#[tactic(auto, unfolding(crate::specs::Effect::asked))]
pub(crate) fn allocate(program: &Program, v: Value, t: Active) -> Executed
    requires { (value_fits (program_of program.now.cells.now) v ≡ true) × (t.pc < most_instructions) }
    ensures { (w : List ℤ) (c : Choices) (s : Value) (o : List Fork) → result ≡ answered (program_of program.now.cells.now) w c s v t o jralloc }
{
    let Value::Label(b) = v else {
        return fault(35);
    };
    if program.annotation(b as usize) != 2 {
        return fault(35);
    }
    store(Value::Record(b, t.depth), t)
}

// No open fork at halt.
#[tactic(auto, unfolding(crate::specs::Effect::asked))]
pub fn halt(t: Active) -> Executed
    ensures { (p : SpecProgram) (w : List ℤ) (c : Choices) (s v : Value) (o : List Fork) → result ≡ answered p w c s v t o halt }
{
    if t.depth != 0 {
        return fault(38);
    }
    end(Kind::Halts, 0)
}
