// A task by itself: the program decoded once, an arm for each instruction and operand kind over two rows of registers and two of its stack, and
// the loop that goes on until an instruction that the task does not carry out by itself.
#![tactic(auto)]

ghost use Rattle.arms.specs.Code.{Decodes};

use image::program::Program;

mod arithmetic;
pub mod decoding;
mod jumps;
mod moves;
pub mod rows;
mod setting;
pub mod stacking;
pub mod turning;

// The 16 registers in two rows: of each its 64 bits and its kind. A kind is a number, 0 to 2: `value_of` and `registers_of` (specs/Registers.antt),
// which may not change, are over these numbers, and 16 kinds are one row of bytes, which is moved whole.
#[derive(Clone, Copy, Debug, PartialEq, Eq)]
pub struct Registers {
    pub nums: [u64; 16],
    pub kinds: [u8; 16],
}

// The stacks of a task and of the sides that are kept, in two rows likewise: seven stretches of 32.
#[derive(Drop)]
pub struct Pile {
    pub nums: [u64; 224],
    pub kinds: [u8; 224],
}

// What a job lends to its tasks: its program and that program decoded, the call record and the interval of promotions.
#[derive(Clone, Copy)]
pub struct Code<'a> {
    pub program: Program<'a>,
    pub code: &'a [u64],
    pub words: &'a [i64],
    pub interval: u64,
    pub ghost decoded: { Decodes program.cells.now code.now },
}

// Where a task stands that goes on by itself: its places and its depth, what is left of the budget, the number that its counter is the difference
// of and what is left, its place in the decoded code; and where its stack begins on the pile, and how many values are on it.
#[derive(Clone, Copy, Debug, PartialEq, Eq)]
pub struct Going {
    pub places: u64,
    pub depth: u64,
    pub left: u64,
    pub beat: u64,
    pub pc: usize,
    pub low: u64,
    pub height: u64,
}

// A value's kind, a number as in a row of registers, and its 64 bits.
#[derive(Clone, Copy, Debug, PartialEq, Eq)]
pub struct Pair {
    pub kind: u8,
    pub num: u64,
}

// A decoded instruction's arm, and its operand.
#[derive(Clone, Copy, Debug, PartialEq, Eq)]
pub struct Arm {
    pub number: u64,
    pub operand: u64,
}

// What an instruction comes to: the task goes on by itself; it is left to others, as fork, join, halt, push and pop, of which the loop carries out
// the last two where there is a place or a value; or it faults with this number.
#[derive(Clone, Copy, Debug, PartialEq, Eq)]
pub enum Way {
    On,
    Off,
    Fault(u8),
}

// That, and where the task goes: the place of the next instruction, and the number that its counter is the difference of and what is left of the
// budget.
#[derive(Clone, Copy, Debug, PartialEq, Eq)]
pub struct Gone {
    pub way: Way,
    pub pc: usize,
    pub beat: u64,
}

// Where a task stands before an instruction that is left to others or faults; or, where it would go on, once the budget is used up. And how many
// values are on its stack.
#[derive(Clone, Copy, Debug, PartialEq, Eq)]
pub struct Stopped {
    pub way: Way,
    pub pc: usize,
    pub beat: u64,
    pub left: u64,
    pub height: u64,
}
