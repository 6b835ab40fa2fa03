// The plain evaluation of a task, in its own order: one task at a time, its registers and its stack in rows of numbers. `serial` says what that
// order is and proves that it finds what the plain evaluation finds.
#![tactic(auto)]

use arms::{Pile, Registers, Way};
use task::Status;

mod banks;
mod closing;
mod ending;
mod fitting;
pub mod flat;
mod hands;

// The task in hand, but for its registers and the records of its open forks. Its counter is the difference of `beat` and what is left of the budget,
// its span that of `spun`. Its stack begins at `low` of the pile and has `height` values.
#[derive(Clone, Copy)]
pub struct Hand {
    pub status: Status,
    pub places: u64,
    pub depth: u64,
    pub pc: usize,
    pub beat: u64,
    pub left: u64,
    pub spun: u64,
    pub low: u64,
    pub height: u64,
}

// The task in hand after its instructions by itself, and what its next one comes to, of which `Ends` (crate arms) speaks.
#[derive(Clone, Copy)]
pub struct Ran {
    pub way: Way,
    pub hand: Hand,
}

// The other side of a fork: the child's, still to come, whose stack is empty; or the parent's, that has ended, whose stack lies on the pile right
// below that of the child.
#[derive(Clone, Copy)]
pub struct Kept {
    pub status: Status,
    pub places: u64,
    pub pc: usize,
    pub span: u64,
    pub height: u64,
}

// What stands beside the task in hand: its registers; of each side that is kept, outermost first, a bank of registers, its fork's record and its
// numbers; and the pile, on which the stacks lie.
#[derive(Drop)]
pub struct Rows {
    pub registers: Registers,
    pub banks: [Registers; 6],
    pub records: [u64; 6],
    pub sides: [Kept; 6],
    pub pile: Pile,
}

// How an evaluation ended: the last task has halted or has a fault, or it runs still, and the budget was used up.
#[derive(Clone, Copy)]
pub struct Finished {
    pub status: Status,
    pub places: u64,
    pub left: u64,
    pub span: u64,
}
