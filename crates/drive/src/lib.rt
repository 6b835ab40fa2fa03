// The state of a job, and the one loop that carries out picks on it.
#![tactic(auto)]

pub mod ending;
pub mod picks;
mod registers;
pub mod slots;
mod writes;

use task::{Register, Task};

// Slot k has tasks[k], the 16 registers of bank from 16·k on and the 32 values of stacks from 32·k on. Whether the job has ended, and how, is
// read off slot 0.
#[derive(Clone, Copy, Debug, PartialEq, Eq)]
pub struct State {
    pub places: u64,
    pub interval: u16,
    pub work: u32,
    pub bank: [Register; task::BANK],
    pub stacks: [Register; task::STACKS],
    pub tasks: [Task; 64],
}

// How a job has ended: by halt, or by a fault with its number. Not an Option: `end_at`, `is_end` and `end_number`, which may not change,
// have the three as cases.
#[derive(Clone, Copy, Debug, PartialEq, Eq)]
pub enum End {
    NotEnded,
    Halt,
    Fault(u8),
}

// What the loop over the slots counts: the picks carried out, and of rounds how many were begun.
#[derive(Clone, Copy, Debug, PartialEq, Eq)]
pub struct Counts {
    pub picks: u64,
    pub rounds: u64,
}
