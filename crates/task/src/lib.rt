// Values, task records, a task record with its registers, and what one instruction makes of a task.
#![tactic(auto)]

mod arithmetic;
pub mod control;
pub mod execution;
mod forking;
pub mod joining;
pub mod results;
pub mod running;
mod stacking;

// The most work that a state can show (question 24): no counter and no span is above it.
pub const WORK_LIMIT: u32 = 4294967295;

// The registers of a state: 16 of each of 64 slots.
pub const BANK: usize = 1024;

// The values of a task's stack, and of the stacks of all 64 slots.
pub const STACK: usize = 32;

pub const STACKS: usize = 2048;

#[derive(Clone, Copy, Debug, PartialEq, Eq)]
pub enum Value {
    Int(i64),
    Label(u32),
    // continuation, depth
    Record(u32, u32),
}

#[derive(Clone, Copy, Debug, PartialEq, Eq)]
pub struct Register {
    pub value: Value,
}

#[derive(Clone, Copy, Debug, PartialEq, Eq)]
pub enum Status {
    Vacant,
    Running,
    Waiting,
    Halted,
    Faulted(u8),
}

// An open fork: the two numbers of the record that it was opened under.
#[derive(Clone, Copy, Debug, PartialEq, Eq)]
pub struct Fork {
    pub continuation: u32,
    pub depth: u32,
}

// height is the number of values on the task's stack. forks has the open forks, outermost first; its unused entries are 0. Arrays with a length
// beside them (depth, height): memory is fixed, and what `formed` (specs/Formed.antt) asks of the unused entries may not change.
#[derive(Clone, Copy, Debug, PartialEq, Eq)]
pub struct Task {
    pub status: Status,
    pub height: u32,
    pub places: u64,
    pub pc: u16,
    pub counter: u32,
    pub span: u32,
    pub depth: u32,
    pub forks: [Fork; 6],
}

// stack has the values on the task's stack, the first one pushed first; its unused entries are the integer 0.
#[derive(Clone, Copy, Debug, PartialEq, Eq)]
pub struct Frame {
    pub task: Task,
    pub registers: [Register; 16],
    pub stack: [Register; STACK],
}

// What an instruction looks at, and changes, of a running task, besides its open forks and its stack: a few numbers and no array, so that the
// loop over the slots keeps them in registers.
#[derive(Clone, Copy, Debug, PartialEq, Eq)]
pub struct Active {
    pub places: u64,
    pub pc: u16,
    pub counter: u32,
    pub depth: u32,
}

// What becomes of a task that has carried out an instruction; a push or a pop faults yet where the stack, which the machine has, is full (42)
// or empty (43). A kind holds nothing, so that it is one small number: what a fault or a fork has to say besides stands in `Executed`. No enum
// with values: `passing`, `going`, `ending` and `forking` (specs/Execute.antt), which may not change, are records of all six fields.
#[derive(Clone, Copy, Debug, PartialEq, Eq)]
pub enum Kind {
    Stores,
    Goes,
    Pushes,
    Pops,
    Waits,
    Halts,
    Faults,
    Forks,
}

// One instruction carried out: the new pc and counter, 0 where the task does not run on; the value for r, the value to push, or the record that
// a fork is opened under, else the integer 0; the fault's number, 0 where the task has not faulted; and the child's first instruction, 0 where
// it does not fork.
#[derive(Clone, Copy, Debug, PartialEq, Eq)]
pub struct Executed {
    pub kind: Kind,
    pub value: Value,
    pub pc: u16,
    pub counter: u32,
    pub fault: u8,
    pub child: u16,
}

// What two ended sides of a fork come to: the joined task, and the pairs that are copied from the child's registers to the parent's. Its
// stack is the parent's. A faulted task's registers are 16 integers 0, and its stack is empty. A flag and no enum: `joint_by`
// (specs/Execute.antt), which may not change, is a record of these four.
#[derive(Clone, Copy, Debug, PartialEq, Eq)]
pub struct Joint {
    pub task: Task,
    pub faulted: bool,
    pub pairs: u64,
    pub packed: u64,
}
