// The state's bytes: written, and read again.
#![tactic(auto)]

mod clear;
pub mod numbers;
mod places;
pub mod reader;
pub mod writer;

// The length of a state's bytes.
pub const STATE_BYTES: usize = 83992;

// A slot begins with its task record. From these bytes of it on it has its registers, its stack's height, and the stack's values.
const REGISTERS_AT: usize = 152;

const HEIGHT_AT: usize = 536;

const STACK_AT: usize = 544;

const SLOT_BYTES: usize = 1312;
