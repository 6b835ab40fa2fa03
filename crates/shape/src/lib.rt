// The parts of question 20, on the arrays of a state: one pass grades the registers, one finds how far the stacks reach, one gives each slot a
// code, and the codes are tested for a tree.
#![tactic(auto)]

mod marks;
pub mod registers;
pub mod slots;
pub mod stacks;
pub mod tasks;
pub mod tiling;
