// What a turn of the loop over the slots asks: which slot comes next, which registers move, and which record a task is left with. The state
// itself is not handed round: a few numbers and one record are.
#![tactic(auto)]

pub mod course;
pub mod moves;
pub mod records;
pub mod rows;
pub mod stacking;
pub mod walk;
