// Opcodes 12 and 15: fork and join, under a record that fits the task.
ghost use Rattle.std.specs.Prelude.{◌≡◌, true, List, ℤ, ◌<◌, ◌≤◌, IfSome, IfNone};
ghost use Rattle.image.specs.Layout.{program_of};
ghost use Rattle.image.specs.Questions.{most_instructions};
ghost use Rattle.std.specs.List.{list_all};
ghost use Rattle.task.specs.declared.Fork.{Fork};
ghost use Rattle.task.specs.Choices.{Choices, chosen};
ghost use Rattle.task.specs.Effect.{Effect, faults, asked, join_record, fits, fork, meet, same_fork};
ghost use Rattle.task.specs.Formed.{value_fits};
ghost use Rattle.task.specs.Execute.{answered};

use crate::control::{enter, first_of};
use crate::results::{end, fault, pass};
use crate::{Active, Executed, Fork, Kind, Value};
use image::program::Program;

// Whether open forks all belong to a record.
fn all_belong(opened: &[Fork], under: Fork) -> bool
    ensures { result ≡ list_all (same_fork under) opened.now }
{
    opened.iter().all(|fork| *fork == under)
}

// Whether a record's depth is not above the task's, and the open forks beyond it belong to the record.
#[tactic(auto, unfolding(crate::specs::Effect::fits))]
fn does_fit(under: Fork, depth: u32, forks: [Fork; 6]) -> bool
    requires { depth ≤ 6 }
    ensures { result ≡ fits under depth forks }
{
    under.depth <= depth && all_belong(&forks[under.depth as usize..depth as usize], under)
}

// The record that v is, if it fits.
#[tactic(auto, unfolding(crate::specs::Effect::asked))]
fn fitting(v: Value, depth: u32, forks: [Fork; 6]) -> Option<Fork>
    requires { depth ≤ 6 }
    ensures some { IfSome result (λ k. (v ≡ Value.Record k.continuation k.depth) × (fits k depth forks ≡ true)) }
    ensures none { IfNone result ((after : Fork → Effect) → join_record v 36 (λ k. asked (fits k depth forks) 36 (after k)) ≡ faults 36) }
{
    let Value::Record(continuation, record_depth) = v else {
        return None;
    };
    let under = Fork {
        continuation,
        depth: record_depth,
    };
    if !does_fit(under, depth, forks) {
        return None;
    }
    Some(under)
}

// Both sides gain an open fork under s, which the machine opens. Execute alone calls it; the shape test has put pc and v's label inside the
// program, and the depth below 7.
#[tactic(auto, unfolding(crate::specs::Effect::asked))]
pub fn fork(program: &Program, s: Value, v: Value, t: Active, forks: [Fork; 6]) -> Executed
    requires { (value_fits (program_of program.now.cells.now) v ≡ true) × (t.pc < most_instructions) × (t.depth ≤ 6) }
    ensures { (w : List ℤ) (c : Choices) → result ≡ answered (program_of program.now.cells.now) w c s v t forks fork }
{
    let Some(_) = fitting(s, t.depth, forks) else {
        return fault(36);
    };
    let Value::Label(b) = v else {
        return fault(34);
    };
    if t.places < 2 {
        return fault(37);
    }
    Executed {
        child: first_of(program, b as usize),
        ..pass(Kind::Forks, s, t)
    }
}

// The record's depth equal to the task's: to the continuation. Otherwise the task waits. As above.
#[tactic(auto, unfolding(crate::specs::Effect::asked))]
pub fn meet(program: &Program, interval: u64, v: Value, t: Active, forks: [Fork; 6]) -> Executed
    requires { (value_fits (program_of program.now.cells.now) v ≡ true) × (t.depth ≤ 6) }
    ensures { (w : List ℤ) (s : Value) → result ≡ answered (program_of program.now.cells.now) w (chosen interval) s v t forks meet }
{
    let Some(under) = fitting(v, t.depth, forks) else {
        return fault(36);
    };
    if under.depth == t.depth {
        return enter(program, interval, under.continuation, t);
    }
    end(Kind::Waits, 0)
}
