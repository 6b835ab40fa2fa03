// What a turn of the loop writes to task records, and to a stack, in the state where it stands. Drive alone calls these functions, with slots of
// the state, an entry that the stack has, and work below its limit.
ghost use Rattle.std.specs.Prelude.{◌≡◌, ◌+◌, ◌/◌, ◌<◌, ◌≤◌, length};
ghost use Rattle.image.specs.Layout.{instruction_cell, instruction_of, program_of};
ghost use Rattle.task.specs.Frames.{stack_length, work_limit};
ghost use Rattle.task.specs.Execute.{Joinable, joint_of};
ghost use Rattle.task.specs.Step.{with_height, ended, counted};
ghost use Rattle.turns.specs.Kinds.{stack_no, status_of, height_left};
ghost use Rattle.turns.specs.Moving.{fork_moves, end_moves, join_moves};
ghost use Rattle.drive.specs.Slots.{at};
ghost use Rattle.drive.specs.Writes.{with_task_at, tasks_joined, task_forked, value_moved};

use crate::{State, slots};
use task::{Executed, Kind};
use turns::moves::{Moves, Sides};
use turns::{moves, records, stacking};

// Two ended sides of a fork: the joined task in the parent's slot q, and none in the child's slot c. It answers the moves that are left.
pub fn join_sides(cells: &[u64], state: &mut State, q: usize, c: usize) -> Moves
    requires { (q < 64) × (c < 64) × Joinable cells.now (at state.old q).task (at state.old c).task }
    ensures written { state.new ≡ tasks_joined state.old q c (joint_of (program_of cells.now) (at state.old q).task (at state.old c).task).task }
    ensures moves { let j = joint_of (program_of cells.now) (at state.old q).task (at state.old c).task in result ≡ join_moves q c j.pairs j.packed j.faulted (at state.old q).task.height (at state.old c).task.height }
{
    let parent = state.tasks[q];
    let child = state.tasks[c];
    let joint = task::joining::joined(cells, parent, child);
    state.tasks[c] = slots::vacant_task();
    state.tasks[q] = joint.task;
    let sides = Sides {
        pairs: joint.pairs,
        packed: joint.packed,
        faulted: joint.faulted,
        ours: parent.height,
        theirs: child.height,
    };
    Moves::of_join(q, c, sides)
}

// The task of slot k forks: the records of both sides. It answers the moves that are left.
pub fn open_fork(state: &mut State, k: usize, e: Executed) -> Moves
    requires { (k < 64) × (k + (at state.old k).task.places / 2 < 64) × ((at state.old k).task.span < work_limit) × ((at state.old k).task.depth < 6) }
    ensures written { state.new ≡ task_forked state.old k e }
    ensures moves { result ≡ fork_moves k (k + (at state.old k).task.places / 2) }
{
    let record = state.tasks[k];
    let parent = records::side_task(record, records::record_of(e.value), e.pc, e.counter);
    let c = k + (parent.places as usize);
    state.tasks[k] = parent;
    state.tasks[c] = records::begun_at(parent, e.child);
    Moves::of_fork(k, c)
}

// The task of slot k has ended its side. It answers the moves that are left.
pub fn end_side(state: &mut State, k: usize, kind: Kind, fault: u8) -> Moves
    requires { (k < 64) × ((at state.old k).task.span < work_limit) }
    ensures written { state.new ≡ with_task_at state.old k (with_height (height_left kind (at state.old k).task.height) (ended (status_of kind fault) (counted (at state.old k).task))) }
    ensures moves { result ≡ end_moves k kind (at state.old k).task.height }
{
    let record = state.tasks[k];
    state.tasks[k] = records::ended_task(record, kind, fault);
    Moves::of_end(k, kind, record.height)
}

// A push or a pop of slot k's task: the value, to the stack's entry or from it, and the record.
pub fn move_value(cells: &[u64], state: &mut State, k: usize, pops: bool, entry: usize, e: Executed)
    requires slots { (k < 64) × (entry < stack_length) }
    requires instruction { (instruction_cell (at state.old k).task.pc + 5 ≤ length cells.now) × ((instruction_of cells.now (at state.old k).task.pc).r ≤ 15) }
    requires stack { (stack_no pops (at state.old k).task.height ≡ 0) × ((at state.old k).task.height ≤ stack_length) × ((at state.old k).task.span < work_limit) }
    ensures { state.new ≡ value_moved state.old k pops entry e (instruction_of cells.now (at state.old k).task.pc).r }
{
    let own = state.tasks[k];
    let at = 32 * k + entry;
    let held = state.stacks[at];
    state.stacks[at] = moves::holding(e.value);
    if pops {
        let x = image::layout::instruction_of(cells, own.pc as usize);
        let at_r = 16 * k + (x.r as usize);
        state.bank[at_r] = held;
    }
    state.tasks[k] = stacking::restacked(own, pops, e.pc, e.counter);
}
