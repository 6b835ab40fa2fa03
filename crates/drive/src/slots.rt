// The state's slots: a frame taken; and what the joins that fall due look at.
ghost use Rattle.std.specs.Prelude.{◌≡◌, not, ◌&&◌, ◌+◌, ◌*◌, ◌-◌, ◌%◌, ◌≤◌, ◌<◌, eqb, ltb};
ghost use Rattle.task.specs.Frames.{is_running, no_forks, vacant_task};
ghost use Rattle.drive.specs.Slots.{at};

use crate::State;
use task::running::is_running;
use task::{Fork, Frame, Register, Status, Task, Value};

// Our own crates alone call it, with a slot below the state's 64.
pub fn frame_at(m: &State, k: usize) -> Frame
    requires { k < 64 }
    ensures { result ≡ at m.now k }
{
    let mut registers = [Register {
        value: Value::Int(0),
    }; 16];
    for i in 0..16 {
        registers[i] = m.bank[16 * k + i];
    }
    let mut stack = [Register {
        value: Value::Int(0),
    }; task::STACK];
    for j in 0..task::STACK {
        stack[j] = m.stacks[32 * k + j];
    }
    let task = m.tasks[k];
    Frame {
        task,
        registers,
        stack,
    }
}

// A task record with no fork open, at the first instruction, and no count.
pub fn unforked(status: Status, places: u64) -> Task
    ensures { result ≡ record { status = status; places = places; pc = 0; counter = 0; span = 0; depth = 0; height = 0; forks = no_forks } }
{
    let none = Fork {
        continuation: 0,
        depth: 0,
    };
    let forks = [none; 6];
    Task {
        status,
        places,
        pc: 0,
        counter: 0,
        span: 0,
        depth: 0,
        height: 0,
        forks,
    }
}

// A slot without a task.
pub fn vacant_task() -> Task
    ensures { result ≡ vacant_task }
{
    unforked(Status::Vacant, 0)
}

// Whether a task at depth d has ended its side of the fork that made that depth.
fn side_ended(t: Task, d: u32) -> bool
    ensures { result ≡ (eqb t.depth d && not (is_running t.status)) }
{
    t.depth == d && !is_running(t.status)
}

// Whether both sides of a fork that made depth d have ended.
pub fn both_ended(p: Task, c: Task, d: u32) -> bool
    ensures { result ≡ (eqb p.depth d && not (is_running p.status)) && (eqb c.depth d && not (is_running c.status)) }
{
    side_ended(p, d) && side_ended(c, d)
}

// Whether a fork at slot q, of w places each side, has its child's slot in the state. Drive alone calls it, with a slot of the state.
pub fn has_room(q: usize, w: u64) -> bool
    requires { q < 64 }
    ensures { result ≡ (ltb 0 w && ltb (q + w) 64) }
{
    0 < w && w < 64 && q + (w as usize) < 64
}

// The parent's slot of the innermost fork of a task of w places in slot k. Drive alone calls it, with a slot of the state.
pub fn first_slot(k: usize, w: u64) -> usize
    requires { k < 64 }
    ensures { (result ≡ k - k % (2 * w)) × (result ≤ k) }
{
    if w == 0 || 64 <= w {
        return 0;
    }
    k - k % (2 * w as usize)
}
