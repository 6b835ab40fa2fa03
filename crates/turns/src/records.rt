// The task records that an instruction leaves.
ghost use Rattle.std.specs.Prelude.{◌≡◌, ◌<◌};
ghost use Rattle.task.specs.Frames.{work_limit};
ghost use Rattle.task.specs.Values.{record_of};
ghost use Rattle.task.specs.Step.{with_height, counted, moved_to, ended};
ghost use Rattle.turns.specs.Kinds.{runs_on, stores_it, status_of, height_left, side_of};

use task::{Fork, Kind, Status, Task, Value};

// Whether the task runs on alone, with the stack that it had.
pub fn runs_on(kind: Kind) -> bool
    ensures { result ≡ runs_on kind }
{
    matches!(kind, Kind::Stores | Kind::Goes)
}

pub fn does_store(kind: Kind) -> bool
    ensures { result ≡ stores_it kind }
{
    matches!(kind, Kind::Stores)
}

// The status of a task that an instruction has ended. The fault's number is 0 where it has not faulted.
fn status_of(kind: Kind, fault: u8) -> Status
    ensures { result ≡ status_of kind fault }
{
    match kind {
        Kind::Stores | Kind::Goes | Kind::Pushes | Kind::Pops | Kind::Forks => Status::Running,
        Kind::Waits => Status::Waiting,
        Kind::Halts => Status::Halted,
        Kind::Faults => Status::Faulted(fault),
    }
}

// A task that runs on. By whole record, so that what stays is not stored again. The caller has found the work below its limit.
pub fn ran_on(t: Task, pc: u16, counter: u32) -> Task
    requires { t.span < work_limit }
    ensures { result ≡ moved_to pc counter (counted t) }
{
    let mut n = t;
    n.pc = pc;
    n.counter = counter;
    n.span = t.span + 1;
    n
}

// The record that a fork is opened under.
pub fn record_of(v: Value) -> Fork
    ensures { result ≡ record_of v }
{
    match v {
        Value::Int(_) | Value::Label(_) => Fork {
            continuation: 0,
            depth: 0,
        },
        Value::Record(continuation, depth) => Fork {
            continuation,
            depth,
        },
    }
}

// A fault empties the stack.
fn height_left(kind: Kind, height: u32) -> u32
    ensures { result ≡ height_left kind height }
{
    if let Kind::Faults = kind {
        return 0;
    }
    height
}

// A task whose side an instruction has ended. The caller has found the work below its limit.
pub fn ended_task(t: Task, kind: Kind, fault: u8) -> Task
    requires { t.span < work_limit }
    ensures { result ≡ with_height (height_left kind t.height) (ended (status_of kind fault) (counted t)) }
{
    let status = status_of(kind, fault);
    let height = height_left(kind, t.height);
    let forks = t.forks;
    Task {
        status,
        places: t.places,
        pc: 0,
        counter: 0,
        span: t.span + 1,
        depth: t.depth,
        height,
        forks,
    }
}

// The parent's side of a fork of a running task, opened under this record. The caller has found the work below its limit, and an instruction
// that forks leaves room for an open fork more.
pub fn side_task(t: Task, under: Fork, pc: u16, counter: u32) -> Task
    requires { (t.span < work_limit) × (t.depth < 6) }
    ensures { result ≡ side_of t under pc counter }
{
    let mut forks = t.forks;
    let at = t.depth as usize;
    forks[at] = under;
    Task {
        status: Status::Running,
        places: t.places / 2,
        pc,
        counter,
        span: t.span + 1,
        depth: t.depth + 1,
        height: t.height,
        forks,
    }
}

// The child's side: the same, at its own first instruction, with counter 0 and an empty stack.
pub fn begun_at(parent: Task, pc: u16) -> Task
    ensures { result ≡ with_height 0 (moved_to pc 0 parent) }
{
    let mut n = parent;
    n.pc = pc;
    n.counter = 0;
    n.height = 0;
    n
}
