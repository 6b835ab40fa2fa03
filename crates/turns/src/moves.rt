// What is left to do to the registers of two slots when a turn of the loop has written its task records.
ghost use Rattle.std.specs.Prelude.{◌≡◌};
ghost use Rattle.task.specs.Frames.{zero_register};
ghost use Rattle.turns.specs.Moving.{no_moves, fork_moves, end_moves, join_moves};

use task::{Kind, Register, Value};

// First pairs of registers from slot `from` to slot `to`, as a continuation block packs them; then, where it clears, from's are cleared, and
// the last `drops` values of slot `dropped`'s stack with them; then, where it is whole, all of from's registers are copied.
#[derive(Clone, Copy, Debug, PartialEq, Eq)]
pub struct Moves {
    pub from: usize,
    pub to: usize,
    pub pairs: u64,
    pub packed: u64,
    pub clears: bool,
    pub whole: bool,
    pub dropped: usize,
    pub drops: u32,
}

// A joined task: its register pairs and whether it is faulted, and the heights of the two stacks.
#[derive(Clone, Copy, Debug, PartialEq, Eq)]
pub struct Sides {
    pub pairs: u64,
    pub packed: u64,
    pub faulted: bool,
    pub ours: u32,
    pub theirs: u32,
}

impl Moves {
    pub fn none() -> Moves
        ensures { result ≡ no_moves }
    {
        Moves {
            from: 0,
            to: 0,
            pairs: 0,
            packed: 0,
            clears: false,
            whole: false,
            dropped: 0,
            drops: 0,
        }
    }

    // The child gets the parent's.
    pub fn of_fork(parent: usize, child: usize) -> Moves
        ensures { result ≡ fork_moves parent child }
    {
        Moves {
            from: parent,
            to: child,
            whole: true,
            ..Moves::none()
        }
    }

    // A fault clears the task's, and drops its stack, which has this height.
    pub fn of_end(k: usize, kind: Kind, height: u32) -> Moves
        ensures { result ≡ end_moves k kind height }
    {
        let faults = matches!(kind, Kind::Faults);
        Moves {
            from: k,
            clears: faults,
            dropped: k,
            drops: if faults { height } else { 0 },
            ..Moves::none()
        }
    }

    // The pairs go to the parent, and the child's registers and stack are cleared; where a side has faulted the parent's are cleared as well.
    // A side that has faulted has an empty stack, so one of the two is left to be dropped at most.
    pub fn of_join(parent: usize, child: usize, s: Sides) -> Moves
        ensures { result ≡ join_moves parent child s.pairs s.packed s.faulted s.ours s.theirs }
    {
        let mut n = Moves {
            from: child,
            to: parent,
            pairs: s.pairs,
            packed: s.packed,
            clears: true,
            whole: s.faulted,
            dropped: child,
            drops: s.theirs,
        };
        if s.faulted && s.theirs == 0 {
            n.dropped = parent;
            n.drops = s.ours;
        }
        n
    }
}

pub fn zero_register() -> Register
    ensures { result ≡ zero_register }
{
    Register {
        value: Value::Int(0),
    }
}

// The value taken apart and put together: copied whole, its padding bytes would be carried through every pick.
pub fn holding(v: Value) -> Register
    ensures { result.value ≡ v }
{
    match v {
        Value::Int(n) => Register {
            value: Value::Int(n),
        },
        Value::Label(b) => Register {
            value: Value::Label(b),
        },
        Value::Record(continuation, depth) => Register {
            value: Value::Record(continuation, depth),
        },
    }
}
