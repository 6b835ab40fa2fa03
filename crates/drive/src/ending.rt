// Whether the job has ended, and how.
ghost use Rattle.std.specs.Prelude.{◌≡◌};
ghost use Rattle.drive.specs.Ending.{end_at, ending, is_end};

use crate::{End, State};
use task::Status;

fn fault_end(depth: u32, n: u8) -> End
    ensures { result ≡ end_at depth (Status.Faulted n) }
{
    if depth == 0 {
        return End::Fault(n);
    }
    End::NotEnded
}

// How a job has ended whose first slot has a task of this depth and status.
pub fn end_at(depth: u32, status: Status) -> End
    ensures { result ≡ end_at depth status }
{
    match status {
        Status::Vacant | Status::Running | Status::Waiting => End::NotEnded,
        Status::Halted => End::Halt,
        Status::Faulted(n) => fault_end(depth, n),
    }
}

// How the job has ended, read off slot 0.
pub fn end_of(m: &State) -> End
    ensures { result ≡ ending m.now }
{
    let t = m.tasks[0];
    end_at(t.depth, t.status)
}

pub fn has_ended(end: End) -> bool
    ensures { result ≡ is_end end }
{
    !matches!(end, End::NotEnded)
}
