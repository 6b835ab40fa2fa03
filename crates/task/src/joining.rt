// The task that two ended sides of a fork make.
ghost use Rattle.std.specs.Prelude.{◌≡◌, ◌+◌, ◌≤◌};
ghost use Rattle.image.specs.Layout.{program_of};
ghost use Rattle.task.specs.Frames.{fault_of};
ghost use Rattle.task.specs.Step.{first_fault, outward_task};
ghost use Rattle.task.specs.Execute.{Joinable, status_by, joint_of};

use crate::control::first_of;
use crate::{Fork, Joint, Status, Task};
use image::program::Program;

// The parent's fault if it has one, else the child's; without a fault the joined task runs.
pub fn joined_status(parent: Status, child: Status) -> Status
    ensures { result ≡ status_by (first_fault (fault_of parent) (fault_of child)) }
{
    match (parent, child) {
        (Status::Faulted(n), _) | (_, Status::Faulted(n)) => Status::Faulted(n),
        _ => Status::Running,
    }
}

// All their places, the larger span, counter 0, that fork closed.
fn close(status: Status, pc: u16, height: u32, p: Task, c: Task) -> Task
    requires { (1 ≤ p.depth) × (p.depth ≤ 6) × (p.places + c.places ≤ 64) }
    ensures { result ≡ outward_task status pc height p c }
{
    let depth = p.depth - 1;
    let at = depth as usize;
    let mut forks = p.forks;
    forks[at] = Fork {
        continuation: 0,
        depth: 0,
    };
    let span = p.span.max(c.span);
    Task {
        status,
        height,
        places: p.places + c.places,
        pc,
        counter: 0,
        span,
        depth,
        forks,
    }
}

// What two ended sides come to, but for registers and stack: those the machine changes in place. It ensures `Joinable`.
pub fn joined(cells: &[u64], p: Task, c: Task) -> Joint
    requires { Joinable cells.now p c }
    ensures { result ≡ joint_of (program_of cells.now) p c }
{
    let program = Program { cells };
    let ours = p.status;
    let theirs = c.status;
    let status = joined_status(ours, theirs);
    if let Status::Faulted(n) = status {
        let task = close(Status::Faulted(n), 0, 0, p, c);
        return Joint {
            task,
            faulted: true,
            pairs: 0,
            packed: 0,
        };
    }
    let at = (p.depth - 1) as usize;
    let forks = p.forks;
    let under = forks[at];
    let block = program.block(under.continuation as usize);
    let pc = first_of(&program, block.label as usize);
    let task = close(Status::Running, pc, p.height, p, c);
    Joint {
        task,
        faulted: false,
        pairs: block.pairs,
        packed: block.packed,
    }
}
