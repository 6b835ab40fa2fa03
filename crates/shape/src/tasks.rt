// The tests of one task record: its forks, its status, its counts.
ghost use Rattle.std.specs.Prelude.{◌≡◌, ◌&&◌, List, ℕ, ltb, leb, length, get_or};
ghost use Rattle.std.specs.List.{list_all};
ghost use Rattle.image.specs.Layout.{program_of};
ghost use Rattle.task.specs.Frames.{zero_fork, no_task};
ghost use Rattle.task.specs.Formed.{every, within, registers_zero, fork_fits, at_rest, is_vacant_status, fault_listed, status_fits};
ghost use Rattle.shape.specs.Codes.{Stored, framed};

use crate::registers;
use task::{Fork, Register, Status, Task};

// ---- Forks

// An open fork names a join target; an entry that is not in use is 0.
fn fork_fits(cells: &[u64], is_open: bool, fork: Fork) -> bool
    requires { Stored cells.now }
    ensures { result ≡ fork_fits (program_of cells.now) is_open fork }
{
    if is_open {
        return registers::is_target(cells, fork.continuation);
    }
    let closed = Fork {
        continuation: 0,
        depth: 0,
    };
    fork == closed
}

// The entries of a task at this depth: each of its open forks, and 0 past them. This crate alone calls it; `Stored`: as in registers.rt.
pub fn forks_fit(cells: &[u64], depth: u32, forks: [Fork; 6]) -> bool
    requires { Stored cells.now }
    ensures { (result ≡ every (λ i. fork_fits (program_of cells.now) (ltb i depth) (get_or forks i zero_fork)) 6 0) × (length forks ≡ 6) }
{
    let used = depth as usize;
    for (i, fork) in forks.iter().enumerate() {
        if !fork_fits(cells, i < used, *fork) {
            return false;
        }
    }
    true
}

// ---- Status

pub fn is_vacant_status(s: Status) -> bool
    ensures { result ≡ is_vacant_status s }
{
    s == Status::Vacant
}

// What is not running has pc and counter 0.
pub fn is_at_rest(t: Task) -> bool
    ensures { result ≡ at_rest t }
{
    t.pc == 0 && t.counter == 0
}

// The fault list of a version: 31 to 38, and of version 2 also 42 and 43.
fn is_listed(version: u64, n: u8) -> bool
    ensures { result ≡ fault_listed version n }
{
    matches!(n, 31..=38) || (version == 2 && matches!(n, 42 | 43))
}

// Faulted with a number of the version's fault list, height 0 and 16 integers 0; blank says whether the registers are that.
fn fault_fits(version: u64, t: Task, n: u8, blank: bool) -> bool
    ensures { (registers stack : List Register) → registers_zero (framed t registers stack) ≡ blank → result ≡ status_fits version (framed t registers stack) (Status.Faulted n) }
{
    is_listed(version, n) && is_at_rest(t) && t.height == 0 && blank
}

// Waiting only below depth 0, Halted only at depth 0.
pub fn status_fits(version: u64, t: Task, blank: bool) -> bool
    ensures { (registers stack : List Register) → registers_zero (framed t registers stack) ≡ blank → result ≡ status_fits version (framed t registers stack) t.status }
{
    match t.status {
        Status::Vacant => false,
        Status::Running => true,
        Status::Waiting => t.depth != 0 && is_at_rest(t),
        Status::Halted => t.depth == 0 && is_at_rest(t),
        Status::Faulted(n) => fault_fits(version, t, n, blank),
    }
}

// ---- Counts

// Whether the counters and spans of these tasks are at most the work.
fn all_within(work: u32, tasks: &[Task]) -> bool
    ensures { result ≡ list_all (λ t. leb t.counter work && leb t.span work) tasks.now }
{
    tasks.iter().all(|t| t.counter <= work && t.span <= work)
}

// Each slot's.
pub fn counts_fit(work: u32, tasks: [Task; 64]) -> bool
    ensures { (registers stack : ℕ → List Register) → result ≡ every (λ i. within work (framed (get_or tasks i no_task) (registers i) (stack i))) 64 0 }
{
    all_within(work, &tasks)
}
