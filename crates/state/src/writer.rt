// The state's bytes, written.
ghost use Rattle.std.specs.Prelude.{◌≡◌, [], ◌∷◌, ◌+◌, ◌≤◌, length, get_or};
ghost use Rattle.std.proofs.lemmas.List.Edits.{sets};
ghost use Rattle.image.specs.Layout.{rows};
ghost use Rattle.task.specs.Frames.{zero_fork};
ghost use Rattle.state.specs.Numbers.{in_bytes};
ghost use Rattle.state.specs.State.{status_number, fault_number, fork_numbers, task_numbers, slot_numbers, state_length, state_bytes};

use crate::numbers::{write_numbers, write_registers};
use crate::places::slot_place;
use crate::{HEIGHT_AT, REGISTERS_AT, STACK_AT};
use drive::State;
use task::{Fork, Status, Task};

// A status's number and its fault's. No `From`: neither type is this crate's, and a type around it would be no plainer.
fn status_numbers(s: Status) -> [u64; 2]
    ensures { result ≡ status_number s ∷ fault_number s ∷ [] }
{
    match s {
        Status::Vacant => [0, 0],
        Status::Running => [1, 0],
        Status::Waiting => [2, 0],
        Status::Halted => [3, 0],
        Status::Faulted(n) => [4, n as u64],
    }
}

fn write_forks(out: &mut [u8], at: usize, forks: &[Fork; 6])
    requires { at + 96 ≤ length out.old }
    ensures { out.new ≡ sets out.old at (rows (λ i. in_bytes (fork_numbers (get_or forks.now i zero_fork))) 6) }
{
    for (i, f) in forks.iter().enumerate() {
        write_numbers(out, at + 16 * i, [f.continuation as u64, f.depth as u64]);
    }
}

// A task record; its stack's height stands beside the stack.
fn write_task(out: &mut [u8], at: usize, t: &Task)
    requires { at + 152 ≤ length out.old }
    ensures { out.new ≡ sets out.old at (in_bytes (task_numbers t.now)) }
{
    let [status, fault] = status_numbers(t.status);
    write_numbers(out, at, [status, fault, t.places]);
    write_numbers(out, at + 24, [t.pc as u64, t.counter as u64]);
    write_numbers(out, at + 40, [t.span as u64, t.depth as u64]);
    write_forks(out, at + 56, &t.forks);
}

fn write_slots(m: &State, out: &mut [u8])
    requires { length out.old ≡ state_length }
    ensures { out.new ≡ sets out.old 24 (rows (λ k. in_bytes (slot_numbers m.now k)) 64) }
{
    for k in 0..64 {
        let at = slot_place(k);
        write_task(out, at, &m.tasks[k]);
        write_registers(out, at + REGISTERS_AT, &m.bank[16 * k..16 * k + 16]);
        int64::write_u64(out, at + HEIGHT_AT, m.tasks[k].height as u64);
        write_registers(out, at + STACK_AT, &m.stacks[32 * k..32 * k + 32]);
    }
}

// The whole state. `job` and `steps` call it with a buffer of its length, after question 15.
pub fn write_state(m: &State, out: &mut [u8])
    requires { length out.old ≡ state_length }
    ensures { out.new ≡ state_bytes m.now }
{
    write_numbers(out, 0, [m.places, m.interval as u64, m.work as u64]);
    write_slots(m, out);
}
