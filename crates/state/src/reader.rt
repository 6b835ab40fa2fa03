// The state's bytes read again: whether they stand for a state, and then the state. Each number is compared whole with its field's room. `steps`
// asks the first before other questions, and reads the state when all are answered: an Option of a state would be read for the first, and copied.
ghost use Rattle.std.specs.Prelude.{◌≡◌, true, ◌+◌, ◌*◌, ◌≤◌, length, replicate, ltb, Some, None, cond};
ghost use Rattle.task.specs.Formed.{every};
ghost use Rattle.task.specs.Frames.{zero_register};
ghost use Rattle.state.specs.State.{state_length};
ghost use Rattle.state.specs.Places.{slot_bytes, slot_place};
ghost use Rattle.state.specs.Reading.{table, number_at, is_value, value_of, stands_value, register_in, stands_values, is_status, status_of};
ghost use Rattle.state.specs.Reading.{stands_fork, fork_in, stands_task, task_in, stands_slot, stands_state, state_in};

use crate::clear::is_clear;
use crate::places::slot_place;
use crate::{HEIGHT_AT, REGISTERS_AT, STACK_AT};
use drive::State;
use task::{Fork, Register, Status, Task, Value};

// What a number of 16 bits is below, and one of 32.
const ROOM_16: u64 = 0x1_0000;

const ROOM_32: u64 = 0x1_0000_0000;

// ---- Whether the bytes stand for a state

// Whether the number there has room in its field.
fn stands_below(bytes: &[u8], at: usize, room: u64) -> bool
    requires { at + 8 ≤ length bytes.now }
    ensures { result ≡ ltb (number_at bytes.now at) room }
{
    int64::read_u64(bytes, at) < room
}

// The value that the three numbers are, if they are one. No `TryFrom`, here and for a status: neither type is this
// crate's, and a type around it would be no plainer.
#[inline(always)]
#[tactic(auto, unfolding(crate::specs::Reading::is_value, crate::specs::Reading::value_of))]
fn value_of(kind: u64, a: u64, b: u64) -> Option<Value>
    ensures { result ≡ cond (is_value kind a b) (Some (value_of kind a b)) None }
{
    match kind {
        0 if b == 0 => Some(Value::Int(int64::number(a))),
        1 if a < ROOM_32 && b == 0 => Some(Value::Label(a as u32)),
        2 if a < ROOM_32 && b < ROOM_32 => Some(Value::Record(a as u32, b as u32)),
        _ => None,
    }
}

#[inline(always)]
fn value_in(bytes: &[u8], at: usize) -> Option<Value>
    requires { at + 24 ≤ length bytes.now }
    ensures { result ≡ cond (stands_value bytes.now at) (Some (register_in bytes.now at).value) None }
{
    let kind = int64::read_u64(bytes, at);
    let a = int64::read_u64(bytes, at + 8);
    let b = int64::read_u64(bytes, at + 16);
    value_of(kind, a, b)
}

// Whether n values stand there, one after the other. Most are 0, and then no look at each is needed. Inlined, so that n is a constant.
#[inline(always)]
fn stands_values(bytes: &[u8], at: usize, n: usize) -> bool
    requires { at + 24 * n ≤ length bytes.now }
    ensures { result ≡ stands_values bytes.now at n }
{
    if is_clear(bytes, at, 24 * n) {
        return true;
    }
    for i in 0..n {
        if value_in(bytes, at + 24 * i).is_none() {
            return false;
        }
    }
    true
}

// The status that the two numbers are, if they are one.
#[inline(always)]
#[tactic(auto, unfolding(crate::specs::Reading::is_status, crate::specs::Reading::status_of))]
fn status_of(status: u64, fault: u64) -> Option<Status>
    ensures { result ≡ cond (is_status status fault) (Some (status_of status fault)) None }
{
    match status {
        0 if fault == 0 => Some(Status::Vacant),
        1 if fault == 0 => Some(Status::Running),
        2 if fault == 0 => Some(Status::Waiting),
        3 if fault == 0 => Some(Status::Halted),
        4 if fault < 0x100 => Some(Status::Faulted(fault as u8)),
        _ => None,
    }
}

#[inline(always)]
fn status_in(bytes: &[u8], at: usize) -> Option<Status>
    requires { at + 16 ≤ length bytes.now }
    ensures { result ≡ cond (is_status (number_at bytes.now at) (number_at bytes.now (at + 8))) (Some (status_of (number_at bytes.now at) (number_at bytes.now (at + 8)))) None }
{
    let status = int64::read_u64(bytes, at);
    let fault = int64::read_u64(bytes, at + 8);
    status_of(status, fault)
}

fn stands_fork(bytes: &[u8], at: usize) -> bool
    requires { at + 16 ≤ length bytes.now }
    ensures { result ≡ stands_fork bytes.now at }
{
    stands_below(bytes, at, ROOM_32) && stands_below(bytes, at + 8, ROOM_32)
}

fn stands_forks(bytes: &[u8], at: usize) -> bool
    requires { at + 96 ≤ length bytes.now }
    ensures { result ≡ every (λ i. stands_fork bytes.now (at + 16 * i)) 6 0 }
{
    for i in 0..6 {
        if !stands_fork(bytes, at + 16 * i) {
            return false;
        }
    }
    true
}

// The task record of the slot there.
#[tactic(auto, unfolding(crate::specs::Reading::stands_task))]
fn stands_task(bytes: &[u8], at: usize) -> bool
    requires { at + slot_bytes ≤ length bytes.now }
    ensures { result ≡ stands_task bytes.now at }
{
    status_in(bytes, at).is_some()
        && stands_below(bytes, at + 24, ROOM_16)
        && stands_below(bytes, at + 32, ROOM_32)
        && stands_below(bytes, at + 40, ROOM_32)
        && stands_below(bytes, at + 48, ROOM_32)
        && stands_below(bytes, at + HEIGHT_AT, ROOM_32)
        && stands_forks(bytes, at + 56)
}

#[tactic(auto, unfolding(crate::specs::Reading::stands_slot))]
fn stands_slot(bytes: &[u8], at: usize) -> bool
    requires { at + slot_bytes ≤ length bytes.now }
    ensures { result ≡ stands_slot bytes.now at }
{
    stands_task(bytes, at)
        && stands_values(bytes, at + REGISTERS_AT, 16)
        && stands_values(bytes, at + STACK_AT, task::STACK)
}

fn stands_slots(bytes: &[u8]) -> bool
    requires { length bytes.now ≡ state_length }
    ensures { result ≡ every (λ k. stands_slot bytes.now (slot_place k)) 64 0 }
{
    for k in 0..64 {
        if !stands_slot(bytes, slot_place(k)) {
            return false;
        }
    }
    true
}

#[tactic(auto, unfolding(crate::specs::Reading::stands_state))]
pub fn stands_state(bytes: &[u8]) -> bool
    ensures { result ≡ stands_state bytes.now }
{
    bytes.len() == crate::STATE_BYTES
        && stands_below(bytes, 8, ROOM_16)
        && stands_below(bytes, 16, ROOM_32)
        && stands_slots(bytes)
}

// ---- The state that they stand for. `read_state` ensures what the others ask: the bytes stand for a state

fn read_register(bytes: &[u8], at: usize) -> Register
    requires { (at + 24 ≤ length bytes.now) × (stands_value bytes.now at ≡ true) }
    ensures { result ≡ register_in bytes.now at }
{
    Register {
        value: value_in(bytes, at).unwrap(),
    }
}

fn read_fork(bytes: &[u8], at: usize) -> Fork
    requires { (at + 16 ≤ length bytes.now) × (stands_fork bytes.now at ≡ true) }
    ensures { result ≡ fork_in bytes.now at }
{
    Fork {
        continuation: int64::read_u64(bytes, at) as u32,
        depth: int64::read_u64(bytes, at + 8) as u32,
    }
}

fn read_forks(bytes: &[u8], at: usize) -> [Fork; 6]
    requires { (at + 96 ≤ length bytes.now) × (every (λ i. stands_fork bytes.now (at + 16 * i)) 6 0 ≡ true) }
    ensures { result ≡ table (λ i. fork_in bytes.now (at + 16 * i)) 6 }
{
    let mut forks = [Fork {
        continuation: 0,
        depth: 0,
    }; 6];
    for (i, f) in forks.iter_mut().enumerate() {
        *f = read_fork(bytes, at + 16 * i);
    }
    forks
}

fn read_task(bytes: &[u8], at: usize) -> Task
    requires { (at + slot_bytes ≤ length bytes.now) × (stands_task bytes.now at ≡ true) }
    ensures { result ≡ task_in bytes.now at }
{
    Task {
        status: status_in(bytes, at).unwrap(),
        places: int64::read_u64(bytes, at + 16),
        pc: int64::read_u64(bytes, at + 24) as u16,
        counter: int64::read_u64(bytes, at + 32) as u32,
        span: int64::read_u64(bytes, at + 40) as u32,
        depth: int64::read_u64(bytes, at + 48) as u32,
        height: int64::read_u64(bytes, at + HEIGHT_AT) as u32,
        forks: read_forks(bytes, at + 56),
    }
}

// A slot's values, into registers that are all 0. Most values are 0 too, and then the registers stay as they are.
#[inline(always)]
fn read_values(bytes: &[u8], at: usize, values: &mut [Register])
    requires inside { at + 24 * length values.old ≤ length bytes.now }
    requires stand { stands_values bytes.now at (length values.old) ≡ true }
    requires zero { values.old ≡ replicate (length values.old) zero_register }
    ensures { values.new ≡ table (λ i. register_in bytes.now (at + 24 * i)) (length values.old) }
{
    if is_clear(bytes, at, 24 * values.len()) {
        return;
    }
    for (i, v) in values.iter_mut().enumerate() {
        *v = read_register(bytes, at + 24 * i);
    }
}

// `steps` calls it, after `stands_state` has answered with yes.
pub fn read_state(bytes: &[u8]) -> State
    requires { stands_state bytes.now ≡ true }
    ensures { result ≡ state_in bytes.now }
{
    let zero = Register {
        value: Value::Int(0),
    };
    let mut m = State {
        places: int64::read_u64(bytes, 0),
        interval: int64::read_u64(bytes, 8) as u16,
        work: int64::read_u64(bytes, 16) as u32,
        bank: [zero; task::BANK],
        stacks: [zero; task::STACKS],
        tasks: [drive::slots::vacant_task(); 64],
    };
    for k in 0..64 {
        let at = slot_place(k);
        read_values(bytes, at + REGISTERS_AT, &mut m.bank[16 * k..16 * k + 16]);
        read_values(bytes, at + STACK_AT, &mut m.stacks[32 * k..32 * k + 32]);
        m.tasks[k] = read_task(bytes, at);
    }
    m
}
