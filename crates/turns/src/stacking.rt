// A push or a pop, on a task's record and its stack's height. The value itself the loop moves in place.
ghost use Rattle.std.specs.Prelude.{◌≡◌, ◌<◌, ◌≤◌, IfOk, IfErr};
ghost use Rattle.task.specs.Frames.{stack_length, work_limit};
ghost use Rattle.turns.specs.Kinds.{stacks_it, pops_it, stack_no, entry_of, restacked_by};

use task::{Kind, Task};

pub fn does_stack(kind: Kind) -> bool
    ensures { result ≡ stacks_it kind }
{
    matches!(kind, Kind::Pushes | Kind::Pops)
}

pub fn does_pop(kind: Kind) -> bool
    ensures { result ≡ pops_it kind }
{
    matches!(kind, Kind::Pops)
}

// The stack's question, of any height: the fault where it is answered with no, 42 for a push on a full stack, 43 for a pop from an empty one.
pub fn ask_stack(pops: bool, height: u32) -> Result<(), u8>
    ensures answered { IfOk result (λ z. stack_no pops height ≡ 0) }
    ensures fault { IfErr result (λ no. (stack_no pops height ≡ no) × (0 < no)) }
{
    if pops {
        if height == 0 {
            return Err(43);
        }
        return Ok(());
    }
    if height < 32 {
        return Ok(());
    }
    Err(42)
}

// The entry that a push fills or a pop empties, or the fault. Drive alone calls it, with the height of a stack of the state.
pub fn entry_of(pops: bool, height: u32) -> Result<usize, u8>
    requires { height ≤ stack_length }
    ensures entry { IfOk result (λ e. (stack_no pops height ≡ 0) × (e ≡ entry_of pops height) × (e < stack_length)) }
    ensures fault { IfErr result (λ no. (stack_no pops height ≡ no) × (0 < no)) }
{
    ask_stack(pops, height)?;
    if pops {
        return Ok((height - 1) as usize);
    }
    Ok(height as usize)
}

// The record of the task that goes on. Drive alone calls it, where the stack has that entry and the work is below its limit.
pub fn restacked(t: Task, pops: bool, pc: u16, counter: u32) -> Task
    requires { (stack_no pops t.height ≡ 0) × (t.height ≤ stack_length) × (t.span < work_limit) }
    ensures { result ≡ restacked_by pops t pc counter }
{
    let mut n = t;
    n.pc = pc;
    n.counter = counter;
    n.span = t.span + 1;
    if pops {
        n.height = t.height - 1;
        return n;
    }
    n.height = t.height + 1;
    n
}
