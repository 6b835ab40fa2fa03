// Push and pop, on a stack that lies in two rows, the pile. Each answers the stack's height after it, or nothing, where there is no place or no
// value, and has then changed nothing. Our crates alone call them: the loop in `turning`, and `evaluator` for what the loop leaves, ensure what they
// rest on.
ghost use Rattle.std.specs.Prelude.{◌+◌, ◌<◌, ◌≤◌, get_or};
ghost use Rattle.arms.specs.Stacks.{PushedOn, PoppedTo, CanStack, StackTurned};

use crate::{Pile, Registers};

// The value goes on the stack.
pub fn push_on(pile: &mut Pile, low: u64, height: u64, num: u64, kind: u8) -> Option<u64>
    requires { low ≤ 192 }
    ensures { PushedOn low height num kind pile.old.nums pile.old.kinds result pile.new.nums pile.new.kinds }
{
    if 32 <= height {
        return None;
    }
    let at = (low + height) as usize;
    pile.nums[at] = num;
    pile.kinds[at] = kind;
    Some(height + 1)
}

// The value pushed last goes to r; its place on the pile is not in use any more.
pub fn pop_to(
    registers: &mut Registers,
    r: usize,
    pile: &Pile,
    low: u64,
    height: u64,
) -> Option<u64>
    requires { (low ≤ 192) × (height ≤ 32) × (r < 16) }
    ensures { PoppedTo r low height registers.old.nums registers.old.kinds pile.now.nums pile.now.kinds result
        registers.new.nums registers.new.kinds }
{
    if height == 0 {
        return None;
    }
    let at = (low + (height - 1)) as usize;
    registers.put(r, pile.nums[at], pile.kinds[at]);
    Some(height - 1)
}

// The instruction at pc of the decoded code, where it is one of the two: pop has the arm 17, push the arm 16 + 32 k for an operand of kind k.
pub fn stack_turn(
    code: &[u64],
    registers: &mut Registers,
    pile: &mut Pile,
    low: u64,
    height: u64,
    pc: usize,
) -> Option<u64>
    requires { CanStack code.now registers.old.nums registers.old.kinds pile.old.nums pile.old.kinds low height pc }
    ensures { StackTurned (get_or code.now pc 0) (get_or code.now (pc + 1) 0) (get_or code.now (pc + 3) 0) low height registers.old.nums
        registers.old.kinds pile.old.nums pile.old.kinds result registers.new.nums registers.new.kinds pile.new.nums pile.new.kinds }
{
    let arm = code[pc];
    match arm {
        17 => pop_to(registers, code[pc + 1] as usize, pile, low, height),
        48 => {
            let v = code[pc + 3] as usize;
            push_on(pile, low, height, registers.nums[v], registers.kinds[v])
        }
        80 => push_on(pile, low, height, code[pc + 3], 1),
        112 => push_on(pile, low, height, code[pc + 3], 0),
        _ => None,
    }
}
