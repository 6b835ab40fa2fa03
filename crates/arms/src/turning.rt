// The loop of a task by itself: one turn is one instruction that neither forks nor ends the task. Push and pop, which `turn` leaves, have theirs
// after it; one for which there is no place or no value ends the loop.
ghost use Rattle.arms.specs.Registers.{Sized, registers_of};
ghost use Rattle.arms.specs.Turns.{At, Turned, Starts, RunsUntil};

use crate::jumps::{branch_plain, branch_register, branch_to, enter, jump_register};
use crate::setting::set_register;
use crate::stacking::stack_turn;
use crate::{Code, Going, Gone, Pile, Registers, Stopped, Way};

// One instruction; `left` is what is left of the budget after it. The arms here are those of if-jump and jump, 10 + 32 k and 13 + 32 k, of which a
// number is no target, and 128 more where the block is not promotion-ready. The loop below ensures `At`.
fn turn(code: &Code, registers: &mut Registers, task: Going) -> Gone
    requires { At code.now.program.cells.now registers.old.nums registers.old.kinds task.depth task.left task.beat task.pc }
    ensures sized { Sized registers.new.nums registers.new.kinds }
    ensures turned { Turned code.now.program.cells.now code.now.words.now code.now.interval task.places task.depth task.pc task.beat task.left
        (registers_of registers.old.nums registers.old.kinds) result (registers_of registers.new.nums registers.new.kinds) }
{
    let pc = task.pc;
    let beat = task.beat;
    let arm = code.code[pc];
    let s = code.code[pc + 2] as usize;
    let v = code.code[pc + 3];
    match arm {
        42 => branch_register(code, registers, task, s, v as usize),
        45 => jump_register(code, registers, task, v as usize),
        74 => branch_to(code, registers, task, s, 1, v),
        77 => enter(code, task, v as usize),
        106 => branch_to(code, registers, task, s, 0, v),
        109 => Gone {
            way: Way::Fault(34),
            pc,
            beat,
        },
        202 => branch_plain(registers, beat, s, pc, v as usize),
        205 => Gone {
            way: Way::On,
            pc: v as usize,
            beat,
        },
        _ => Gone {
            way: set_register(code, registers, task.depth, pc, arm, s, v),
            pc: pc + 4,
            beat,
        },
    }
}

// Instructions until one that the task does not carry out by itself, which is not carried out, or the budget is used up. `run_hand` alone calls it,
// with a well-formed task.
pub fn run_on(code: &Code, registers: &mut Registers, pile: &mut Pile, task: Going) -> Stopped
    requires { Starts code.now.program.cells.now registers.old.nums registers.old.kinds pile.old.nums pile.old.kinds task.places task.depth
        task.left task.beat task.pc task.low task.height }
    ensures sized { Sized registers.new.nums registers.new.kinds }
    ensures runs_until { RunsUntil code.now.program.cells.now code.now.words.now code.now.interval task.places task.depth task.pc task.beat task.left task.low
        task.height pile.old.nums pile.old.kinds (registers_of registers.old.nums registers.old.kinds) result pile.new.nums pile.new.kinds
        (registers_of registers.new.nums registers.new.kinds) }
{
    // a copy, so that what the loop reads of it is at hand
    let own = *code;
    let mut left = task.left;
    let mut pc = task.pc;
    let mut beat = task.beat;
    let mut height = task.height;
    // No `for`: what is left is handed back, with the place where the loop stops.
    while 0 < left {
        let rest = left - 1;
        let next = Going {
            left: rest,
            beat,
            pc,
            ..task
        };
        let g = turn(&own, registers, next);
        match g.way {
            Way::On => {
                pc = g.pc;
                beat = g.beat;
                left = rest;
                continue;
            }
            Way::Off => {}
            Way::Fault(n) => {
                return Stopped {
                    way: Way::Fault(n),
                    pc,
                    beat,
                    left,
                    height,
                };
            }
        }
        let Some(h) = stack_turn(own.code, registers, pile, task.low, height, pc) else {
            return Stopped {
                way: Way::Off,
                pc,
                beat,
                left,
                height,
            };
        };
        height = h;
        pc = pc + 4;
        left = rest;
    }
    Stopped {
        way: Way::On,
        pc,
        beat,
        left,
        height,
    }
}
