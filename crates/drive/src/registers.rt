// The moves that a turn of the loop has planned, made in the state where it stands. Its slots are the state's, as the loop ensures.
ghost use Rattle.std.specs.Prelude.{◌≡◌, ◌⊎◌, ◌<◌, ◌≤◌};
ghost use Rattle.task.specs.Frames.{zeros, stack_length};
ghost use Rattle.drive.specs.Slots.{at};
ghost use Rattle.drive.specs.Moves.{PlanFits, filling, dropping, paired_at, moved};

use crate::State;
use turns::moves::{Moves, zero_register};

fn copy_pairs(state: &mut State, plan: &Moves)
    requires { PlanFits plan.now }
    ensures { state.new ≡ paired_at plan.now state.old }
{
    let mut packed = plan.packed;
    for _ in 0..plan.pairs {
        let source = (packed / 16 % 16) as usize;
        let target = (packed % 16) as usize;
        let moved = state.bank[16 * plan.from + source];
        state.bank[16 * plan.to + target] = moved;
        packed /= 256;
    }
}

fn clear_registers(state: &mut State, k: usize)
    requires { k < 64 }
    ensures { state.new ≡ filling state.old k zeros 16 }
{
    for i in 0..16 {
        state.bank[16 * k + i] = zero_register();
    }
}

// The last value first.
fn drop_values(state: &mut State, k: usize, n: usize)
    requires { (k < 64) × (n ≤ stack_length) }
    ensures { state.new ≡ dropping state.old k n 0 }
{
    for left in (0..n).rev() {
        state.stacks[32 * k + left] = zero_register();
    }
}

fn copy_registers(state: &mut State, from: usize, to: usize)
    requires { (from < 64) × (to < 64) × ((to < from) ⊎ (from < to)) }
    ensures { state.new ≡ filling state.old to (at state.old from).registers 16 }
{
    for i in 0..16 {
        let copied = state.bank[16 * from + i];
        state.bank[16 * to + i] = copied;
    }
}

// Drive alone calls it.
pub fn make_moves(state: &mut State, plan: &Moves)
    requires { PlanFits plan.now }
    ensures { state.new ≡ moved plan.now state.old }
{
    copy_pairs(state, plan);
    if plan.clears {
        clear_registers(state, plan.from);
        drop_values(state, plan.dropped, plan.drops as usize);
    }
    if plan.whole {
        copy_registers(state, plan.from, plan.to);
    }
}
