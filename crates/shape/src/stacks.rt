// The stack of each slot, in one pass over the stacks: how far it reaches, and whether all its values fit the program.
ghost use Rattle.std.specs.Prelude.{◌≡◌, ◌<◌};
ghost use Rattle.image.specs.Layout.{program_of};
ghost use Rattle.shape.specs.Codes.{Stored, reach_of, ReachedSlots};

use crate::marks::largest;
use crate::registers;
use task::{Register, Value};

// Of entry i of a stack: 0 the integer 0, i + 1 another value that fits, 33 one that does not. A number and no enum: `Reached`
// (specs/Codes.antt), which may not change, compares it with a height.
fn reach_of(cells: &[u64], v: Value, i: usize) -> u8
    requires { Stored cells.now × (i < 32) }
    ensures { result ≡ reach_of (program_of cells.now) v i }
{
    if registers::is_zero(v) {
        return 0;
    }
    if registers::value_fits(cells, v) {
        return i as u8 + 1;
    }
    33
}

// The furthest reach of each slot's 32 entries. `machine` alone calls it, in the shape test; `Stored`: as in registers.rt.
pub fn reach_slots(cells: &[u64], stacks: [Register; task::STACKS]) -> [u8; 64]
    requires { Stored cells.now }
    ensures { ReachedSlots (program_of cells.now) stacks result }
{
    largest::<32, _>(&stacks, |v, i| reach_of(cells, v, i))
}
