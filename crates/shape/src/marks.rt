// The largest mark of each slot, in one pass over the registers or the stacks of all slots.
ghost use Rattle.std.specs.Prelude.{◌≡◌, ℕ, ◌*◌, ◌/◌, ◌%◌, ◌<◌, length, get_or};
ghost use Rattle.task.specs.Frames.{zero_register};
ghost use Rattle.shape.specs.Codes.{LargestSlots};

use task::{Register, Value};

// `mark` is told a value and its place among the WIDTH values of its slot. This crate alone calls it, with the values of 64 slots.
pub fn largest<const WIDTH: usize, F: Fn(Value, usize) -> u8>(all: &[Register], mark: F) -> [u8; 64]
    requires width { 0 < WIDTH }
    requires full { length all.now ≡ 64 * WIDTH }
    requires callable { (v : Value) (i : ℕ) → i < WIDTH → F.pre mark v i }
    ensures { (of : ℕ → ℕ)
        → ((j r : ℕ) → j < length all.now → F.post mark (get_or all.now j zero_register).value (j % WIDTH) r → r ≡ of j)
        → LargestSlots (λ j. j / WIDTH) of (length all.now) result }
{
    let mut marks = [0u8; 64];
    for (j, register) in all.iter().enumerate() {
        let at = mark(register.value, j % WIDTH);
        // Most values are the integer 0 and leave their slot's mark as it is.
        if at == 0 {
            continue;
        }
        let k = j / WIDTH;
        marks[k] = marks[k].max(at);
    }
    marks
}
