// The registers of each slot, in one pass over the bank: whether all are 0, and whether all fit the program.
ghost use Rattle.std.specs.Prelude.{◌≡◌};
ghost use Rattle.image.specs.Layout.{program_of};
ghost use Rattle.task.specs.Formed.{is_target, value_fits, is_zero};
ghost use Rattle.shape.specs.Codes.{Stored, grade_of, GradedSlots};

use crate::marks::largest;
use image::layout;
use task::{Register, Value};

// Whether block b is a join target. The annotation of a block below B is in the buffer: `machine` alone calls this crate, in the shape
// test, and has put the program's questions and the one on the buffer's length, which ensure `Stored`.
#[tactic(auto, unfolding(task::specs::Formed::is_target))]
pub fn is_target(cells: &[u64], b: u32) -> bool
    requires { Stored cells.now }
    ensures { result ≡ is_target (program_of cells.now) b }
{
    u64::from(b) < layout::block_count(cells) && layout::annotation_of(cells, b as usize) == 2
}

// Every label below B, every record's continuation a join target. This crate alone calls it; `Stored`: as above.
pub fn value_fits(cells: &[u64], v: Value) -> bool
    requires { Stored cells.now }
    ensures { result ≡ value_fits (program_of cells.now) v }
{
    match v {
        Value::Int(_) => true,
        Value::Label(b) => u64::from(b) < layout::block_count(cells),
        Value::Record(b, _) => is_target(cells, b),
    }
}

pub fn is_zero(v: Value) -> bool
    ensures { result ≡ is_zero v }
{
    v == Value::Int(0)
}

// 0 the integer 0, 1 another value that fits, 2 one that does not. A number and no enum: `Graded` (specs/Codes.antt), which may not change,
// compares it.
fn grade_of(cells: &[u64], v: Value) -> u8
    requires { Stored cells.now }
    ensures { result ≡ grade_of (program_of cells.now) v }
{
    if is_zero(v) {
        return 0;
    }
    if value_fits(cells, v) {
        return 1;
    }
    2
}

// The worst grade of each slot's 16 registers. `machine` alone calls it, in the shape test; `Stored`: as above.
pub fn grade_slots(cells: &[u64], bank: [Register; task::BANK]) -> [u8; 64]
    requires { Stored cells.now }
    ensures { GradedSlots (program_of cells.now) bank result }
{
    largest::<16, _>(&bank, |v, _| grade_of(cells, v))
}
