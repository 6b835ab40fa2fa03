// The task in hand has ended its side of a fork: the other side's turn, or the join of both.
ghost use Rattle.std.specs.Prelude.{◌≡◌, List, ℕ, ◌-◌, ◌<◌, ◌≤◌, ℤ};
ghost use Rattle.task.specs.declared.Status.TheVariants.{Running};
ghost use Rattle.evaluator.specs.Banks.{Exchanged};
ghost use Rattle.evaluator.specs.Hands.{kept_of, Keeps, Point, LeadsTo, side_of, other_of, joined_of};

use crate::{Hand, Kept, Rows};
use image::program::Program;
use task::Status;
use task::joining::joined_status;

impl Hand {
    // The side that is kept at the innermost fork, the child's, is taken in hand, and the parent's kept: the child's stack lies above the parent's.
    // `advance` alone calls it, and ensures by `Point` what it requires.
    pub fn take_child(self, rows: &mut Rows) -> Hand
        requires { (0 < self.depth) × (self.depth ≤ 6) × (self.left ≤ self.spun) × (self.left ≤ 4294967295) ×
            ((kept_of rows.old.sides (self.depth - 1)).span ≤ 4294967295) × (self.low ≤ 192) }
        ensures value { result ≡ other_of self (kept_of rows.old.sides (self.depth - 1)) }
        ensures exchanged { Exchanged rows.old.registers rows.old.banks rows.new.registers rows.new.banks (self.depth - 1) }
        ensures keeps { Keeps rows.old.sides (self.depth - 1) (side_of self) rows.new.sides }
        ensures same_records { rows.new.records ≡ rows.old.records }
        ensures same_pile { rows.new.pile ≡ rows.old.pile }
    {
        let at = (self.depth - 1) as usize;
        let k = rows.sides[at];
        rows.exchange(at);
        rows.sides[at] = Kept {
            status: self.status,
            places: self.places,
            pc: self.pc,
            span: self.spun - self.left,
            height: self.height,
        };
        Hand {
            status: k.status,
            places: k.places,
            depth: self.depth,
            pc: k.pc,
            beat: self.left,
            left: self.left,
            spun: self.left + k.span,
            low: self.low + 32,
            height: k.height,
        }
    }

    // With the parent's stretch of the pile, of which this height is in use. `join_parent` alone calls it, and ensures by `Point` what it requires.
    fn joined(self, k: Kept, status: Status, pc: usize, height: u64) -> Hand
        requires { (0 < self.depth) × (self.left ≤ self.spun) × (self.left ≤ 4294967295) × (self.spun ≤ 4294967295) × (k.span ≤ 4294967295) ×
            (k.places ≤ 64) × (self.places ≤ 64) × (32 ≤ self.low) }
        ensures { result ≡ joined_of self k status pc height }
    {
        Hand {
            status,
            places: k.places + self.places,
            depth: self.depth - 1,
            pc,
            beat: self.left,
            left: self.left,
            spun: self.left + k.span.max(self.spun - self.left),
            low: self.low - 32,
            height,
        }
    }

    // Both sides have ended, the parent's is the kept one: their join is taken in hand, with the parent's stack. `advance` alone calls it.
    pub fn join_parent(self, program: &Program, rows: &mut Rows) -> Hand
        requires { Point program.now.cells.now self rows.old × (self.status ≡ Running → ⊥) × (0 < self.depth) × ((kept_of rows.old.sides (self.depth - 1)).status ≡ Running → ⊥) }
        ensures depth_lt_depth { (result.depth < self.depth) × (result.left ≡ self.left) }
        ensures leads_to { (words : List ℤ) (interval : ℕ) → LeadsTo program.now.cells.now words interval self rows.old result rows.new }
        ensures same_records { rows.new.records ≡ rows.old.records }
        ensures same_sides { rows.new.sides ≡ rows.old.sides }
        ensures same_pile { rows.new.pile ≡ rows.old.pile }
    {
        let at = (self.depth - 1) as usize;
        let k = rows.sides[at];
        let status = joined_status(k.status, self.status);
        if let Status::Faulted(_) = status {
            return self.joined(k, status, 0, 0);
        }
        let b = (rows.records[at] / 4294967296) as usize;
        let block = program.block(b);
        let first = program.first(block.label as usize) as usize;
        rows.join_registers(at, block.pairs, block.packed);
        self.joined(k, status, 4 * first, k.height)
    }
}
