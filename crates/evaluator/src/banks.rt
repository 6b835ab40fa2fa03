// Banks of 16 registers, one for each side that is kept; and the registers of a join.
ghost use Rattle.std.specs.Prelude.{◌≡◌, ◌<◌, set};
ghost use Rattle.task.specs.Step.{copied};
ghost use Rattle.arms.specs.Registers.{Sized};
ghost use Rattle.evaluator.specs.Banks.{bank_of, bank_at, Exchanged};
ghost use Rattle.evaluator.specs.Hands.{Full};

use crate::Rows;
use arms::Registers;

// The pairs of a continuation block, copied from the child's registers to the parent's: the high four bits of a pair byte name the child's. After
// a write through a borrow the check does not take the lengths of arrays from their type, so `Sized` stands here.
fn merge(registers: &mut Registers, theirs: &Registers, count: u64, bytes: u64)
    requires { Sized registers.old.nums registers.old.kinds }
    ensures sized { Sized registers.new.nums registers.new.kinds }
    ensures registers_after { bank_of registers.new ≡ copied (bank_of theirs.now) count bytes (bank_of registers.old) }
{
    let mut packed = bytes;
    for _ in 0..count {
        let source = (packed / 16 % 16) as usize;
        let target = (packed % 16) as usize;
        registers.put(target, theirs.nums[source], theirs.kinds[source]);
        packed = packed / 256;
    }
}

// Row by row: the compiler then moves 16 bytes at a time, where all 144 at once would be a call of memcpy. This crate alone calls it.
fn copy(from: &Registers, to: &mut Registers)
    ensures { to.new ≡ from.now }
{
    to.nums = from.nums;
    to.kinds = from.kinds;
}

impl Rows {
    // The registers copied to the bank at `at`.
    pub fn save(&mut self, at: usize)
        requires { at < 6 }
        ensures banks_after { self.new.banks ≡ set self.old.banks at self.old.registers }
        ensures same_registers { self.new.registers ≡ self.old.registers }
        ensures same_records { self.new.records ≡ self.old.records }
        ensures same_sides { self.new.sides ≡ self.old.sides }
        ensures same_pile { self.new.pile ≡ self.old.pile }
    {
        copy(&self.registers, &mut self.banks[at]);
    }

    // The registers and the bank at `at` change places.
    pub fn exchange(&mut self, at: usize)
        requires { at < 6 }
        ensures exchanged { Exchanged self.old.registers self.old.banks self.new.registers self.new.banks at }
        ensures same_records { self.new.records ≡ self.old.records }
        ensures same_sides { self.new.sides ≡ self.old.sides }
        ensures same_pile { self.new.pile ≡ self.old.pile }
    {
        let bank = &mut self.banks[at];
        std::mem::swap(&mut self.registers.nums, &mut bank.nums);
        std::mem::swap(&mut self.registers.kinds, &mut bank.kinds);
    }

    // The registers, the child's, become those of the bank at `at`, the parent's, with the pairs copied from what they were. The pairs are stored
    // after the bank is loaded: a wide load has to wait for narrow stores to its row. `join_parent` alone calls it.
    pub fn join_registers(&mut self, at: usize, count: u64, bytes: u64)
        requires { Full self.old × (at < 6) }
        ensures sized { Sized self.new.registers.nums self.new.registers.kinds }
        ensures registers_after { bank_of self.new.registers ≡ copied (bank_of self.old.registers) count bytes (bank_at self.old.banks at) }
        ensures same_banks { self.new.banks ≡ self.old.banks }
        ensures same_records { self.new.records ≡ self.old.records }
        ensures same_sides { self.new.sides ≡ self.old.sides }
        ensures same_pile { self.new.pile ≡ self.old.pile }
    {
        let own = Registers {
            nums: self.registers.nums,
            kinds: self.registers.kinds,
        };
        copy(&self.banks[at], &mut self.registers);
        merge(&mut self.registers, &own, count, bytes);
    }
}
