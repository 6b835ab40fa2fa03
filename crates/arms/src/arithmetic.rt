// Arms for opcodes 2 to 8: r := s op v, of two registers or of a register and a number, for each operation. `set_register` and `set_immediate` alone
// call them, with registers of an accepted program.
ghost use Rattle.std.specs.Prelude.{◌≡◌, refl, List, ℕ, ◌<◌, ℤ, ◌+ℤ◌, ◌-ℤ◌, ◌*ℤ◌, ⊤};
ghost use Rattle.std.specs.Int.Signed.{lt_z};
ghost use Rattle.int64.specs.Equal.{eq_z};
ghost use Rattle.int64.specs.Wrapped.{wrapped};
ghost use Rattle.image.specs.Program.{Program};
ghost use Rattle.task.specs.declared.Value.{Value};
ghost use Rattle.task.specs.declared.Value.TheVariants.{Int};
ghost use Rattle.task.specs.declared.Fork.{Fork};
ghost use Rattle.task.specs.declared.Active.{Active};
ghost use Rattle.task.specs.Values.{truth};
ghost use Rattle.task.specs.Choices.{Choices, chosen};
ghost use Rattle.task.specs.Effect.{Effect, Op, stores, plus, minus, times, divide, modulo, less, equal, effect_of};
ghost use Rattle.arms.specs.Registers.{in_register, as_number};
ghost use Rattle.arms.specs.Arms.{Context, SetsAs, computing, dividing, Computes};

use crate::{Registers, Way};

// What the seven differ in: two integers are given by their bits.
pub trait Operation {
    // its row of the table
    ghost op: { Op };

    // what the row makes of two integers
    ghost after: { Choices → ℤ → ℤ → Effect };

    // the choices for which it computes that
    ghost Suits: { Choices → Type 0 };

    // The result's bits; of a divisor 0 there is none.
    fn bits(a: u64, b: u64) -> Option<u64>
        ensures { (c : Choices) → Suits c → Computes (after c) a b result };

    // of other values it makes nothing
    ghost as_table: { (p : Program) (w : List ℤ) (c : Choices) (s v : Value) (t : Active) (o : List Fork) → effect_of p w c s v t o op ≡ computing (after c) s v };
}

pub struct Sum;

impl Operation for Sum {
    ghost op = { plus };

    ghost after = { λ c a b. stores (Int (wrapped (a +ℤ b))) };

    ghost Suits = { λ c. ⊤ };

    ghost as_table = { λ p w c s v t o. refl };

    fn bits(a: u64, b: u64) -> Option<u64> {
        Some(int64::bits(int64::wrapping_add(int64::number(a), int64::number(b))))
    }
}

pub struct Difference;

impl Operation for Difference {
    ghost op = { minus };

    ghost after = { λ c a b. stores (Int (wrapped (a -ℤ b))) };

    ghost Suits = { λ c. ⊤ };

    ghost as_table = { λ p w c s v t o. refl };

    fn bits(a: u64, b: u64) -> Option<u64> {
        Some(int64::bits(int64::wrapping_sub(int64::number(a), int64::number(b))))
    }
}

pub struct Product;

impl Operation for Product {
    ghost op = { times };

    ghost after = { λ c a b. stores (Int (wrapped (a *ℤ b))) };

    ghost Suits = { λ c. ⊤ };

    ghost as_table = { λ p w c s v t o. refl };

    fn bits(a: u64, b: u64) -> Option<u64> {
        Some(int64::bits(int64::wrapping_mul(int64::number(a), int64::number(b))))
    }
}

pub struct Quotient;

impl Operation for Quotient {
    ghost op = { divide };

    ghost after = { λ c. dividing c.quotient };

    ghost Suits = { λ c. (n : ℕ) × (c ≡ chosen n) };

    ghost as_table = { λ p w c s v t o. refl };

    fn bits(a: u64, b: u64) -> Option<u64> {
        if b == 0 {
            return None;
        }
        Some(int64::bits(int64::quotient(int64::number(a), int64::number(b))))
    }
}

pub struct Remainder;

impl Operation for Remainder {
    ghost op = { modulo };

    ghost after = { λ c. dividing c.remainder };

    ghost Suits = { λ c. (n : ℕ) × (c ≡ chosen n) };

    ghost as_table = { λ p w c s v t o. refl };

    fn bits(a: u64, b: u64) -> Option<u64> {
        if b == 0 {
            return None;
        }
        Some(int64::bits(int64::remainder(int64::number(a), int64::number(b))))
    }
}

// Of the tests below 0 is the answer yes.
pub struct Order;

impl Operation for Order {
    ghost op = { less };

    ghost after = { λ c a b. stores (truth (lt_z a b)) };

    ghost Suits = { λ c. ⊤ };

    ghost as_table = { λ p w c s v t o. refl };

    fn bits(a: u64, b: u64) -> Option<u64> {
        if int64::number(a) < int64::number(b) {
            return Some(0);
        }
        Some(1)
    }
}

pub struct Sameness;

impl Operation for Sameness {
    ghost op = { equal };

    ghost after = { λ c a b. stores (truth (eq_z a b)) };

    ghost Suits = { λ c. ⊤ };

    ghost as_table = { λ p w c s v t o. refl };

    fn bits(a: u64, b: u64) -> Option<u64> {
        if int64::number(a) == int64::number(b) {
            return Some(0);
        }
        Some(1)
    }
}

// r := s op the number v.
pub fn of_number<O: Operation>(registers: &mut Registers, r: usize, s: usize, v: u64) -> Way
    requires { (r < 16) × (s < 16) }
    ensures { (x : Context) → O.Suits x.choices → SetsAs x O.op result r registers.old registers.new (in_register s) (as_number v) }
{
    if registers.kinds[s] != 0 {
        return Way::Fault(31);
    }
    match O::bits(registers.nums[s], v) {
        Some(u) => {
            registers.put(r, u, 0);
            Way::On
        }
        None => Way::Fault(32),
    }
}

// r := s op v.
pub fn of_registers<O: Operation>(registers: &mut Registers, r: usize, s: usize, v: usize) -> Way
    requires { (r < 16) × (s < 16) × (v < 16) }
    ensures { (x : Context) → O.Suits x.choices → SetsAs x O.op result r registers.old registers.new (in_register s) (in_register v) }
{
    if registers.kinds[v] != 0 {
        return Way::Fault(31);
    }
    of_number::<O>(registers, r, s, registers.nums[v])
}
