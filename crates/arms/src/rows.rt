// Registers in two rows of numbers: one set, and values in and out of them.
ghost use Rattle.std.specs.Prelude.{◌≡◌, ◌<◌, set};
ghost use Rattle.arms.specs.Registers.{value_of};

use crate::{Pair, Registers};
use task::Value;

impl Registers {
    // r := a value. Our crates alone call it, with a register of an accepted program.
    pub fn put(&mut self, r: usize, num: u64, kind: u8)
        requires { r < 16 }
        ensures nums_after { self.new.nums ≡ set self.old.nums r num }
        ensures kinds_after { self.new.kinds ≡ set self.old.kinds r kind }
    {
        self.nums[r] = num;
        self.kinds[r] = kind;
    }
}

// Our crates alone call it: a label of a well-formed task is a block's number. No `From`, which asks nothing of what it is given.
pub fn value_of(kind: u8, num: u64) -> Value
    requires { kind ≡ 1 → num < 4294967296 }
    ensures { result ≡ value_of kind num }
{
    if kind == 0 {
        return Value::Int(int64::number(num));
    }
    if kind == 1 {
        return Value::Label(num as u32);
    }
    Value::Record((num / 4294967296) as u32, (num % 4294967296) as u32)
}

impl From<Value> for Pair {
    ghost from_gives = { λ v pair. value_of pair.kind pair.num ≡ v };

    fn from(v: Value) -> Pair {
        match v {
            Value::Int(z) => {
                let num = int64::bits(z);
                Pair { kind: 0, num }
            }
            Value::Label(b) => Pair {
                kind: 1,
                num: b as u64,
            },
            Value::Record(c, d) => Pair {
                kind: 2,
                num: 4294967296 * (c as u64) + (d as u64),
            },
        }
    }
}
