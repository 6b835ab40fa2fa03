// Opcodes 2 to 9: r := s op v, and r := word v.
ghost use Rattle.std.specs.Prelude.{◌≡◌, ◌≢◌, ℕ, ◌<◌, List, ℤ, pos};
ghost use Rattle.task.specs.Values.{truth};
ghost use Rattle.image.specs.Program.{Program};
ghost use Rattle.image.specs.Questions.{most_instructions};
ghost use Rattle.task.specs.declared.Fork.{Fork};
ghost use Rattle.task.specs.declared.Kind.TheVariants.{Faults};
ghost use Rattle.task.specs.Choices.{Choices, chosen};
ghost use Rattle.task.specs.Effect.{plus, minus, times, divide, modulo, less, equal, word};
ghost use Rattle.task.specs.Execute.{answered, ending, storing, OfIntegers};

use crate::results::{fault, store};
use crate::{Active, Executed, Value};

// Comparisons give 0 when true, 1 when false.
fn truth_of(holds: bool) -> Value
    ensures { result ≡ truth holds }
{
    if holds {
        return Value::Int(0);
    }
    Value::Int(1)
}

// What `then` makes of two integers; 31 of other values.
fn integers<F: FnOnce(i64, i64) -> Executed>(s: Value, v: Value, then: F) -> Executed
    requires { (a b : ℤ) → F.pre then a b }
    ensures { OfIntegers (F.post then) s v result }
{
    let Value::Int(a) = s else {
        return fault(31);
    };
    let Value::Int(b) = v else {
        return fault(31);
    };
    then(a, b)
}

// Execute alone calls it; the shape test has put pc inside the program.
pub fn add(s: Value, v: Value, t: Active) -> Executed
    requires { t.pc < most_instructions }
    ensures { (p : Program) (w : List ℤ) (c : Choices) (o : List Fork) → result ≡ answered p w c s v t o plus }
{
    integers(s, v, |a, b| store(Value::Int(int64::wrapping_add(a, b)), t))
}

// As above.
pub fn subtract(s: Value, v: Value, t: Active) -> Executed
    requires { t.pc < most_instructions }
    ensures { (p : Program) (w : List ℤ) (c : Choices) (o : List Fork) → result ≡ answered p w c s v t o minus }
{
    integers(s, v, |a, b| store(Value::Int(int64::wrapping_sub(a, b)), t))
}

// As above.
pub fn multiply(s: Value, v: Value, t: Active) -> Executed
    requires { t.pc < most_instructions }
    ensures { (p : Program) (w : List ℤ) (c : Choices) (o : List Fork) → result ≡ answered p w c s v t o times }
{
    integers(s, v, |a, b| store(Value::Int(int64::wrapping_mul(a, b)), t))
}

// What `op` makes of a dividend and a divisor; 32 where the divisor is 0.
fn divided<F: FnOnce(i64, i64) -> i64>(a: i64, b: i64, t: Active, op: F) -> Executed
    requires at { t.pc < most_instructions }
    requires callable { b ≢ pos 0 → F.pre op a b }
    ensures by_zero { b ≡ pos 0 → result ≡ ending Faults 32 }
    ensures by_other { b ≢ pos 0 → ((r : ℤ) × F.post op a b r × (result ≡ storing (Value.Int r) t)) }
{
    if b == 0 {
        return fault(32);
    }
    store(Value::Int(op(a, b)), t)
}

// As add.
pub fn divide(s: Value, v: Value, t: Active) -> Executed
    requires { t.pc < most_instructions }
    ensures { (p : Program) (w : List ℤ) (n : ℕ) (o : List Fork) → result ≡ answered p w (chosen n) s v t o divide }
{
    integers(s, v, |a, b| divided(a, b, t, int64::quotient))
}

// As add.
pub fn modulo(s: Value, v: Value, t: Active) -> Executed
    requires { t.pc < most_instructions }
    ensures { (p : Program) (w : List ℤ) (n : ℕ) (o : List Fork) → result ≡ answered p w (chosen n) s v t o modulo }
{
    integers(s, v, |a, b| divided(a, b, t, int64::remainder))
}

// As add.
pub fn less(s: Value, v: Value, t: Active) -> Executed
    requires { t.pc < most_instructions }
    ensures { (p : Program) (w : List ℤ) (c : Choices) (o : List Fork) → result ≡ answered p w c s v t o less }
{
    integers(s, v, |a, b| store(truth_of(a < b), t))
}

// As add.
pub fn equal(s: Value, v: Value, t: Active) -> Executed
    requires { t.pc < most_instructions }
    ensures { (p : Program) (w : List ℤ) (c : Choices) (o : List Fork) → result ≡ answered p w c s v t o equal }
{
    integers(s, v, |a, b| store(truth_of(a == b), t))
}

// Word v of the call record, counted from 0. As above.
pub fn fetch(words: &[i64], v: Value, t: Active) -> Executed
    requires { t.pc < most_instructions }
    ensures { (p : Program) (c : Choices) (s : Value) (o : List Fork) → result ≡ answered p words.now c s v t o word }
{
    let Value::Int(index) = v else {
        return fault(31);
    };
    let Ok(at) = usize::try_from(index) else {
        return fault(33);
    };
    let Some(&word) = words.get(at) else {
        return fault(33);
    };
    store(Value::Int(word), t)
}
