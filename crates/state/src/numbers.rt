// Numbers of 64 bits, little-endian. Our own crates alone call these, with a place inside a buffer of known length.
ghost use Rattle.std.specs.Prelude.{◌≡◌, ◌+◌, ◌*◌, ◌≤◌, length, get_or};
ghost use Rattle.std.proofs.lemmas.List.Edits.{sets};
ghost use Rattle.image.specs.Layout.{rows};
ghost use Rattle.task.specs.Frames.{zero_register};
ghost use Rattle.state.specs.Numbers.{value_numbers, in_bytes, integers_in};

use task::{Register, Value};

// The writers of states and reports call it, with room for N numbers.
pub fn write_numbers<const N: usize>(out: &mut [u8], at: usize, numbers: [u64; N])
    requires { at + 8 * N ≤ length out.old }
    ensures { out.new ≡ sets out.old at (in_bytes numbers.entry) }
{
    for (i, n) in numbers.iter().enumerate() {
        int64::write_u64(out, at + 8 * i, *n);
    }
}

// As above: a register is three numbers.
fn write_register(out: &mut [u8], at: usize, r: Register)
    requires { at + 24 ≤ length out.old }
    ensures { out.new ≡ sets out.old at (in_bytes (value_numbers r.value)) }
{
    match r.value {
        Value::Int(x) => write_numbers(out, at, [0, int64::bits(x), 0]),
        Value::Label(b) => write_numbers(out, at, [1, b as u64, 0]),
        Value::Record(c, d) => write_numbers(out, at, [2, c as u64, d as u64]),
    }
}

// As above, for registers one after the other.
pub fn write_registers(out: &mut [u8], at: usize, registers: &[Register])
    requires { at + 24 * length registers.now ≤ length out.old }
    ensures { out.new ≡ sets out.old at (rows (λ i. in_bytes (value_numbers (get_or registers.now i zero_register).value)) (length registers.now)) }
{
    for (i, r) in registers.iter().enumerate() {
        write_register(out, at + 24 * i, *r);
    }
}

// As many integers as `out` has room for, the first at `at`. `job` and `steps` call it, where the bytes have that many.
pub fn read_integers(bytes: &[u8], at: usize, out: &mut [i64])
    requires { at + 8 * length out.old ≤ length bytes.now }
    ensures { out.new ≡ integers_in bytes.now at (length out.old) }
{
    for (i, x) in out.iter_mut().enumerate() {
        *x = int64::number(int64::read_u64(bytes, at + 8 * i));
    }
}
