// Signed numbers of 64 bits, in two's complement, and little-endian numbers in bytes.
#![tactic(auto)]

ghost use Rattle.std.specs.Prelude.{◌≡◌, ◌+◌, ◌*◌, ◌≤◌, length, pos, ◌+ℤ◌, ◌-ℤ◌, ◌*ℤ◌, ◌≢◌, int_div, int_lt, int_rem};
ghost use Rattle.std.specs.Int.{w64};
ghost use Rattle.std.proofs.Common.{of_z, to_z};
ghost use Rattle.std.proofs.lemmas.List.Edits.{sets};
ghost use Rattle.int64.specs.Wrapped.{wrapped};
ghost use Rattle.int64.specs.Equal.{eq_z};
ghost use Rattle.int64.specs.Little.{NumberAt, bytes_of};

// The 64 bits of x.
pub fn bits(x: i64) -> u64
    ensures { result ≡ of_z w64 x }
{
    x.cast_unsigned()
}

// The number that 64 bits are.
pub fn number(u: u64) -> i64
    ensures { result ≡ to_z w64 u }
{
    u.cast_signed()
}

// Sums, differences and products keep the low 64 bits, read as signed.
pub fn wrapping_add(a: i64, b: i64) -> i64
    ensures { result ≡ wrapped (a +ℤ b) }
{
    a.wrapping_add(b)
}

pub fn wrapping_sub(a: i64, b: i64) -> i64
    ensures { result ≡ wrapped (a -ℤ b) }
{
    a.wrapping_sub(b)
}

pub fn wrapping_mul(a: i64, b: i64) -> i64
    ensures { result ≡ wrapped (a *ℤ b) }
{
    a.wrapping_mul(b)
}

// The quotient, rounded toward zero; the least number divided by -1 gives itself. Callers test that b is not 0.
pub fn quotient(a: i64, b: i64) -> i64
    requires { b ≢ pos 0 }
    ensures { result ≡ wrapped (int_div a b) }
{
    a.wrapping_div(b)
}

// The remainder, with the dividend's sign. Callers test that b is not 0.
pub fn remainder(a: i64, b: i64) -> i64
    requires { b ≢ pos 0 }
    ensures { result ≡ int_rem a b }
{
    a.wrapping_rem(b)
}

pub fn less(a: i64, b: i64) -> bool
    ensures { result ≡ int_lt a b }
{
    a < b
}

pub fn equal(a: i64, b: i64) -> bool
    ensures { result ≡ eq_z a b }
{
    a == b
}

// The number of the N bytes at `at`, the lowest first. The three doors below call, with 2, 4 and 8 for N. From the last byte on, so that it is
// compiled to one load: a copy into an array of eight is compiled to a test of where the array lies, and two loads.
fn read<const N: usize>(bytes: &[u8], at: usize) -> u64
    requires size { N ≤ 8 }
    requires inside { at + N ≤ length bytes.now }
    ensures { NumberAt N bytes.now at result }
{
    let mut x = 0;
    for i in 0..N {
        x = 256 * x + u64::from(bytes[at + (N - 1 - i)]);
    }
    x
}

// The number of the 2 bytes at `at`, the lowest first. Here and below our crates alone call, with a place inside the buffer.
pub fn read_u16(bytes: &[u8], at: usize) -> u64
    requires { at + 2 ≤ length bytes.now }
    ensures { NumberAt 2 bytes.now at result }
{
    read::<2>(bytes, at)
}

// The number of the 4 bytes at `at`, which are in the buffer.
pub fn read_u32(bytes: &[u8], at: usize) -> u64
    requires { at + 4 ≤ length bytes.now }
    ensures { NumberAt 4 bytes.now at result }
{
    read::<4>(bytes, at)
}

// The number of the 8 bytes at `at`, which are in the buffer.
pub fn read_u64(bytes: &[u8], at: usize) -> u64
    requires { at + 8 ≤ length bytes.now }
    ensures { NumberAt 8 bytes.now at result }
{
    read::<8>(bytes, at)
}

// The N low bytes of x go to `at`, the lowest first. The three doors below call, with 2, 4 and 8 for N.
fn write<const N: usize>(bytes: &mut [u8], at: usize, x: u64)
    requires size { N ≤ 8 }
    requires inside { at + N ≤ length bytes.old }
    ensures { bytes.new ≡ sets bytes.old at (bytes_of N x) }
{
    let low = x.to_le_bytes();
    bytes[at..at + N].copy_from_slice(&low[..N]);
}

// The 2 low bytes of x go to `at`, the lowest first; the buffer has room for them.
pub fn write_u16(bytes: &mut [u8], at: usize, x: u64)
    requires { at + 2 ≤ length bytes.old }
    ensures { bytes.new ≡ sets bytes.old at (bytes_of 2 x) }
{
    write::<2>(bytes, at, x);
}

// The 4 low bytes of x go to `at`, as above.
pub fn write_u32(bytes: &mut [u8], at: usize, x: u64)
    requires { at + 4 ≤ length bytes.old }
    ensures { bytes.new ≡ sets bytes.old at (bytes_of 4 x) }
{
    write::<4>(bytes, at, x);
}

// The 8 bytes of x go to `at`, as above.
pub fn write_u64(bytes: &mut [u8], at: usize, x: u64)
    requires { at + 8 ≤ length bytes.old }
    ensures { bytes.new ≡ sets bytes.old at (bytes_of 8 x) }
{
    write::<8>(bytes, at, x);
}
