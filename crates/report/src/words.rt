// Words and decimals. Each function answers the place after what it has written. `text` alone calls them, with room for it.
// By hand: `Display` says what it writes where it answers Ok alone, and `write_text` and `write_refused`, which cannot fail, need it always.
ghost use Rattle.std.specs.Prelude.{[], ◌∷◌, ◌+◌, ◌≤◌, length};
ghost use Rattle.report.specs.Words.{Written, digit, digits, decimal, signed, line};

// `text` alone calls it, with room for the word.
pub fn write_word(out: &mut [u8], at: usize, word: &[u8]) -> usize
    requires { at + length word.now ≤ length out.old }
    ensures { Written (length word.now) out.old at word.now out.new result }
{
    let end = at + word.len();
    out[at..end].copy_from_slice(word);
    end
}

fn write_digit(out: &mut [u8], at: usize, n: u64) -> usize
    requires { at + 1 ≤ length out.old }
    ensures { Written 1 out.old at (digit n ∷ []) out.new result }
{
    out[at] = (48 + n % 10) as u8;
    at + 1
}

// The digits before the last come first. The fuel falls with each, so that this ends.
fn write_digits(out: &mut [u8], at: usize, n: u64, fuel: usize) -> usize
    requires { at + fuel + 1 ≤ length out.old }
    ensures { Written (fuel + 1) out.old at (digits fuel n) out.new result }
{
    if fuel == 0 {
        return write_digit(out, at, n);
    }
    if n < 10 {
        return write_digit(out, at, n);
    }
    let next = write_digits(out, at, n / 10, fuel - 1);
    write_digit(out, next, n)
}

// `text` and write_signed call it, with room for twenty digits.
pub fn write_decimal(out: &mut [u8], at: usize, n: u64) -> usize
    requires { at + 20 ≤ length out.old }
    ensures { Written 20 out.old at (decimal n) out.new result }
{
    write_digits(out, at, n, 19)
}

// `text` alone calls it, with room for a sign and twenty digits.
pub fn write_signed(out: &mut [u8], at: usize, z: i64) -> usize
    requires { at + 21 ≤ length out.old }
    ensures { Written 21 out.old at (signed z) out.new result }
{
    if z < 0 {
        let next = write_word(out, at, b"-");
        return write_decimal(out, next, z.unsigned_abs());
    }
    write_decimal(out, at, z.unsigned_abs())
}

// A word, a number and the end of the line. `text` alone calls it, with room for all three.
pub fn write_line(out: &mut [u8], at: usize, word: &[u8], n: u64) -> usize
    requires { at + length word.now + 21 ≤ length out.old }
    ensures { Written (length word.now + 21) out.old at (line word.now n) out.new result }
{
    let number = write_word(out, at, word);
    let end = write_decimal(out, number, n);
    write_word(out, end, b"\n")
}
