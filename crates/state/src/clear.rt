// Bytes that are all 0, as those of vacant slots and of nearly all stacks are.
ghost use Rattle.std.specs.Prelude.{◌≡◌, ◌+◌, ◌≤◌, length};
ghost use Rattle.state.specs.Reading.{is_clear};

// Whether the n bytes there are 0. The loop goes over all of them: without a way out it is compiled to a few wide loads. The reader calls it,
// with bytes inside the buffer.
#[inline(always)]
pub fn is_clear(bytes: &[u8], at: usize, n: usize) -> bool
    requires { at + n ≤ length bytes.now }
    ensures { result ≡ is_clear bytes.now at n }
{
    let mut clear = true;
    for b in &bytes[at..at + n] {
        if *b != 0 {
            clear = false;
        }
    }
    clear
}
