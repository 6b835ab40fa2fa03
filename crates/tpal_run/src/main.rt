// The run program: a job on standard input, and on standard output its report, or its refusal.
#![tactic(auto)]

ghost use Rattle.std.specs.Prelude.{◌≡◌, ◌+◌, ◌<◌, ◌≤◌, take, drop, length, IfOk, OnOk, IfSome};
ghost use Rattle.std.specs.Io.KnownBytes.{Appends, Consumes, IsAtEnd};
ghost use Rattle.job.specs.Run.{text_in};

use std::error::Error;
use std::io::{Read, Write};
use std::{fmt, io};

// The most picks that a job is given.
const BUDGET: u64 = 1_000_000;

// Why nothing was printed, or not all.
#[derive(Clone, Copy, Debug, PartialEq, Eq)]
pub enum Failure {
    InputUnread,
    JobTooLong,
    TextTooLong,
    OutputUnwritten,
}

impl fmt::Display for Failure {
    fn fmt<W: fmt::Write>(&self, f: &mut fmt::Formatter<W>) -> fmt::Result {
        match self {
            Failure::InputUnread => write!(f, "standard input could not be read"),
            Failure::JobTooLong => write!(f, "the job is longer than its buffer"),
            Failure::TextTooLong => write!(f, "the text is longer than its buffer"),
            Failure::OutputUnwritten => write!(f, "standard output could not be written"),
        }
    }
}

impl Error for Failure {}

// One read, into the buffer from `done` on: how many bytes it put there, 0 at the input's end.
fn read_at<R: Read>(input: &mut R, buf: &mut [u8], done: usize) -> io::Result<usize>
    requires { done ≤ length buf.old }
    ensures room { IfOk result (λ n. done + n ≤ length buf.old) }
    ensures kept { take done buf.new ≡ take done buf.old }
    ensures bytes { IfOk result (λ n. Consumes (R.remaining input.old) (R.remaining input.new) (take n (drop done buf.new))) }
    ensures end { IfOk result (λ n. n ≡ 0 → done < length buf.old → IsAtEnd (R.remaining input.new)) }
{
    input.read(&mut buf[done..])
}

// Reads until the input ends or the buffer is full: the buffer then begins with the input's first bytes, as many as it has room for.
fn read_all<R: Read>(input: &mut R, buf: &mut [u8]) -> io::Result<usize>
    ensures room { IfOk result (λ n. n ≤ length buf.old) }
    ensures bytes { IfOk result (λ n. IfSome (R.remaining input.old) (λ xs. take n buf.new ≡ take (length buf.old) xs)) }
{
    let mut done = 0usize;
    // no `for`: `done` moves on by what a read brings, which may be any number
    while done < buf.len() {
        let more = read_at(input, buf, done)?;
        if more == 0 {
            return Ok(done);
        }
        done += more;
    }
    Ok(done)
}

fn print<W: Write>(out: &mut W, text: &[u8], n: usize) -> Result<(), Failure>
    ensures room { OnOk result (n ≤ length text.now) }
    ensures bytes { OnOk result (Appends (W.contents out.old) (W.contents out.new) (take n text.now)) }
{
    if text.len() < n {
        return Err(Failure::TextTooLong);
    }
    out.write_all(&text[..n])
        .map_err(|_| Failure::OutputUnwritten)
}

// The first n bytes are the job.
fn run<W: Write>(input: &[u8], n: usize, out: &mut W) -> Result<(), Failure>
    ensures { OnOk result (Appends (W.contents out.old) (W.contents out.new) (text_in (take n input.now) 1000000)) }
{
    if input.len() < n {
        return Err(Failure::JobTooLong);
    }
    let mut text = [0u8; report::TEXT_BYTES];
    let written = job::tpal_job_text(&input[..n], BUDGET, &mut text).ok_or(Failure::TextTooLong)?;
    print(out, &text, written)
}

// What the input has comes into the buffer, and what is printed is the text of that.
fn answer<R: Read, W: Write>(input: &mut R, out: &mut W, space: &mut [u8]) -> Result<(), Failure>
    ensures { OnOk result (IfSome (R.remaining input.old)
        (λ xs. Appends (W.contents out.old) (W.contents out.new) (text_in (take (length space.old) xs) 1000000))) }
{
    let n = read_all(input, space).map_err(|_| Failure::InputUnread)?;
    run(space, n, out)
}

// A job has at most 589,950 bytes, its image length and word count being of 16 bits. The buffer has one more, so that a longer input does
// not end exactly after its last word.
fn main(rt: HostRuntime) {
    let mut space = [0u8; 589951];
    if let Err(failure) = answer(&mut rt.stdin(), &mut rt.stdout(), &mut space) {
        let _ = eprintln!(rt; "tpal_run: {failure}");
    }
}
