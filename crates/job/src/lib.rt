// The calls: job_c exports each under its name, to programs in C or another language, which get a refusal's number. Numbers and byte slices only.
#![tactic(auto)]

mod evaluating;
mod input;

ghost use Rattle.std.specs.Prelude.{◌≡◌, ◌≢◌, true, ◌*◌, ◌≤◌, ◌↔◌, length, unwrap_or, IsNone};
ghost use Rattle.image.specs.Layout.{instruction_count};
ghost use Rattle.image.specs.Refusals.{no_of};
ghost use Rattle.image.specs.Doors.{image_no, rewrite_no, unless_refused};
ghost use Rattle.machine.specs.Starting.{empty};
ghost use Rattle.orders.specs.Demand.{WhateverTheOrder, start_on};
ghost use Rattle.state.specs.State.{state_bytes};
ghost use Rattle.job.specs.Job.{word_count};
ghost use Rattle.report.specs.Report.{report_bytes, report_of};
ghost use Rattle.report.specs.Text.{text_room};
ghost use Rattle.machine.specs.Dispatching.{lanes_allowed};
ghost use Rattle.job.specs.Replay.{job_in, replay_no, replay_of};
ghost use Rattle.steps.specs.Calls.{read_no, program_after, written_no, image_after, started_no, state_after_start, picked_no, state_after_pick, ran_no, state_after_run, report_after_run};
ghost use Rattle.job.specs.Run.{report_in, run_no, text_length, text_stored};
ghost use Rattle.job.specs.Dispatch.{rounds_in, rounds_report_in, dispatch_job_no};

use drive::State;
use image::layout::PROGRAM_CELLS;
use image::refusal::Refusal;
use input::Accepted;
use machine::start::MOST_WORDS;
use machine::{Answered, Machine};
use report::{REPORT_BYTES, ROUNDS_REPORT_BYTES, Report, TEXT_BYTES};
use state::STATE_BYTES;

// The words that fit into the small one of a job's two buffers.
const FEW_WORDS: usize = 256;

// The instructions of a program whose decoded numbers fit into the small one of its two buffers; the numbers of both.
const FEW_INSTRUCTIONS: u64 = 128;

const FEW_NUMBERS: usize = 512;

const MOST_NUMBERS: usize = 4096;

// The image check: Ok, or the refusal of the first question, 1 to 9, that is answered with no.
pub fn tpal_image_check(image: &[u8]) -> Result<(), Refusal>
    ensures { no_of result ≡ image_no image.now }
{
    image::reader::check(image)
}

// Reads an image and writes its program back into `out`, which has the image's length (15). A refusal leaves `out` as it was.
pub fn tpal_image_rewrite(image: &[u8], out: &mut [u8]) -> Result<(), Refusal>
    ensures value { no_of result ≡ rewrite_no image.now (length out.old) }
    ensures out_after { out.new ≡ unless_refused (no_of result) image.now out.old }
{
    image::rewrite(image, out)
}

// The order carried out on an accepted job, whose words go to the lent slice.
fn carry_out(job: &Accepted, words: &mut [i64], order: &[u8]) -> State
    requires { length words.old ≡ word_count job.now.input.bytes.now }
    ensures { result ≡ replay_of job.now.input.bytes.now order.now }
{
    let registers = job.input.registers();
    job.input.read_words(words);
    let places = job.input.places();
    let interval = job.input.interval();
    let replayed = orders::replay(job.cells, places, interval, &registers, words, order);
    replayed.machine.state
}

// Starts a job, given by its bytes, and carries out one pick for each byte of the order; then writes the whole state into `state`, which
// has 83,992 bytes (15). A refusal leaves `state` as it was.
pub fn tpal_replay(job: &[u8], order: &[u8], state: &mut [u8]) -> Result<(), Refusal>
    ensures value { no_of result ≡ replay_no job.now (length state.old) }
    ensures state_after { state.new ≡ unless_refused (no_of result) (state_bytes (replay_of job.now order.now)) state.old }
    ensures whatever_the_order { no_of result ≡ 0 → WhateverTheOrder (job_in job.now) (start_on (job_in job.now) (empty 0 0)) order.now }
{
    let mut cells = [0u64; PROGRAM_CELLS];
    let job = input::accept(job, &mut cells)?;
    if state.len() != STATE_BYTES {
        return Err(Refusal::Buffer);
    }
    let mut words = [0i64; MOST_WORDS];
    let count = job.input.word_count();
    let last = carry_out(&job, &mut words[..count], order);
    state::writer::write_state(&last, state);
    Ok(())
}

// An accepted job's run, whose words go to the lent slice and whose decoded program to a buffer of so many numbers. The questions of start and run
// have all been put, and the report shows no picks: so the job is evaluated, without slots and without a state.
fn run_decoded<const NUMBERS: usize>(job: &Accepted, words: &mut [i64], budget: u64) -> Report
    requires { (length words.old ≡ word_count job.now.input.bytes.now) × (4 * instruction_count job.now.cells.now ≤ NUMBERS) × (NUMBERS ≤ 4096) }
    ensures { result ≡ report_in job.now.input.bytes.now budget }
{
    let registers = job.input.registers();
    job.input.read_words(words);
    let places = job.input.places();
    let interval = job.input.interval();
    let n = evaluating::allowance_of(budget);
    let mut code = [0u64; NUMBERS];
    evaluating::evaluate_job(job.cells, &mut code, words, interval, places, &registers, n)
}

// The same with a buffer for so many words. Both buffers have to be cleared: small ones do for most jobs.
fn run_job<const WORDS: usize>(job: &Accepted, budget: u64) -> Report
    requires { (word_count job.now.input.bytes.now ≤ WORDS) × (WORDS ≤ 4096) }
    ensures { result ≡ report_in job.now.input.bytes.now budget }
{
    let mut words = [0i64; WORDS];
    let count = job.input.word_count();
    if image::layout::instruction_count(job.cells) <= FEW_INSTRUCTIONS {
        return run_decoded::<FEW_NUMBERS>(job, &mut words[..count], budget);
    }
    run_decoded::<MOST_NUMBERS>(job, &mut words[..count], budget)
}

fn run_accepted(job: &Accepted, budget: u64) -> Report
    ensures { result ≡ report_in job.now.input.bytes.now budget }
{
    if job.input.word_count() <= FEW_WORDS {
        return run_job::<FEW_WORDS>(job, budget);
    }
    run_job::<MOST_WORDS>(job, budget)
}

// Runs a job, given by its bytes, with this budget, and writes its report into `out`, which has 424 bytes (15). A refusal leaves `out` as
// it was.
pub fn tpal_job_run(job: &[u8], budget: u64, out: &mut [u8]) -> Result<(), Refusal>
    ensures value { no_of result ≡ run_no job.now (length out.old) }
    ensures out_after { out.new ≡ unless_refused (no_of result) (report_bytes (report_in job.now budget)) out.old }
{
    let mut cells = [0u64; PROGRAM_CELLS];
    let job = input::accept(job, &mut cells)?;
    if out.len() != REPORT_BYTES {
        return Err(Refusal::Buffer);
    }
    let r = run_accepted(&job, budget);
    report::bytes::write_report(r, out);
    Ok(())
}

// What the dispatcher comes to for a job: the report of the state that it leaves, and the rounds begun.
#[derive(Clone, Copy, Debug, PartialEq, Eq)]
pub struct RoundsReport {
    pub report: Report,
    pub rounds: u64,
}

// An accepted job's rounds, whose words go to the lent slice. The machine refuses none of them.
fn dispatch_job(job: &Accepted, words: &mut [i64], lanes: u64, rounds: u64) -> RoundsReport
    requires { (length words.old ≡ word_count job.now.input.bytes.now) × (lanes_allowed lanes ≡ true) }
    ensures { (result.report ≡ report_of (rounds_in job.now.input.bytes.now lanes rounds).state (rounds_in job.now.input.bytes.now lanes rounds).picks)
        × (result.rounds ≡ (rounds_in job.now.input.bytes.now lanes rounds).kept.done) }
{
    let registers = job.input.registers();
    job.input.read_words(words);
    let places = job.input.places();
    let interval = job.input.interval();
    let state = machine::start::fresh_state(places, interval as u16, &registers);
    let Answered { machine, answer } = Machine { state }.dispatch(job.cells, words, lanes, rounds);
    let Ok(ran) = answer else { unreachable!() };
    RoundsReport {
        report: report::report_of(&machine.state, ran.picks),
        rounds: ran.rounds,
    }
}

// Runs a job, given by its bytes, in rounds on 1 to 8 lanes (41), at most so many, and writes its report and the rounds into `out`, which has
// 432 bytes (15). A refusal leaves `out` as it was.
pub fn tpal_job_dispatch(job: &[u8], lanes: u64, rounds: u64, out: &mut [u8]) -> Result<(), Refusal>
    ensures value { no_of result ≡ dispatch_job_no job.now lanes (length out.old) }
    ensures out_after { out.new ≡ unless_refused (no_of result) (rounds_report_in job.now lanes rounds) out.old }
{
    let mut cells = [0u64; PROGRAM_CELLS];
    let job = input::accept(job, &mut cells)?;
    if out.len() != ROUNDS_REPORT_BYTES {
        return Err(Refusal::Buffer);
    }
    if !machine::dispatch::allows_lanes(lanes) {
        return Err(Refusal::Lanes);
    }
    let mut words = [0i64; MOST_WORDS];
    let count = job.input.word_count();
    let r = dispatch_job(&job, &mut words[..count], lanes, rounds);
    report::bytes::write_rounds_report(r.report, r.rounds, out);
    Ok(())
}

// What the run program prints for a job: the report's text, or its refusal. It goes to the front of `out`, which has 1,024 bytes, and the
// answer is its length; a buffer of another length stays as it was, and the answer is None.
pub fn tpal_job_text(job: &[u8], budget: u64, out: &mut [u8]) -> Option<usize>
    ensures value { unwrap_or result 0 ≡ text_length job.now budget (length out.old) }
    ensures none { IsNone result ↔ (length out.old ≢ text_room) }
    ensures out_after { out.new ≡ text_stored job.now budget out.old }
{
    if out.len() != TEXT_BYTES {
        return None;
    }
    let mut cells = [0u64; PROGRAM_CELLS];
    let job = match input::accept(job, &mut cells) {
        Ok(job) => job,
        Err(refusal) => {
            let no = refusal.number();
            return Some(report::text::write_refused(no, out));
        }
    };
    let r = run_accepted(&job, budget);
    Some(report::text::write_text(r, out))
}

// ---- A job in steps

// Reads an image into a program buffer of 47,128 bytes (15). A refusal leaves `program` as it was.
pub fn tpal_program_read(image: &[u8], program: &mut [u8]) -> Result<(), Refusal>
    ensures value { no_of result ≡ read_no image.now (length program.old) }
    ensures program_after { program.new ≡ program_after image.now program.old }
{
    steps::program::read_program(image, program)
}

// Writes a program buffer to an image of its length (15). A refusal leaves `image` as it was.
pub fn tpal_program_write(program: &[u8], image: &mut [u8]) -> Result<(), Refusal>
    ensures value { no_of result ≡ written_no program.now (length image.old) }
    ensures image_after { image.new ≡ image_after program.now image.old }
{
    steps::program::write_program(program, image)
}

// Starts a job: `state`, 83,992 bytes (15), then holds its state. A refusal leaves `state` as it was.
pub fn tpal_start(
    program: &[u8],
    places: u64,
    interval: u64,
    registers: &[u8],
    words: &[u8],
    state: &mut [u8],
) -> Result<(), Refusal>
    ensures value { no_of result ≡ started_no program.now places interval registers.now words.now (length state.old) }
    ensures state_after { state.new ≡ state_after_start program.now places interval registers.now words.now state.old }
{
    steps::starting::start(program, places, interval, registers, words, state)
}

// One pick of a slot on the state that the bytes stand for; they then are the new state's. A refusal leaves them as they were.
pub fn tpal_pick(program: &[u8], words: &[u8], slot: u64, state: &mut [u8]) -> Result<(), Refusal>
    ensures value { no_of result ≡ picked_no program.now words.now slot state.old }
    ensures state_after { state.new ≡ state_after_pick program.now words.now slot state.old }
{
    steps::going::pick(program, words, slot, state)
}

// A run on the state that the bytes stand for; they then are the new state's, and `report`, 424 bytes (15), has this run's picks. A
// refusal leaves both as they were.
pub fn tpal_run(
    program: &[u8],
    words: &[u8],
    budget: u64,
    state: &mut [u8],
    report: &mut [u8],
) -> Result<(), Refusal>
    ensures value { no_of result ≡ ran_no program.now words.now state.old (length report.old) }
    ensures state_after { state.new ≡ state_after_run program.now words.now budget state.old (length report.old) }
    ensures report_after { report.new ≡ report_after_run program.now words.now budget state.old report.old }
{
    steps::going::run(program, words, budget, state, report)
}
