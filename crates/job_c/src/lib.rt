// The exports: what a program in C or another language calls. Numbers and byte slices only. Each is job's call of the same name, with its clauses,
// a refusal as its number.
#![tactic(auto)]

ghost use Rattle.std.specs.Prelude.{◌≡◌, length};
ghost use Rattle.image.specs.Doors.{image_no, rewrite_no, unless_refused};
ghost use Rattle.machine.specs.Starting.{empty};
ghost use Rattle.orders.specs.Demand.{WhateverTheOrder, start_on};
ghost use Rattle.state.specs.State.{state_bytes};
ghost use Rattle.report.specs.Report.{report_bytes};
ghost use Rattle.job.specs.Replay.{job_in, replay_no, replay_of};
ghost use Rattle.steps.specs.Calls.{read_no, program_after, written_no, image_after, started_no, state_after_start, picked_no, state_after_pick, ran_no, state_after_run, report_after_run};
ghost use Rattle.job.specs.Run.{report_in, run_no, text_length, text_stored};
ghost use Rattle.job.specs.Dispatch.{rounds_report_in, dispatch_job_no};

use image::refusal::code;

// The image check: 0, or the number of the first question, 1 to 9, that is answered with no.
#[unsafe(no_mangle)]
pub extern "C" fn tpal_image_check(image: &[u8]) -> u8
    ensures { result ≡ image_no image.now }
{
    code(job::tpal_image_check(image))
}

// Reads an image and writes its program back into `out`, which has the image's length (15). A refusal leaves `out` as it was.
#[unsafe(no_mangle)]
pub extern "C" fn tpal_image_rewrite(image: &[u8], out: &mut [u8]) -> u8
    ensures value { result ≡ rewrite_no image.now (length out.old) }
    ensures out_after { out.new ≡ unless_refused result image.now out.old }
{
    code(job::tpal_image_rewrite(image, out))
}

// Starts a job, given by its bytes, and carries out one pick for each byte of the order; then writes the whole state into `state`, which
// has 83,992 bytes (15). A refusal leaves `state` as it was.
#[unsafe(no_mangle)]
pub extern "C" fn tpal_replay(job: &[u8], order: &[u8], state: &mut [u8]) -> u8
    ensures value { result ≡ replay_no job.now (length state.old) }
    ensures state_after { state.new ≡ unless_refused result (state_bytes (replay_of job.now order.now)) state.old }
    ensures whatever_the_order { result ≡ 0 → WhateverTheOrder (job_in job.now) (start_on (job_in job.now) (empty 0 0)) order.now }
{
    code(job::tpal_replay(job, order, state))
}

// Runs a job, given by its bytes, with this budget, and writes its report into `out`, which has 424 bytes (15). A refusal leaves `out` as
// it was.
#[unsafe(no_mangle)]
pub extern "C" fn tpal_job_run(job: &[u8], budget: u64, out: &mut [u8]) -> u8
    ensures value { result ≡ run_no job.now (length out.old) }
    ensures out_after { out.new ≡ unless_refused result (report_bytes (report_in job.now budget)) out.old }
{
    code(job::tpal_job_run(job, budget, out))
}

// Runs a job, given by its bytes, in rounds on 1 to 8 lanes (41), at most so many, and writes its report and the rounds into `out`, which has
// 432 bytes (15). A refusal leaves `out` as it was.
#[unsafe(no_mangle)]
pub extern "C" fn tpal_job_dispatch(job: &[u8], lanes: u64, rounds: u64, out: &mut [u8]) -> u8
    ensures value { result ≡ dispatch_job_no job.now lanes (length out.old) }
    ensures out_after { out.new ≡ unless_refused result (rounds_report_in job.now lanes rounds) out.old }
{
    code(job::tpal_job_dispatch(job, lanes, rounds, out))
}

// What the run program prints for a job: the report's text, or its refusal. It goes to the front of `out`, which has 1,024 bytes, and the
// answer is its length; a buffer of another length stays as it was, and the answer is 0.
#[unsafe(no_mangle)]
pub extern "C" fn tpal_job_text(job: &[u8], budget: u64, out: &mut [u8]) -> u64
    ensures value { result ≡ text_length job.now budget (length out.old) }
    ensures out_after { out.new ≡ text_stored job.now budget out.old }
{
    job::tpal_job_text(job, budget, out).unwrap_or(0) as u64
}

// ---- A job in steps

// Reads an image into a program buffer of 47,128 bytes (15). A refusal leaves `program` as it was.
#[unsafe(no_mangle)]
pub extern "C" fn tpal_program_read(image: &[u8], program: &mut [u8]) -> u8
    ensures value { result ≡ read_no image.now (length program.old) }
    ensures program_after { program.new ≡ program_after image.now program.old }
{
    code(job::tpal_program_read(image, program))
}

// Writes a program buffer to an image of its length (15). A refusal leaves `image` as it was.
#[unsafe(no_mangle)]
pub extern "C" fn tpal_program_write(program: &[u8], image: &mut [u8]) -> u8
    ensures value { result ≡ written_no program.now (length image.old) }
    ensures image_after { image.new ≡ image_after program.now image.old }
{
    code(job::tpal_program_write(program, image))
}

// Starts a job: `state`, 83,992 bytes (15), then holds its state. A refusal leaves `state` as it was.
#[unsafe(no_mangle)]
pub extern "C" fn tpal_start(
    program: &[u8],
    places: u64,
    interval: u64,
    registers: &[u8],
    words: &[u8],
    state: &mut [u8],
) -> u8
    ensures value { result ≡ started_no program.now places interval registers.now words.now (length state.old) }
    ensures state_after { state.new ≡ state_after_start program.now places interval registers.now words.now state.old }
{
    code(job::tpal_start(program, places, interval, registers, words, state))
}

// One pick of a slot on the state that the bytes stand for; they then are the new state's. A refusal leaves them as they were.
#[unsafe(no_mangle)]
pub extern "C" fn tpal_pick(program: &[u8], words: &[u8], slot: u64, state: &mut [u8]) -> u8
    ensures value { result ≡ picked_no program.now words.now slot state.old }
    ensures state_after { state.new ≡ state_after_pick program.now words.now slot state.old }
{
    code(job::tpal_pick(program, words, slot, state))
}

// A run on the state that the bytes stand for; they then are the new state's, and `report`, 424 bytes (15), has this run's picks. A
// refusal leaves both as they were.
#[unsafe(no_mangle)]
pub extern "C" fn tpal_run(
    program: &[u8],
    words: &[u8],
    budget: u64,
    state: &mut [u8],
    report: &mut [u8],
) -> u8
    ensures value { result ≡ ran_no program.now words.now state.old (length report.old) }
    ensures state_after { state.new ≡ state_after_run program.now words.now budget state.old (length report.old) }
    ensures report_after { report.new ≡ report_after_run program.now words.now budget state.old report.old }
{
    code(job::tpal_run(program, words, budget, state, report))
}
