// A job gone on with, over bytes: one pick, or a run.
ghost use Rattle.std.specs.Prelude.{◌≡◌, true, ◌&&◌, ◌*◌, ◌/◌, eqb, leb, length, IfErr, OnOk};
ghost use Rattle.image.specs.Refusals.{number, no_of};
ghost use Rattle.machine.specs.Starting.{most_words};
ghost use Rattle.machine.specs.Picking.{pick_no, picked};
ghost use Rattle.machine.specs.Running.{outcome, outcome_of};
ghost use Rattle.report.specs.Report.{report_length};
ghost use Rattle.state.specs.State.{state_length};
ghost use Rattle.state.specs.Reading.{stands_state};
ghost use Rattle.steps.specs.Buffers.{cells_of, integers_of, program_bytes};
ghost use Rattle.steps.specs.Calls.{is_ready, lent_no, picked_no, state_after_pick, ran_no, state_after_run, report_after_run};

use crate::buffers;
use image::layout::PROGRAM_CELLS;
use image::refusal::Refusal;
use machine::start::MOST_WORDS;
use machine::{Answered, Machine, Ran};
use report::REPORT_BYTES;
use state::STATE_BYTES;

// Whether state and report have their lengths.
fn both_fit(lent: usize, out: usize) -> bool
    ensures { result ≡ (eqb lent state_length && eqb out report_length) }
{
    lent == STATE_BYTES && out == REPORT_BYTES
}

// Whether all is there to go on with: buffers of their lengths, no more words than their most, bytes that stand for a state.
fn is_ready(fit: bool, words: usize, lent: &[u8]) -> bool
    ensures { result ≡ (fit && (leb (words / 8) most_words && stands_state lent.now)) }
{
    fit && words / 8 <= MOST_WORDS && state::reader::stands_state(lent)
}

// Asks whether all is there; `others` says whether state and report have their lengths. Where it is, the program's questions are left to the machine.
fn ask_lent(program: &[u8], words: &[u8], others: bool, lent: &[u8]) -> Result<(), Refusal>
    ensures refused { IfErr result (λ r. number r ≡ lent_no program.now words.now others lent.now) }
    ensures ready { OnOk result (is_ready program.now words.now others lent.now ≡ true) }
{
    let fit = buffers::lengths_fit(program.len(), words.len(), others);
    if is_ready(fit, words.len(), lent) {
        return Ok(());
    }
    buffers::ask_cells(program)?;
    if MOST_WORDS < words.len() / 8 {
        return Err(Refusal::Words);
    }
    if !fit {
        return Err(Refusal::Buffer);
    }
    Err(Refusal::Shape)
}

// The pick itself, whose words go to the lent slice. `pick` alone calls it, where all is ready. `run_on` and `start_on` begin alike: one function
// for that would be lent the same four buffers, and be no shorter than its calls.
fn pick_on(
    program: &[u8],
    words: &[u8],
    held: &mut [i64],
    slot: u64,
    machine: Machine,
) -> Answered<()>
    requires { (length program.now ≡ program_bytes) × (length words.now ≡ 8 * length held.old) }
    ensures value { no_of result.answer ≡ pick_no (cells_of program.now) (integers_of words.now) machine.state slot }
    ensures state_value { result.machine.state ≡ picked (cells_of program.now) (integers_of words.now) machine.state slot }
{
    let mut cells = [0u64; PROGRAM_CELLS];
    buffers::read_cells(program, &mut cells);
    state::numbers::read_integers(words, 0, held);
    machine.pick(&cells, held, slot)
}

// One instruction of the slot's task, on the state that the lent bytes stand for; they then are the new state's. A refusal leaves them as
// they were.
pub fn pick(program: &[u8], words: &[u8], slot: u64, lent: &mut [u8]) -> Result<(), Refusal>
    ensures value { no_of result ≡ picked_no program.now words.now slot lent.old }
    ensures lent_after { lent.new ≡ state_after_pick program.now words.now slot lent.old }
{
    ask_lent(program, words, lent.len() == STATE_BYTES, lent)?;
    let mut held = [0i64; MOST_WORDS];
    let count = words.len() / 8;
    let machine = Machine {
        state: state::reader::read_state(lent),
    };
    let Answered { machine, answer } = pick_on(program, words, &mut held[..count], slot, machine);
    answer?;
    state::writer::write_state(&machine.state, lent);
    Ok(())
}

// The run itself, as `pick_on`.
fn run_on(
    program: &[u8],
    words: &[u8],
    held: &mut [i64],
    budget: u64,
    machine: Machine,
) -> Answered<Ran>
    requires { (length program.now ≡ program_bytes) × (length words.now ≡ 8 * length held.old) }
    ensures { outcome_of result.machine result.answer ≡ outcome (cells_of program.now) (integers_of words.now) machine.state budget }
{
    let mut cells = [0u64; PROGRAM_CELLS];
    buffers::read_cells(program, &mut cells);
    state::numbers::read_integers(words, 0, held);
    machine.run(&cells, held, budget)
}

// Passes over the slots on the state that the lent bytes stand for; they then are the new state's, and `out` the report. A refusal leaves
// both as they were.
pub fn run(
    program: &[u8],
    words: &[u8],
    budget: u64,
    lent: &mut [u8],
    out: &mut [u8],
) -> Result<(), Refusal>
    ensures value { no_of result ≡ ran_no program.now words.now lent.old (length out.old) }
    ensures lent_after { lent.new ≡ state_after_run program.now words.now budget lent.old (length out.old) }
    ensures out_after { out.new ≡ report_after_run program.now words.now budget lent.old out.old }
{
    ask_lent(program, words, both_fit(lent.len(), out.len()), lent)?;
    let mut held = [0i64; MOST_WORDS];
    let count = words.len() / 8;
    let machine = Machine {
        state: state::reader::read_state(lent),
    };
    let Answered { machine, answer } = run_on(program, words, &mut held[..count], budget, machine);
    let ran = answer?;
    state::writer::write_state(&machine.state, lent);
    let r = report::report_of(&machine.state, ran.picks);
    report::bytes::write_report(r, out);
    Ok(())
}
