// A job started, over bytes.
ghost use Rattle.std.specs.Prelude.{◌≡◌, ◌&&◌, ◌*◌, ◌%◌, eqb, leb, length};
ghost use Rattle.image.specs.Refusals.{no_of};
ghost use Rattle.machine.specs.Starting.{start_no, start_no_by, started};
ghost use Rattle.state.specs.State.{state_length};
ghost use Rattle.steps.specs.Buffers.{cells_of, integers_of, program_bytes};
ghost use Rattle.steps.specs.Calls.{started_no, state_after_start};

use crate::buffers;
use image::layout::PROGRAM_CELLS;
use image::refusal::Refusal;
use machine::start::MOST_WORDS;
use machine::{Answered, Machine};
use state::STATE_BYTES;

// Whether each buffer has its length, and the words no more than their most. Of the buffers only their lengths count.
fn lengths_fit(program: usize, registers: usize, words: usize, lent: usize) -> bool
    ensures { result ≡ (eqb program program_bytes && (eqb (words % 8) 0 && (eqb registers 128 && (leb words 32768 && eqb lent state_length)))) }
{
    let others = registers == 128 && words <= 32768 && lent == STATE_BYTES;
    buffers::lengths_fit(program, words, others)
}

// Start's questions, where a buffer has not its length. Of registers and words only their number counts.
fn ask_start(
    program: &[u8],
    places: u64,
    interval: u64,
    registers: usize,
    words: usize,
) -> Result<(), Refusal>
    ensures { no_of result ≡ start_no_by (cells_of program.now) places interval registers words }
{
    buffers::ask_cells(program)?;
    machine::start::ask_settings(places, interval, registers, words, program.len() / 8)
}

// The start itself, whose words go to the lent slice. `start` alone calls it, with buffers of their lengths.
fn start_on(
    program: &[u8],
    places: u64,
    interval: u64,
    registers: &[u8],
    words: &[u8],
    held: &mut [i64],
    machine: Machine,
) -> Answered<()>
    requires { (length program.now ≡ program_bytes) × (length registers.now ≡ 128) × (length words.now ≡ 8 * length held.old) }
    ensures value { no_of result.answer ≡ start_no (cells_of program.now) places interval (integers_of registers.now) (integers_of words.now) }
    ensures state_value { result.machine.state ≡ started machine.state (cells_of program.now) places interval (integers_of registers.now) (integers_of words.now) }
{
    let mut cells = [0u64; PROGRAM_CELLS];
    buffers::read_cells(program, &mut cells);
    let mut first = [0i64; 16];
    state::numbers::read_integers(registers, 0, &mut first);
    state::numbers::read_integers(words, 0, held);
    machine.start(&cells, places, interval, &first, held)
}

// Starts a job and writes its state into the lent buffer, 83,992 bytes; a refusal leaves the buffer as it was.
pub fn start(
    program: &[u8],
    places: u64,
    interval: u64,
    registers: &[u8],
    words: &[u8],
    lent: &mut [u8],
) -> Result<(), Refusal>
    ensures value { no_of result ≡ started_no program.now places interval registers.now words.now (length lent.old) }
    ensures lent_after { lent.new ≡ state_after_start program.now places interval registers.now words.now lent.old }
{
    if !lengths_fit(program.len(), registers.len(), words.len(), lent.len()) {
        ask_start(
            program,
            places,
            interval,
            registers.len() / 8,
            words.len() / 8,
        )?;
        return Err(Refusal::Buffer);
    }
    let mut held = [0i64; MOST_WORDS];
    let count = words.len() / 8;
    let Answered { machine, answer } = start_on(
        program,
        places,
        interval,
        registers,
        words,
        &mut held[..count],
        Machine::blank(),
    );
    answer?;
    state::writer::write_state(&machine.state, lent);
    Ok(())
}
