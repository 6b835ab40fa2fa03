// Start: its questions, and the state that it makes.
ghost use Rattle.std.specs.Prelude.{◌≡◌, ◌≤◌, length, MatchOption};
ghost use Rattle.image.specs.Refusals.{no_of};
ghost use Rattle.drive.specs.Settings.{rank, interval_allowed};
ghost use Rattle.machine.specs.Starting.{settings_no, start_no_by, start_no, empty, fresh, started};

use crate::Machine;
use drive::State;
use drive::slots::{unforked, vacant_task};
use image::refusal::Refusal;
use task::{Register, Status, Value};

// The most words of a call record (question 14).
pub const MOST_WORDS: usize = 4096;

// The power of two that P is, where P is allowed.
#[tactic(auto, unfolding(drive::specs::Settings::rank))]
pub fn rank_of(places: u64) -> Option<usize>
    ensures { MatchOption result (rank places ≡ 7) (λ h. (h ≡ rank places) × (h ≤ 6)) }
{
    match places {
        1 => Some(0),
        2 => Some(1),
        4 => Some(2),
        8 => Some(3),
        16 => Some(4),
        32 => Some(5),
        64 => Some(6),
        _ => None,
    }
}

// Question 12.
pub fn allows_interval(interval: u64) -> bool
    ensures { result ≡ interval_allowed interval }
{
    matches!(interval, 0 | 8..=65535)
}

// Start's own questions. Of registers, words and the program buffer only their number counts.
pub fn ask_settings(
    places: u64,
    interval: u64,
    registers: usize,
    words: usize,
    cells: usize,
) -> Result<(), Refusal>
    ensures { no_of result ≡ settings_no places interval registers words cells }
{
    if rank_of(places).is_none() {
        return Err(Refusal::Places);
    }
    if !allows_interval(interval) {
        return Err(Refusal::Interval);
    }
    if registers != 16 {
        return Err(Refusal::Registers);
    }
    if MOST_WORDS < words {
        return Err(Refusal::Words);
    }
    if cells != image::layout::PROGRAM_CELLS {
        return Err(Refusal::Buffer);
    }
    Ok(())
}

// Start's questions: the program's first.
#[tactic(auto, unfolding(crate::specs::Starting::start_no_by, image::specs::Questions::or_else))]
pub fn ask_start(
    cells: &[u64],
    places: u64,
    interval: u64,
    registers: usize,
    words: usize,
) -> Result<(), Refusal>
    ensures { no_of result ≡ start_no_by cells.now places interval registers words }
{
    image::questions::ask_program(cells)?;
    ask_settings(places, interval, registers, words, cells.len())
}

// A state with no task.
fn empty_state(places: u64, interval: u16) -> State
    ensures { result ≡ empty places interval }
{
    let zero = Register {
        value: Value::Int(0),
    };
    let vacant = vacant_task();
    let bank = [zero; task::BANK];
    let stacks = [zero; task::STACKS];
    let tasks = [vacant; 64];
    State {
        places,
        interval,
        work: 0,
        bank,
        stacks,
        tasks,
    }
}

// One task in slot 0, with the start registers, all places, and block 0 to begin with. The arrays are filled before the state is made, so
// that it is not copied. Start and `job` call it, after start's questions; start is lent the registers as a slice, since question 13 asks its length.
pub fn fresh_state(places: u64, interval: u16, registers: &[i64]) -> State
    requires { length registers.now ≡ 16 }
    ensures { result ≡ fresh places interval registers.now }
{
    let zero = Register {
        value: Value::Int(0),
    };
    let vacant = vacant_task();
    let mut tasks = [vacant; 64];
    tasks[0] = unforked(Status::Running, places);
    let mut bank = [zero; task::BANK];
    for i in 0..16 {
        bank[i] = Register {
            value: Value::Int(registers[i]),
        };
    }
    let stacks = [zero; task::STACKS];
    State {
        places,
        interval,
        work: 0,
        bank,
        stacks,
        tasks,
    }
}

// Program, settings, registers and words are arguments by themselves, as docs/machine.md names them, and as `started` and demand 3 take them.
impl Machine {
    // A state that holds no job: it fails the shape test.
    pub fn blank() -> Machine
        ensures { result.state ≡ empty 0 0 }
    {
        Machine {
            state: empty_state(0, 0),
        }
    }

    // A fresh start of a job.
    #[tactic(auto, using(crate::proofs::StartLaws::start_accepted, drive::proofs::Intervals::interval_fits), unfolding(image::specs::Doors::unless_refused))]
    pub fn start_in_place(
        &mut self,
        cells: &[u64],
        places: u64,
        interval: u64,
        registers: &[i64],
        words: &[i64],
    ) -> Result<(), Refusal>
        ensures value { no_of result ≡ start_no cells.now places interval registers.now words.now }
        ensures state_after { self.new.state ≡ started self.old.state cells.now places interval registers.now words.now }
    {
        ask_start(cells, places, interval, registers.len(), words.len())?;
        // no bit is lost: question 12. By try_from it would have an Err that cannot come
        self.state = fresh_state(places, interval as u16, registers);
        Ok(())
    }
}
