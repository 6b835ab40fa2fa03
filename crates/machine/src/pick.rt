// Pick: its questions, and one instruction issued.
ghost use Rattle.std.specs.Prelude.{◌≡◌, length, OnOk};
ghost use Rattle.image.specs.Layout.{program_cells, program_of};
ghost use Rattle.image.specs.Questions.{or_else, program_no};
ghost use Rattle.image.specs.Refusals.{no_of};
ghost use Rattle.drive.specs.Ending.{job_ended};
ghost use Rattle.drive.specs.Slots.{Sized};
ghost use Rattle.drive.specs.Shape.{shape};
ghost use Rattle.drive.specs.Issue.{slot_no};
ghost use Rattle.machine.specs.Picking.{call_no, state_no_by, pick_no, picked};

use crate::{Machine, start};
use drive::{State, ending, picks};
use image::refusal::Refusal;
use shape::{registers, slots, stacks, tasks, tiling};
use task::running::is_running;
use turns::course::Course;

// Whether the job has ended: read off slot 0. With the record that it reads of a lent state, the lengths of the arrays are known.
pub(crate) fn has_ended(m: &State) -> bool
    ensures value { result ≡ job_ended m.now }
    ensures sized { Sized m.now }
{
    ending::has_ended(ending::end_at(m.tasks[0].depth, m.tasks[0].status))
}

// Questions 21 to 24. A state of the shape has at most 64 places.
#[tactic(auto, unfolding(drive::specs::Issue::slot_no))]
fn ask_slot(m: &State, slot: u64) -> Result<(), Refusal>
    ensures value { no_of result ≡ slot_no m.now slot }
    ensures sized { Sized m.now }
{
    if m.places <= slot {
        return Err(Refusal::Slot);
    }
    if has_ended(m) {
        return Err(Refusal::Ended);
    }
    if 64 <= slot {
        return Err(Refusal::NotRunning);
    }
    if !is_running(m.tasks[slot as usize].status) {
        return Err(Refusal::NotRunning);
    }
    if task::WORK_LIMIT <= m.work {
        return Err(Refusal::Work);
    }
    Ok(())
}

// Question 20. The caller has put the program's questions, and the one on the buffer's length.
pub fn meets_shape(cells: &[u64], m: &State) -> bool
    requires { (program_no cells.now ≡ 0) × (length cells.now ≡ program_cells) }
    ensures { result ≡ shape (program_of cells.now) m.now }
{
    let Some(rank) = start::rank_of(m.places) else {
        return false;
    };
    if !start::allows_interval(u64::from(m.interval)) {
        return false;
    }
    let grades = registers::grade_slots(cells, m.bank);
    let reaches = stacks::reach_slots(cells, m.stacks);
    let version = image::layout::version_of(cells);
    let codes = slots::code_slots(cells, version, rank, m.tasks, grades, reaches);
    if !tiling::is_tree(&codes, rank) {
        return false;
    }
    tasks::counts_fit(m.work, m.tasks)
}

// The questions about program and words that every call on a state puts. Of the words only their number counts.
#[tactic(auto, unfolding(image::specs::Questions::or_else))]
pub fn ask_call(cells: &[u64], words: usize) -> Result<(), Refusal>
    ensures { no_of result ≡ call_no cells.now words }
{
    image::questions::ask_program(cells)?;
    if start::MOST_WORDS < words {
        return Err(Refusal::Words);
    }
    if cells.len() != image::layout::PROGRAM_CELLS {
        return Err(Refusal::Buffer);
    }
    Ok(())
}

// The questions of pick and run about program, words and state.
#[tactic(auto, using(crate::proofs::PickLaws::call_lent), unfolding(crate::specs::Picking::state_no_by, image::specs::Questions::or_else))]
pub fn ask_state(cells: &[u64], words: usize, m: &State) -> Result<(), Refusal>
    ensures { no_of result ≡ state_no_by cells.now words m.now }
{
    ask_call(cells, words)?;
    if !meets_shape(cells, m) {
        return Err(Refusal::Shape);
    }
    Ok(())
}

// All questions of pick.
#[tactic(auto, unfolding(image::specs::Questions::or_else))]
fn ask_pick(cells: &[u64], words: usize, slot: u64, m: &State) -> Result<(), Refusal>
    ensures value { no_of result ≡ or_else (state_no_by cells.now words m.now) (slot_no m.now slot) }
    ensures sized { OnOk result (Sized m.now) }
{
    ask_state(cells, words, m)?;
    ask_slot(m, slot)
}

impl Machine {
    // One instruction of the slot's task.
    pub fn pick_in_place(&mut self, cells: &[u64], words: &[i64], slot: u64) -> Result<(), Refusal>
        ensures value { no_of result ≡ pick_no cells.now words.now self.old.state slot }
        ensures state_after { self.new.state ≡ picked cells.now words.now self.old.state slot }
    {
        ask_pick(cells, words.len(), slot, &self.state)?;
        picks::drive(
            cells,
            words,
            &mut self.state,
            &picks::NO_ORDER,
            Course::Passes(slot as usize, 1),
        );
        Ok(())
    }
}
