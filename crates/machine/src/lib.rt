// The machine: start, pick, run and dispatch, each a method that takes the state by value and hands the new one back. Each goes through one that
// changes the state where it stands, and leaves it as it was where it is refused.
#![tactic(auto)]

ghost use Rattle.std.specs.Prelude.{◌≡◌};
ghost use Rattle.image.specs.Refusals.{no_of};
ghost use Rattle.machine.specs.Starting.{start_no, started};
ghost use Rattle.machine.specs.Picking.{pick_no, picked};
ghost use Rattle.machine.specs.Running.{outcome, outcome_of};
ghost use Rattle.machine.specs.Dispatching.{dispatched, dispatched_of};

pub mod dispatch;
pub mod pick;
mod run;
pub mod start;

use drive::State;
use image::refusal::Refusal;

// A job's state, with the methods. A type's methods stand in its own crate, and the loop that they call is below them: so the state is a
// type of the loop's crate, and this one is around it.
#[derive(Clone, Copy, Debug, PartialEq, Eq)]
pub struct Machine {
    pub state: State,
}

// What a run answers: the picks carried out, and whether the job has ended or the budget is spent.
#[derive(Clone, Copy, Debug, PartialEq, Eq)]
pub struct Ran {
    pub picks: u64,
    pub ended: bool,
}

// What the dispatcher answers: the rounds begun, the picks carried out, and whether the job has ended or is spent.
#[derive(Clone, Copy, Debug, PartialEq, Eq)]
pub struct Rounds {
    pub rounds: u64,
    pub picks: u64,
    pub ended: bool,
}

// What a method hands back: the new state beside the answer. The state comes first, so that it is copied aligned.
#[derive(Clone, Copy, Debug, PartialEq, Eq)]
pub struct Answered<T> {
    pub machine: Machine,
    pub answer: Result<T, Refusal>,
}

// The state is handed in and the new one handed back; a refused call hands back the old one.
impl Machine {
    // A fresh start of a job.
    pub fn start(
        self,
        cells: &[u64],
        places: u64,
        interval: u64,
        registers: &[i64],
        words: &[i64],
    ) -> Answered<()>
        ensures value { no_of result.answer ≡ start_no cells.now places interval registers.now words.now }
        ensures state_value { result.machine.state ≡ started self.state cells.now places interval registers.now words.now }
    {
        let mut machine = self;
        let answer = machine.start_in_place(cells, places, interval, registers, words);
        Answered { machine, answer }
    }

    // One instruction of the slot's task.
    pub fn pick(self, cells: &[u64], words: &[i64], slot: u64) -> Answered<()>
        ensures value { no_of result.answer ≡ pick_no cells.now words.now self.state slot }
        ensures state_value { result.machine.state ≡ picked cells.now words.now self.state slot }
    {
        let mut machine = self;
        let answer = machine.pick_in_place(cells, words, slot);
        Answered { machine, answer }
    }

    // Passes over the slots until the job has ended, the budget's picks are carried out, or the work stands at its limit.
    pub fn run(self, cells: &[u64], words: &[i64], budget: u64) -> Answered<Ran>
        ensures { outcome_of result.machine result.answer ≡ outcome cells.now words.now self.state budget }
    {
        let mut machine = self;
        let answer = machine.run_in_place(cells, words, budget);
        Answered { machine, answer }
    }

    // Rounds on so many lanes, each a pick of the first tasks that run at its start, until the job has ended, the budget's rounds are begun, or
    // the work stands at its limit.
    pub fn dispatch(self, cells: &[u64], words: &[i64], lanes: u64, budget: u64) -> Answered<Rounds>
        ensures { dispatched_of result.machine result.answer ≡ dispatched cells.now words.now self.state lanes budget }
    {
        let mut machine = self;
        let answer = machine.dispatch_in_place(cells, words, lanes, budget);
        Answered { machine, answer }
    }
}
