// The budgeted run: its questions, put once, and the loop over the slots.
ghost use Rattle.std.specs.Prelude.{◌≡◌};
ghost use Rattle.machine.specs.Running.{outcome, outcome_of};

use crate::{Machine, Ran, pick};
use drive::picks;
use image::refusal::Refusal;
use turns::course::Course;

impl Machine {
    // Passes over the slots until the job has ended, the budget's picks are carried out, or the work stands at its limit.
    pub fn run_in_place(
        &mut self,
        cells: &[u64],
        words: &[i64],
        budget: u64,
    ) -> Result<Ran, Refusal>
        ensures { outcome_of self.new result ≡ outcome cells.now words.now self.old.state budget }
    {
        pick::ask_state(cells, words.len(), &self.state)?;
        let counts = picks::drive(
            cells,
            words,
            &mut self.state,
            &picks::NO_ORDER,
            Course::Passes(0, budget),
        );
        Ok(Ran {
            picks: counts.picks,
            ended: pick::has_ended(&self.state),
        })
    }
}
