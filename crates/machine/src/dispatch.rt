// The dispatcher: its questions, put once, and the loop over the slots in rounds.
ghost use Rattle.std.specs.Prelude.{◌≡◌};
ghost use Rattle.image.specs.Refusals.{no_of};
ghost use Rattle.machine.specs.Dispatching.{lanes_allowed, dispatch_no_by, dispatched, dispatched_of};

use crate::{Machine, Rounds, pick};
use drive::{State, picks};
use image::refusal::Refusal;
use turns::course::Course;

// Question 41 of document 02.
pub fn allows_lanes(lanes: u64) -> bool
    ensures { result ≡ lanes_allowed lanes }
{
    matches!(lanes, 1..=8)
}

// Of the words only their number counts.
#[tactic(auto, using(crate::proofs::PickLaws::call_lent), unfolding(crate::specs::Dispatching::dispatch_no_by, image::specs::Questions::or_else))]
fn ask_dispatch(cells: &[u64], words: usize, lanes: u64, m: &State) -> Result<(), Refusal>
    ensures { no_of result ≡ dispatch_no_by cells.now words lanes m.now }
{
    pick::ask_call(cells, words)?;
    if !allows_lanes(lanes) {
        return Err(Refusal::Lanes);
    }
    if !pick::meets_shape(cells, m) {
        return Err(Refusal::Shape);
    }
    Ok(())
}

impl Machine {
    // Rounds on so many lanes, each a pick of the first tasks that run at its start, until the job has ended, the budget's rounds are begun, or
    // the work stands at its limit.
    pub fn dispatch_in_place(
        &mut self,
        cells: &[u64],
        words: &[i64],
        lanes: u64,
        budget: u64,
    ) -> Result<Rounds, Refusal>
        ensures { dispatched_of self.new result ≡ dispatched cells.now words.now self.old.state lanes budget }
    {
        ask_dispatch(cells, words.len(), lanes, &self.state)?;
        // the records are looked over in slot order: where no task is taken none runs, and the job has ended
        if looks::lanes_used(&self.state.tasks, lanes) == 0 {
            return Ok(Rounds {
                rounds: 0,
                picks: 0,
                ended: pick::has_ended(&self.state),
            });
        }
        let counts = picks::drive(
            cells,
            words,
            &mut self.state,
            &picks::NO_ORDER,
            Course::Rounds(lanes, budget),
        );
        Ok(Rounds {
            rounds: counts.rounds,
            picks: counts.picks,
            ended: pick::has_ended(&self.state),
        })
    }
}
