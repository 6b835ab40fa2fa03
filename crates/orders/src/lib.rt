// Whatever the order of picks: the statements stand in specs/, the theorems in proofs/. `replay` carries an order out.
#![tactic(auto)]

ghost use Rattle.std.specs.Prelude.{◌≡◌};
ghost use Rattle.image.specs.Refusals.{no_of};
ghost use Rattle.machine.specs.Starting.{start_no, empty};
ghost use Rattle.orders.specs.Demand.{WhateverTheOrder, start_on};
ghost use Rattle.orders.specs.Replay.{job_of, replayed};

use drive::picks::drive;
use machine::{Answered, Machine};
use turns::course::Course;

// Starts a job and carries out one pick for each byte of the order, refused ones passed over. The refusal is start's; a refused start hands
// back a blank state. Otherwise whatever the order, demand 3 holds of the state.
pub fn replay(
    cells: &[u64],
    places: u64,
    interval: u64,
    registers: &[i64],
    words: &[i64],
    order: &[u8],
) -> Answered<()>
    ensures value { no_of result.answer ≡ start_no cells.now places interval registers.now words.now }
    ensures state_value { result.machine.state ≡ replayed (no_of result.answer) (job_of cells.now places interval registers.now words.now) order.now }
    ensures whatever_the_order { no_of result.answer ≡ 0 → WhateverTheOrder (job_of cells.now places interval registers.now words.now)
        (start_on (job_of cells.now places interval registers.now words.now) (empty 0 0)) order.now }
{
    let Answered {
        mut machine,
        answer,
    } = Machine::blank().start(cells, places, interval, registers, words);
    if let Err(refusal) = answer {
        return Answered {
            machine,
            answer: Err(refusal),
        };
    }
    drive(cells, words, &mut machine.state, order, Course::Listed);
    Answered { machine, answer }
}
