// The course that the loop follows. It consists of stretches, each a walk over slots, and the loop asks for the next one when a walk is over.
ghost use Rattle.std.specs.Prelude.{◌≡◌, drop};
ghost use Rattle.turns.specs.Stretches.{stop_at, nowhere, stretch_of, walk_from, next_pass, next_listed, next_round, next_stretch, lanes_of, rounds_of};

use crate::rows;

// Passes over the slots, from a slot on and for at most so many picks: one stretch. Or the slots of an order: for each of them that the
// state has a stretch of one look. Or rounds on so many lanes, at most so many: a stretch goes on from one to the next for as long as they
// take the same tasks.
#[derive(Clone, Copy, Debug, PartialEq, Eq)]
pub enum Course {
    Passes(usize, u64),
    Listed,
    Rounds(u64, u64),
}

// Where the loop stands: the slot that it looks at next, the places ahead that it may go by without a pick, the work at which the stretch
// stops, and how many stretches (of an order: slots; of rounds: rounds) are begun. Along rounds also the row of slots that each of them
// takes, those left of the present one, and the last round that takes them; other courses have no row.
#[derive(Clone, Copy, Debug, PartialEq, Eq)]
pub struct Position {
    pub slot: usize,
    pub ahead: u64,
    pub until: u32,
    pub begun: usize,
    pub row: u64,
    pub rest: u64,
    pub last: u64,
}

// The next stretch's first position; or it is over, so many stretches begun.
#[derive(Clone, Copy, Debug, PartialEq, Eq)]
pub enum Next {
    First(Position),
    Over(usize),
}

impl Position {
    // Before the first stretch, and behind the last.
    pub fn nowhere(begun: usize, until: u32) -> Position
        ensures { result ≡ nowhere begun until }
    {
        Position {
            slot: 0,
            ahead: 0,
            until,
            begun,
            row: 0,
            rest: 0,
            last: 0,
        }
    }

    // On a stretch without a row.
    fn walking(slot: usize, ahead: u64, until: u32, begun: usize) -> Position
        ensures { result ≡ (walk_from slot ahead until begun).first }
    {
        Position {
            slot,
            ahead,
            ..Position::nowhere(begun, until)
        }
    }
}

// The work after so many picks, at most the limit (question 24).
fn stop_at(work: u32, picks: u64) -> u32
    ensures { result ≡ stop_at work picks }
{
    let room = task::WORK_LIMIT - work;
    if picks < room as u64 {
        return work + (picks as u32);
    }
    task::WORK_LIMIT
}

fn next_pass(slot: usize, picks: u64, begun: usize, places: u64, work: u32) -> Next
    ensures { stretch_of result ≡ next_pass slot picks begun places work }
{
    if begun != 0 {
        return Next::Over(begun);
    }
    Next::First(Position::walking(slot, places, stop_at(work, picks), 1))
}

// A byte that names no slot of the state (question 21) is passed over.
fn next_listed(order: &[u8], begun: usize, places: u64, work: u32) -> Next
    ensures { stretch_of result ≡ next_listed (drop begun order.now) begun places work }
{
    for at in begun..order.len() {
        let slot = u64::from(order[at]);
        if slot < places {
            return Next::First(Position::walking(slot as usize, 1, stop_at(work, 1), at + 1));
        }
    }
    Next::Over(begun.max(order.len()))
}

// Rounds begin where the job has not ended and the work is below its limit.
fn next_round(rounds: u64, begun: usize, work: u32, ended: bool, row: u64) -> Next
    ensures { stretch_of result ≡ next_round rounds begun work ended row }
{
    if ended {
        return Next::Over(begun);
    }
    if task::WORK_LIMIT <= work {
        return Next::Over(begun);
    }
    if rounds <= begun as u64 {
        return Next::Over(begun);
    }
    Next::First(Position {
        slot: rows::slot_in(row),
        ahead: 1,
        until: task::WORK_LIMIT,
        begun: begun + 1,
        row,
        rest: row,
        last: rounds,
    })
}

impl Course {
    // The row is that of the state, and counts along rounds alone.
    pub fn next_stretch(
        self,
        order: &[u8],
        begun: usize,
        places: u64,
        work: u32,
        ended: bool,
        row: u64,
    ) -> Next
        ensures { stretch_of result ≡ next_stretch self order.now begun places work ended row }
    {
        match self {
            Course::Passes(slot, picks) => next_pass(slot, picks, begun, places, work),
            Course::Listed => next_listed(order, begun, places, work),
            Course::Rounds(_, rounds) => next_round(rounds, begun, work, ended, row),
        }
    }

    // The lanes of a round: how many slots its row has at most. Other courses have none.
    pub fn lanes(self) -> u64
        ensures { result ≡ lanes_of self }
    {
        match self {
            Course::Passes(_, _) | Course::Listed => 0,
            Course::Rounds(lanes, _) => lanes,
        }
    }

    // The rounds, where so many stretches are begun.
    pub fn rounds(self, begun: usize) -> u64
        ensures { result ≡ rounds_of self begun }
    {
        match self {
            Course::Passes(_, _) | Course::Listed => 0,
            Course::Rounds(_, _) => begun as u64,
        }
    }
}
