// The walk along a stretch: whether it goes on, and where it stands after a look or a pick. A state of the shape has at most 64 slots, and no
// task more places: drive, which alone calls these functions, ensures that of slots and places.
ghost use Rattle.std.specs.Prelude.{◌≡◌, ◌<◌, ◌≤◌};
ghost use Rattle.turns.specs.Walk.{walks_on, behind, gone_by, passed_on, goes_again, round_on, picked_on, stopped_at, width};

use crate::course::Position;
use crate::rows;

// The slot behind w places of slot k; 0 behind the last.
fn behind_slot(places: u64, k: usize, w: u64) -> usize
    requires { (k < 64) × (w ≤ 64) }
    ensures { result ≡ behind places k w }
{
    let next = k + (w as usize);
    if (next as u64) < places {
        return next;
    }
    0
}

impl Position {
    // Whether it goes on: nothing has stopped it, picks are left, and places to go by.
    pub fn walks_on(self, stopped: bool, work: u32) -> bool
        ensures { result ≡ walks_on stopped work self }
    {
        !stopped && (work < self.until && 0 < self.ahead)
    }

    // Nothing runs in w places.
    pub fn gone_by(self, places: u64, w: u64) -> Position
        requires { (self.slot < 64) × (w ≤ 64) }
        ensures { result ≡ gone_by places w self }
    {
        Position {
            slot: behind_slot(places, self.slot, w),
            ahead: self.ahead.saturating_sub(w),
            ..self
        }
    }

    // A pick of passes, whose task runs on in its w places: it is looked at again where it runs alone, since its places are all that are ahead.
    fn passed_on(self, places: u64, w: u64) -> Position
        requires { (self.slot < 64) × (w ≤ 64) }
        ensures { result ≡ passed_on places w self }
    {
        if self.ahead <= w {
            return self;
        }
        Position {
            slot: behind_slot(places, self.slot, w),
            ahead: places,
            ..self
        }
    }

    // Whether another round takes the same row.
    fn goes_again(self, work: u32) -> bool
        ensures { result ≡ goes_again work self }
    {
        (self.begun as u64) < self.last && work < self.until
    }

    // A pick of a round, whose task runs on: the next slot that is left, or the row's first again.
    fn round_on(self, work: u32) -> Position
        ensures { result ≡ round_on work self }
    {
        let rest = self.rest / 128;
        if 0 < rest {
            return Position {
                slot: rows::slot_in(rest),
                rest,
                ..self
            };
        }
        if self.goes_again(work) {
            return Position {
                slot: rows::slot_in(self.row),
                begun: self.begun + 1,
                rest: self.row,
                ..self
            };
        }
        Position { ahead: 0, ..self }
    }

    // The slot's task was picked and runs on in its w places; the work counts the pick.
    pub fn picked_on(self, places: u64, work: u32, w: u64) -> Position
        requires { (self.slot < 64) × (w ≤ 64) }
        ensures { result ≡ picked_on places work w self }
    {
        if 0 < self.row {
            return self.round_on(work);
        }
        self.passed_on(places, w)
    }

    // The slot's task was picked, and forked or ended its side; w of its places are gone by. The tasks of later rounds are others.
    pub fn stopped_at(self, places: u64, w: u64) -> Position
        requires { (self.slot < 64) × (w ≤ 64) }
        ensures { result ≡ stopped_at places w self }
    {
        if self.row == 0 {
            return Position {
                slot: behind_slot(places, self.slot, w),
                ahead: places,
                ..self
            };
        }
        let p = Position { last: 0, ..self };
        let rest = p.rest / 128;
        if 0 < rest {
            return Position {
                slot: rows::slot_in(rest),
                rest,
                ..p
            };
        }
        Position { ahead: 0, ..p }
    }
}

// The places of a slot where nothing runs: an ended task's, or the slot alone.
pub fn width_of(places: u64) -> u64
    ensures { result ≡ width places }
{
    places.max(1)
}
