// A row of slots, which rounds take one after the other. One number holds it, since an array would be copied with the position that the loop
// stands at: seven bits for each slot, the first lowest, and one more than the slot, so that 0 is no slot. So a row that is used up is 0: an
// Option of a row would be a word more to copy, and still have the 0 in it.
ghost use Rattle.std.specs.Prelude.{◌≡◌, ◌<◌, ◌≤◌};
ghost use Rattle.turns.specs.Rows.{slot_in, no_slots, with_slot, looks_on};

// A row that is being made: its slots so far, what the next one counts, and the lanes that are left.
#[derive(Clone, Copy, Debug, PartialEq, Eq)]
pub struct Row {
    pub slots: u64,
    pub unit: u64,
    pub lanes: u64,
}

impl Row {
    pub fn new(lanes: u64) -> Row
        ensures { result ≡ no_slots lanes }
    {
        Row {
            slots: 0,
            unit: 1,
            lanes,
        }
    }

    // Whether another slot is looked at: a lane is left, and a slot.
    pub fn looks_on(self, look: usize, places: u64) -> bool
        ensures { result ≡ looks_on self look places }
    {
        0 < self.lanes && (look as u64) < places
    }

    // Drive alone calls it, with a slot of the state and one lane of at most eight left: so the row has seven slots at most.
    pub fn with_slot(self, slot: usize) -> Row
        requires { (0 < self.lanes) × (slot < 64) × (self.slots < self.unit) × (self.unit ≤ 562949953421312) }
        ensures { result ≡ with_slot self slot }
    {
        Row {
            slots: self.slots + self.unit * ((slot as u64) + 1),
            unit: self.unit * 128,
            lanes: self.lanes - 1,
        }
    }
}

// The first slot of a row that has one.
pub fn slot_in(row: u64) -> usize
    ensures { result ≡ slot_in row }
{
    (row.saturating_sub(1) % 128) as usize
}
