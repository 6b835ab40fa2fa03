// Where a slot stands in the state's bytes.
ghost use Rattle.std.specs.Prelude.{◌≡◌, ◌+◌, ◌≤◌, ◌<◌};
ghost use Rattle.state.specs.State.{state_length};
ghost use Rattle.state.specs.Places.{slot_bytes, slot_place};

use crate::SLOT_BYTES;

// The slot's first byte.
pub fn slot_place(k: usize) -> usize
    requires { k < 64 }
    ensures { (result ≡ slot_place k) × (result + slot_bytes ≤ state_length) }
{
    24 + SLOT_BYTES * k
}
