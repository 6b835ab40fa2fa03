// The walk over an image's records, blocks and then instructions, with one offset that each record moves on. Reader and image check both
// take it: it puts the questions to each record and, where `lays` says that cells are wanted, lays the record into a program buffer.
// Tried with an `Option<&mut [u64]>` in place of flag and cells: after the call only the length of what was lent in it is known, so the
// proof of `cells_after` didn't close.
ghost use Rattle.std.specs.Prelude.{◌≡◌, true, cond, [], ◌∷◌, ◌+◌, ◌-◌, ◌<◌, ◌≤◌, length};
ghost use Rattle.std.proofs.lemmas.List.Edits.{sets};
ghost use Rattle.image.specs.Layout.{block_place, instruction_place, version_in, blocks_in, instructions_in, program_cells};
ghost use Rattle.image.specs.Layout.{block_in, instruction_in, block_cells, instruction_cells, cells_in};
ghost use Rattle.image.specs.Questions.{first_no, block_no, last_opcode, instruction_no, records_no};
ghost use Rattle.image.specs.Marks.{Marked, Ended};
ghost use Rattle.image.specs.Limits.{Limited};
ghost use Rattle.image.specs.Doors.{header_no};
ghost use Rattle.image.specs.Offset.{blocks_passed, blocks_offset, instructions_offset, offset_in};
ghost use Rattle.image.specs.Refusals.{no_of};
ghost use Rattle.image.specs.Walked.{walked_no, walked_to, blocks_walked, instructions_walked, records_walked};

use crate::questions::Bounds;
use crate::refusal::Refusal;
use crate::{Block, layout, questions};

// Where the walk stopped: the first no, and the offset of what was refused.
#[derive(Clone, Copy, Debug, PartialEq, Eq)]
pub struct Stopped {
    pub refusal: Refusal,
    pub at: usize,
}

impl From<Stopped> for Refusal {
    ghost from_gives = { λ stopped refusal. refusal ≡ stopped.refusal };

    fn from(stopped: Stopped) -> Refusal {
        stopped.refusal
    }
}

// Questions 6 and 7 of block b, whose record was read; its predecessor starts at `before`.
fn ask_block_in(version: u64, image: &[u8], b: usize, before: u64, k: Block) -> Result<(), Refusal>
    requires { (header_no image.now ≡ 0) × (version ≡ version_in image.now) × (b < blocks_in image.now)
        × (k ≡ block_in (version_in image.now) image.now (block_place (version_in image.now) b))
        × (0 < b → before ≡ (block_in (version_in image.now) image.now (block_place (version_in image.now) (b - 1))).first) }
    ensures { no_of result ≡ block_no (cells_in image.now) b }
{
    let blocks = u64::from(image[5]);
    let instructions = int64::read_u16(image, 6);
    questions::ask_block_record(version, blocks, instructions, b, before, k)
}

// Lays a block into the cells from `to` on, where that is wanted.
fn lay_block(lays: bool, cells: &mut [u64], to: usize, k: Block)
    requires { lays ≡ true → to + 6 ≤ length cells.old }
    ensures { cells.new ≡ cond lays (sets cells.old to (block_cells k)) cells.old }
{
    if lays {
        layout::put_block(cells, to, k);
    }
}

// Questions 6 and 7 of all blocks. Marks the instructions that start a block, and lays the blocks, up to the first that is refused.
fn walk_blocks(
    image: &[u8],
    marks: &mut [bool],
    lays: bool,
    cells: &mut [u64],
) -> Result<usize, Stopped>
    requires { (header_no image.now ≡ 0) × Marked (cells_in image.now) 0 marks.old × (lays ≡ true → length cells.old ≡ program_cells) }
    ensures no_value { walked_no result ≡ first_no (block_no (cells_in image.now)) (blocks_in image.now) 0 }
    ensures at_value { walked_to result ≡ blocks_offset image.now }
    ensures marked { Marked (cells_in image.now) (blocks_passed image.now) marks.new }
    ensures cells_after { cells.new ≡ cond lays (blocks_walked image.now cells.old) cells.old }
{
    let version = int64::read_u16(image, 3);
    let size = layout::block_size(version);
    let blocks = usize::from(image[5]);
    let mut at = 8;
    let mut to = layout::FIRST_BLOCK;
    let mut before = 0;
    for b in 0..blocks {
        let k = layout::block_in(version, image, at);
        if let Err(refusal) = ask_block_in(version, image, b, before, k) {
            return Err(Stopped { refusal, at });
        }
        before = k.first;
        marks[before as usize] = true;
        lay_block(lays, cells, to, k);
        at += size;
        to += layout::BLOCK_CELLS;
    }
    Ok(at)
}

// Questions 8 and 9 of instruction i, whose record is at `at`.
fn ask_instruction_in(
    bounds: &Bounds,
    image: &[u8],
    marks: &[bool],
    i: usize,
    at: usize,
) -> Result<(), Refusal>
    requires { (header_no image.now ≡ 0) × (bounds.now.opcodes ≡ last_opcode (version_in image.now)) × Limited bounds.now.opcodes (blocks_in image.now) bounds.now.largest
        × Ended (cells_in image.now) marks.now × (i < instructions_in image.now) × (at ≡ instruction_place (version_in image.now) (blocks_in image.now) i) }
    ensures { no_of result ≡ instruction_no (cells_in image.now) i }
{
    let x = layout::instruction_in(image, at);
    questions::ask_instruction(bounds, x, marks[i + 1])
}

// Lays the instruction record at `at` into the cells from `to` on.
fn lay_instruction(image: &[u8], at: usize, lays: bool, cells: &mut [u64], to: usize)
    requires { (at + 12 ≤ length image.now) × (lays ≡ true → to + 5 ≤ length cells.old) }
    ensures { cells.new ≡ cond lays (sets cells.old to (instruction_cells (instruction_in image.now at))) cells.old }
{
    if lays {
        let x = layout::instruction_in(image, at);
        layout::put_instruction(cells, to, x);
    }
}

// Questions 8 and 9 of all instructions, whose records begin at `start`, the last block's end.
fn walk_instructions(
    bounds: &Bounds,
    image: &[u8],
    marks: &[bool],
    start: usize,
    lays: bool,
    cells: &mut [u64],
) -> Result<usize, Stopped>
    requires { (header_no image.now ≡ 0) × (bounds.now.opcodes ≡ last_opcode (version_in image.now)) × Limited bounds.now.opcodes (blocks_in image.now) bounds.now.largest
        × Ended (cells_in image.now) marks.now × (start ≡ block_place (version_in image.now) (blocks_in image.now)) × (lays ≡ true → length cells.old ≡ program_cells) }
    ensures no_value { walked_no result ≡ first_no (instruction_no (cells_in image.now)) (instructions_in image.now) 0 }
    ensures at_value { walked_to result ≡ instructions_offset image.now }
    ensures cells_after { cells.new ≡ cond lays (instructions_walked image.now cells.old) cells.old }
{
    let instructions = int64::read_u16(image, 6) as usize;
    let mut at = start;
    let mut to = layout::FIRST_INSTRUCTION;
    for i in 0..instructions {
        if let Err(refusal) = ask_instruction_in(bounds, image, marks, i, at) {
            return Err(Stopped { refusal, at });
        }
        lay_instruction(image, at, lays, cells, to);
        at += 12;
        to += layout::INSTRUCTION_CELLS;
    }
    Ok(at)
}

// Questions 6 to 9. The reader alone calls it, after the header's questions.
pub fn walk_records(image: &[u8], lays: bool, cells: &mut [u64]) -> Result<usize, Stopped>
    requires { (header_no image.now ≡ 0) × (lays ≡ true → length cells.old ≡ program_cells) }
    ensures no_value { walked_no result ≡ records_no (cells_in image.now) }
    ensures at_value { walked_to result ≡ offset_in image.now }
    ensures cells_after { cells.new ≡ cond lays (records_walked image.now cells.old) cells.old }
{
    let mut marks = [false; 1025];
    let start = walk_blocks(image, &mut marks, lays, cells)?;
    let end = int64::read_u16(image, 6) as usize;
    marks[end] = true;
    let bounds = questions::bounds_of(int64::read_u16(image, 3), u64::from(image[5]));
    walk_instructions(&bounds, image, &marks, start, lays, cells)
}

// Lays the version and the two counts into the first cells. The reader alone calls it, with an image that has a header.
pub fn lay_head(image: &[u8], lays: bool, cells: &mut [u64])
    requires { (8 ≤ length image.now) × (lays ≡ true → 2 < length cells.old) }
    ensures { cells.new ≡ cond lays (sets cells.old 0
        (version_in image.now ∷ blocks_in image.now ∷ instructions_in image.now ∷ [])) cells.old }
{
    if lays {
        cells[layout::VERSION] = int64::read_u16(image, 3);
        cells[layout::BLOCK_COUNT] = u64::from(image[5]);
        cells[layout::INSTRUCTION_COUNT] = int64::read_u16(image, 6);
    }
}
