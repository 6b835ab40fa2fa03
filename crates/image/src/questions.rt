// The questions put to a program. Each function of a record is shared by the reader, the writer and every later door.
ghost use Rattle.std.specs.Prelude.{◌≡◌, ℕ, ◌+◌, ◌-◌, ◌<◌, ◌≤◌, length};
ghost use Rattle.image.specs.Layout.{most_pairs, version_of, block_count, instruction_count, block_cell, instruction_cell, block_of};
ghost use Rattle.image.specs.Questions.{version_no, most_blocks, most_instructions, counts_no, in_order, rising, unjoined, joined, annotated, block_no, first_no};
ghost use Rattle.image.specs.Questions.{last_opcode, ends_block, laid_out, instruction_no, records_no, program_no};
ghost use Rattle.image.specs.Records.{block_record_no, instruction_record_no};
ghost use Rattle.image.specs.Marks.{Marked, Ended};
ghost use Rattle.image.specs.Refusals.{no_of};
ghost use Rattle.image.specs.Limits.{flags_of, limit_row, limits_of, largest_of, Limited, blocks_by};

use crate::refusal::Refusal;
use crate::{Block, Instruction, layout};

// Which fields an opcode has.
#[derive(Clone, Copy, Debug, PartialEq, Eq)]
pub struct Fields {
    pub r: bool,
    pub s: bool,
    pub v: bool,
}

const NONE: Fields = Fields {
    r: false,
    s: false,
    v: false,
};

const R: Fields = Fields {
    r: true,
    s: false,
    v: false,
};

const V: Fields = Fields {
    r: false,
    s: false,
    v: true,
};

const RV: Fields = Fields {
    r: true,
    s: false,
    v: true,
};

const SV: Fields = Fields {
    r: false,
    s: true,
    v: true,
};

const RSV: Fields = Fields {
    r: true,
    s: true,
    v: true,
};

const FIELDS: [Fields; 17] = [
    RV, // 1 r := v
    RSV, // 2 r := s + v
    RSV, // 3 r := s - v
    RSV, // 4 r := s * v
    RSV, // 5 r := s / v
    RSV, // 6 r := s % v
    RSV, // 7 r := s < v
    RSV, // 8 r := s = v
    RV, // 9 r := word v
    SV, // 10 if-jump s, v
    RV, // 11 r := jralloc v
    SV, // 12 fork s, v
    V, // 13 jump v
    NONE, // 14 halt
    V, // 15 join v
    V, // 16 push v
    R, // 17 pop r
];

// What the fields of an opcode's instructions are compared with: the largest r and s, the least and the largest kind.
#[derive(Clone, Copy, Debug, PartialEq, Eq)]
pub struct Limits {
    pub r: u64,
    pub s: u64,
    pub least: u64,
    pub most: u64,
}

const LAST_REGISTER: u64 = 15;

const LAST_KIND: u64 = 3;

// 0 is no opcode: no kind fits, since the least is above the largest.
const NO_OPCODE: Limits = Limits {
    r: 0,
    s: 0,
    least: 1,
    most: 0,
};

// Of a row of the table; a field that the opcode does not have is 0. A macro, since a constant's value calls no function.
macro_rules! limits {
    ($row:expr) => {
        Limits {
            r: LAST_REGISTER * ($row.r as u64),
            s: LAST_REGISTER * ($row.s as u64),
            least: $row.v as u64,
            most: LAST_KIND * ($row.v as u64),
        }
    };
}

// The limits of 0, which is none, and of the opcodes 1 to 17, worked out of the table once, when the crate is checked: so a question about an
// instruction works out none, and no branch depends on which opcode it is.
static LIMITS: [Limits; 18] = [
    NO_OPCODE,
    limits!(FIELDS[0]),
    limits!(FIELDS[1]),
    limits!(FIELDS[2]),
    limits!(FIELDS[3]),
    limits!(FIELDS[4]),
    limits!(FIELDS[5]),
    limits!(FIELDS[6]),
    limits!(FIELDS[7]),
    limits!(FIELDS[8]),
    limits!(FIELDS[9]),
    limits!(FIELDS[10]),
    limits!(FIELDS[11]),
    limits!(FIELDS[12]),
    limits!(FIELDS[13]),
    limits!(FIELDS[14]),
    limits!(FIELDS[15]),
    limits!(FIELDS[16]),
];

// Question 3.
#[tactic(auto, unfolding(crate::specs::Questions::version_no))]
pub fn ask_version(version: u64) -> Result<(), Refusal>
    ensures { no_of result ≡ version_no version }
{
    match version {
        1..=2 => Ok(()),
        _ => Err(Refusal::Version),
    }
}

// Question 4.
#[tactic(auto, unfolding(crate::specs::Questions::counts_no))]
pub fn ask_counts(blocks: u64, instructions: u64) -> Result<(), Refusal>
    ensures { no_of result ≡ counts_no blocks instructions }
{
    if blocks < 1 || layout::MOST_BLOCKS < blocks {
        return Err(Refusal::Counts);
    }
    if instructions < 1 || layout::MOST_INSTRUCTIONS < instructions {
        return Err(Refusal::Counts);
    }
    Ok(())
}

// Question 6 of a block that starts at `first`, its predecessor at `before`.
fn starts_in_order(instructions: u64, b: usize, before: u64, first: u64) -> bool
    ensures { result ≡ in_order instructions b before first }
{
    if instructions <= first {
        return false;
    }
    if b == 0 {
        return first == 0;
    }
    before < first
}

// Whether the first n pair bytes rise strictly by target, with nothing after them.
fn is_rising(pairs: u64, packed: u64) -> bool
    ensures { result ≡ rising pairs packed }
{
    let mut rest = packed;
    for _pair in 1..pairs {
        if rest / 256 % 16 <= rest % 16 {
            return false;
        }
        rest /= 256;
    }
    if pairs == 0 {
        return rest == 0;
    }
    rest < 256
}

#[tactic(auto, unfolding(crate::specs::Questions::unjoined))]
fn is_unjoined(k: Block) -> bool
    ensures { result ≡ unjoined k }
{
    k.policy == 0 && k.pairs == 0 && k.packed == 0
}

// How many pairs a block of the version has at most.
fn most_pairs(version: u64) -> u64
    ensures { result ≡ most_pairs version }
{
    if version == 2 {
        return 8;
    }
    4
}

#[tactic(auto, unfolding(crate::specs::Questions::joined))]
fn is_joined(version: u64, k: Block) -> bool
    ensures { result ≡ joined version k }
{
    k.policy <= 1 && k.pairs <= most_pairs(version) && is_rising(k.pairs, k.packed)
}

// Question 7.
#[tactic(auto, unfolding(crate::specs::Questions::annotated))]
fn is_annotated(version: u64, blocks: u64, k: Block) -> bool
    ensures { result ≡ annotated version blocks k }
{
    match k.annotation {
        0 => k.label == 0 && is_unjoined(k),
        1 => k.label < blocks && is_unjoined(k),
        2 => k.label < blocks && is_joined(version, k),
        _ => false,
    }
}

// Questions 6 and 7 of a block's record, wherever it stands.
pub fn ask_block_record(
    version: u64,
    blocks: u64,
    instructions: u64,
    b: usize,
    before: u64,
    k: Block,
) -> Result<(), Refusal>
    ensures { no_of result ≡ block_record_no version blocks instructions b before k }
{
    if !starts_in_order(instructions, b, before, k.first) {
        return Err(Refusal::BlockStart);
    }
    if !is_annotated(version, blocks, k) {
        return Err(Refusal::Annotation);
    }
    Ok(())
}

// Where the block before block b starts, which the buffer has; of block 0, which has none, where it starts itself.
fn first_before(cells: &[u64], b: usize) -> u64
    requires { block_cell b + 6 ≤ length cells.now }
    ensures { result ≡ (block_of cells.now (b - 1)).first }
{
    if b == 0 {
        return cells[layout::FIRST_BLOCK];
    }
    cells[layout::FIRST_BLOCK + layout::BLOCK_CELLS * (b - 1)]
}

// Questions 6 and 7 of block b.
fn ask_block(cells: &[u64], b: usize) -> Result<(), Refusal>
    requires { b < most_blocks }
    ensures { no_of result ≡ block_no cells.now b }
{
    if cells.len() < layout::FIRST_BLOCK + layout::BLOCK_CELLS * b + layout::BLOCK_CELLS {
        return Err(Refusal::BlockStart);
    }
    let before = first_before(cells, b);
    let k = layout::block_of(cells, b);
    ask_block_record(
        cells[layout::VERSION],
        cells[layout::BLOCK_COUNT],
        cells[layout::INSTRUCTION_COUNT],
        b,
        before,
        k,
    )
}

// The limits of the opcodes 1 to 17, by the table, and of 0, which is none.
fn limits_of(opcode: u64) -> Limits
    requires { opcode ≤ 17 }
    ensures { result ≡ limits_of opcode }
{
    LIMITS[opcode as usize]
}

// The largest operand of each kind: absent, register, label, integer. The crate itself calls it, for a program that has a block.
pub fn largest_operands(blocks: u64) -> [u64; 4]
    requires { 1 ≤ blocks }
    ensures { result ≡ largest_of blocks }
{
    [0, 15, blocks - 1, u64::MAX]
}

// The version's last opcode: how many it has.
pub fn last_opcode(version: u64) -> u64
    ensures { result ≡ last_opcode version }
{
    if version == 2 {
        return 17;
    }
    15
}

// What holds an instruction's fields in, the same for all instructions of a program: how many opcodes there are, and the largest operand of
// each kind.
#[derive(Clone, Copy, Debug, PartialEq, Eq)]
pub struct Bounds {
    pub opcodes: u64,
    pub largest: [u64; 4],
}

// The bounds of a program of the version that has these blocks, one or more. `ask_records` and the walk call it, after question 4.
pub(crate) fn bounds_of(version: u64, blocks: u64) -> Bounds
    requires { 1 ≤ blocks }
    ensures opcodes { result.opcodes ≡ last_opcode version }
    ensures limited { Limited result.opcodes blocks result.largest }
{
    Bounds {
        opcodes: last_opcode(version),
        largest: largest_operands(blocks),
    }
}

// Question 8, by comparing each field with its limit: no branch depends on which opcode it is, and 0, which is none, has limits that nothing
// meets.
fn is_laid_out(bounds: &Bounds, x: Instruction) -> bool
    requires { Limited bounds.now.opcodes (blocks_by bounds.now.largest) bounds.now.largest }
    ensures { result ≡ laid_out bounds.now.opcodes (blocks_by bounds.now.largest) x }
{
    if bounds.opcodes < x.opcode {
        return false;
    }
    let limits = limits_of(x.opcode);
    if limits.r < x.r {
        return false;
    }
    if limits.s < x.s {
        return false;
    }
    if x.kind < limits.least {
        return false;
    }
    if limits.most < x.kind {
        return false;
    }
    x.operand <= bounds.largest[x.kind as usize]
}

// Questions 6 and 7 of all blocks. Where all are answered with yes, marks the instructions that start a block.
fn ask_blocks(cells: &[u64], marks: &mut [bool]) -> Result<(), Refusal>
    requires { (2 < length cells.now) × (block_count cells.now ≤ most_blocks) × (instruction_count cells.now ≤ most_instructions) × Marked cells.now 0 marks.old }
    ensures value { no_of result ≡ first_no (block_no cells.now) (block_count cells.now) 0 }
    ensures marked { no_of result ≡ 0 → Marked cells.now (block_count cells.now) marks.new }
{
    let blocks = cells[layout::BLOCK_COUNT] as usize;
    for b in 0..blocks {
        ask_block(cells, b)?;
        let first = cells[layout::FIRST_BLOCK + layout::BLOCK_CELLS * b] as usize;
        marks[first] = true;
    }
    Ok(())
}

fn ends_block(opcode: u64) -> bool
    ensures { result ≡ ends_block opcode }
{
    13 <= opcode && opcode <= 15
}

// Questions 8 and 9 of an instruction's record, wherever it stands, the last of a block or not. The crate itself calls it, for a program that
// has a block.
pub fn ask_instruction(bounds: &Bounds, x: Instruction, last: bool) -> Result<(), Refusal>
    requires { Limited bounds.now.opcodes (blocks_by bounds.now.largest) bounds.now.largest }
    ensures { no_of result ≡ instruction_record_no bounds.now.opcodes (blocks_by bounds.now.largest) last x }
{
    if !is_laid_out(bounds, x) {
        return Err(Refusal::Fields);
    }
    if ends_block(x.opcode) != last {
        return Err(Refusal::LastInBlock);
    }
    Ok(())
}

// How many of its instructions the buffer has, so that the loop need not ask at each.
fn instructions_held(cells: &[u64]) -> usize
    requires { (2 < length cells.now) × (instruction_count cells.now ≤ most_instructions) }
    ensures { (result ≤ instruction_count cells.now) × ((i : ℕ) → i < result → instruction_cell i + 5 ≤ length cells.now)
        × (result < instruction_count cells.now → length cells.now < instruction_cell result + 5) }
{
    let instructions = cells[layout::INSTRUCTION_COUNT] as usize;
    if layout::FIRST_INSTRUCTION + layout::INSTRUCTION_CELLS * instructions <= cells.len() {
        return instructions;
    }
    if cells.len() < layout::FIRST_INSTRUCTION {
        return 0;
    }
    (cells.len() - layout::FIRST_INSTRUCTION) / layout::INSTRUCTION_CELLS
}

// Questions 8 and 9 of all instructions.
fn ask_instructions(bounds: &Bounds, cells: &[u64], marks: &[bool]) -> Result<(), Refusal>
    requires { (bounds.now.opcodes ≡ last_opcode (version_of cells.now)) × Limited bounds.now.opcodes (block_count cells.now) bounds.now.largest
        × (2 < length cells.now) × (instruction_count cells.now ≤ most_instructions) × Ended cells.now marks.now }
    ensures { no_of result ≡ first_no (instruction_no cells.now) (instruction_count cells.now) 0 }
{
    let held = instructions_held(cells);
    for i in 0..held {
        let x = layout::instruction_of(cells, i);
        ask_instruction(bounds, x, marks[i + 1])?;
    }
    if held < cells[layout::INSTRUCTION_COUNT] as usize {
        return Err(Refusal::Fields);
    }
    Ok(())
}

// Questions 6 to 9. This crate alone calls it, after question 4.
pub fn ask_records(cells: &[u64]) -> Result<(), Refusal>
    requires { counts_no (block_count cells.now) (instruction_count cells.now) ≡ 0 }
    ensures { no_of result ≡ records_no cells.now }
{
    let mut marks = [false; 1025];
    ask_blocks(cells, &mut marks)?;
    let end = cells[layout::INSTRUCTION_COUNT] as usize;
    marks[end] = true;
    let bounds = bounds_of(cells[layout::VERSION], cells[layout::BLOCK_COUNT]);
    ask_instructions(&bounds, cells, &marks)
}

// Questions 3, 4 and 6 to 9: what the writer, start, pick and run put to their program.
pub fn ask_program(cells: &[u64]) -> Result<(), Refusal>
    ensures { no_of result ≡ program_no cells.now }
{
    if cells.len() < 1 {
        return Err(Refusal::Version);
    }
    ask_version(cells[layout::VERSION])?;
    if cells.len() < 3 {
        return Err(Refusal::Counts);
    }
    ask_counts(cells[layout::BLOCK_COUNT], cells[layout::INSTRUCTION_COUNT])?;
    ask_records(cells)
}
