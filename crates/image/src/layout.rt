// Records taken out of images and program buffers, and put into them.
ghost use Rattle.std.specs.Prelude.{◌≡◌, ◌++◌, ◌+◌, ◌<◌, ◌≤◌, length};
ghost use Rattle.std.proofs.lemmas.List.Edits.{sets};
ghost use Rattle.int64.specs.Little.{little, bytes_of};
ghost use Rattle.image.specs.Layout.{most_pairs, block_size, image_length, version_of, block_count, instruction_count, block_in, block_bytes, block_from, block_cell, block_of, block_cells};
ghost use Rattle.image.specs.Layout.{instruction_in, instruction_bytes, instruction_from, instruction_cell, instruction_of, instruction_cells};
ghost use Rattle.image.specs.Questions.{most_blocks, most_instructions};

use crate::{Block, Instruction};

// A program buffer: the version, the numbers of blocks and of instructions, then the blocks' cells, then the instructions'.
pub const VERSION: usize = 0;

pub const BLOCK_COUNT: usize = 1;

pub const INSTRUCTION_COUNT: usize = 2;

pub const FIRST_BLOCK: usize = 3;

pub const BLOCK_CELLS: usize = 6;

pub const FIRST_INSTRUCTION: usize = 771;

pub const INSTRUCTION_CELLS: usize = 5;

pub const PROGRAM_CELLS: usize = 5891;

// The most that it has room for (question 4).
pub const MOST_BLOCKS: u64 = 128;

pub const MOST_INSTRUCTIONS: u64 = 1024;

// The block whose cells begin at `at`. The crate itself calls it, with the place of a block that the buffer has.
pub fn block_from(cells: &[u64], at: usize) -> Block
    requires { at + 6 ≤ length cells.now }
    ensures { result ≡ block_from cells.now at }
{
    Block {
        first: cells[at],
        annotation: cells[at + 1],
        policy: cells[at + 2],
        label: cells[at + 3],
        pairs: cells[at + 4],
        packed: cells[at + 5],
    }
}

// Our crates alone call it: the questions count below the blocks, a join below a checked program's.
pub fn block_of(cells: &[u64], b: usize) -> Block
    requires { block_cell b + 6 ≤ length cells.now }
    ensures { result ≡ block_of cells.now b }
{
    block_from(cells, FIRST_BLOCK + BLOCK_CELLS * b)
}

// The version, and the numbers of blocks and of instructions. Our crates alone call them, with the buffer of an accepted program.
pub fn version_of(cells: &[u64]) -> u64
    requires { 0 < length cells.now }
    ensures { result ≡ version_of cells.now }
{
    cells[VERSION]
}

// As above.
pub fn block_count(cells: &[u64]) -> u64
    requires { 2 < length cells.now }
    ensures { result ≡ block_count cells.now }
{
    cells[BLOCK_COUNT]
}

// As above.
pub fn instruction_count(cells: &[u64]) -> u64
    requires { 2 < length cells.now }
    ensures { result ≡ instruction_count cells.now }
{
    cells[INSTRUCTION_COUNT]
}

// The fields of block b that control looks at, each by itself. `Program` and `shape` alone call them, with a block of an accepted program.
pub fn first_of(cells: &[u64], b: usize) -> u64
    requires { block_cell b + 6 ≤ length cells.now }
    ensures { result ≡ (block_of cells.now b).first }
{
    cells[FIRST_BLOCK + BLOCK_CELLS * b]
}

// As above.
pub fn annotation_of(cells: &[u64], b: usize) -> u64
    requires { block_cell b + 6 ≤ length cells.now }
    ensures { result ≡ (block_of cells.now b).annotation }
{
    cells[FIRST_BLOCK + BLOCK_CELLS * b + 1]
}

// As above.
pub fn label_of(cells: &[u64], b: usize) -> u64
    requires { block_cell b + 6 ≤ length cells.now }
    ensures { result ≡ (block_of cells.now b).label }
{
    cells[FIRST_BLOCK + BLOCK_CELLS * b + 3]
}

// The instruction whose cells begin at `at`. The crate itself calls it, with the place of an instruction that the buffer has.
pub fn instruction_from(cells: &[u64], at: usize) -> Instruction
    requires { at + 5 ≤ length cells.now }
    ensures { result ≡ instruction_from cells.now at }
{
    Instruction {
        opcode: cells[at],
        r: cells[at + 1],
        s: cells[at + 2],
        kind: cells[at + 3],
        operand: cells[at + 4],
    }
}

// Our crates alone call it: the questions count below the instructions, drive has the shape test's pc.
pub fn instruction_of(cells: &[u64], i: usize) -> Instruction
    requires { instruction_cell i + 5 ≤ length cells.now }
    ensures { result ≡ instruction_of cells.now i }
{
    instruction_from(cells, FIRST_INSTRUCTION + INSTRUCTION_CELLS * i)
}

// The reader alone calls it, with a program buffer whose length it asked and a block below its count.
pub fn put_block(cells: &mut [u64], at: usize, k: Block)
    requires { at + 6 ≤ length cells.old }
    ensures { cells.new ≡ sets cells.old at (block_cells k) }
{
    cells[at] = k.first;
    cells[at + 1] = k.annotation;
    cells[at + 2] = k.policy;
    cells[at + 3] = k.label;
    cells[at + 4] = k.pairs;
    cells[at + 5] = k.packed;
}

// The reader alone calls it, as above, with an instruction below its count.
pub fn put_instruction(cells: &mut [u64], at: usize, x: Instruction)
    requires { at + 5 ≤ length cells.old }
    ensures { cells.new ≡ sets cells.old at (instruction_cells x) }
{
    cells[at] = x.opcode;
    cells[at + 1] = x.r;
    cells[at + 2] = x.s;
    cells[at + 3] = x.kind;
    cells[at + 4] = x.operand;
}

// How many bytes a block record of the version has. Reader and writer work it out once.
pub fn block_size(version: u64) -> usize
    ensures { result ≡ block_size version }
{
    if version == 2 {
        return 14;
    }
    10
}

// The length of an image of the version with these counts, by which question 4 was answered with yes. Reader and writer alone call it.
pub fn image_length(version: u64, blocks: u64, instructions: u64) -> u64
    requires { (blocks ≤ most_blocks) × (instructions ≤ most_instructions) }
    ensures { result ≡ image_length version blocks instructions }
{
    8 + block_size(version) as u64 * blocks + 12 * instructions
}

// The pair bytes of a block record of the version, as one number. The reader alone calls it, as below.
fn pairs_in(version: u64, image: &[u8], at: usize) -> u64
    requires { at + most_pairs version ≤ length image.now }
    ensures { result ≡ little (most_pairs version) image.now at }
{
    if version == 2 {
        return int64::read_u64(image, at);
    }
    int64::read_u32(image, at)
}

// The reader alone calls it, after the image's length was found to be that of its version and counts.
pub fn block_in(version: u64, image: &[u8], at: usize) -> Block
    requires { at + block_size version ≤ length image.now }
    ensures { result ≡ block_in version image.now at }
{
    let first = int64::read_u16(image, at);
    let packed = pairs_in(version, image, at + 6);
    let annotation = u64::from(image[at + 2]);
    let policy = u64::from(image[at + 3]);
    let label = u64::from(image[at + 4]);
    let pairs = u64::from(image[at + 5]);
    Block {
        first,
        annotation,
        policy,
        label,
        pairs,
        packed,
    }
}

// The reader alone calls it, as above.
pub fn instruction_in(image: &[u8], at: usize) -> Instruction
    requires { at + 12 ≤ length image.now }
    ensures { result ≡ instruction_in image.now at }
{
    let operand = int64::read_u64(image, at + 4);
    let opcode = u64::from(image[at]);
    let r = u64::from(image[at + 1]);
    let s = u64::from(image[at + 2]);
    let kind = u64::from(image[at + 3]);
    Instruction {
        opcode,
        r,
        s,
        kind,
        operand,
    }
}

// The number whose four bytes are the low bytes of these, so that a record's bytes are written as words.
fn four_bytes(a: u64, b: u64, c: u64, d: u64) -> u64
    ensures { bytes_of 4 result ≡ bytes_of 1 a ++ (bytes_of 1 b ++ (bytes_of 1 c ++ bytes_of 1 d)) }
{
    a % 256 + 256 * (b % 256 + 256 * (c % 256 + 256 * (d % 256)))
}

// The pair bytes of a block record of the version. The writer alone calls it, as below.
fn put_pairs(version: u64, image: &mut [u8], at: usize, packed: u64)
    requires { at + most_pairs version ≤ length image.old }
    ensures { image.new ≡ sets image.old at (bytes_of (most_pairs version) packed) }
{
    if version == 2 {
        int64::write_u64(image, at, packed);
    } else {
        int64::write_u32(image, at, packed);
    }
}

// The writer alone calls it, with an image of the length of the program's version and counts.
pub fn put_block_bytes(version: u64, image: &mut [u8], at: usize, k: Block)
    requires { at + block_size version ≤ length image.old }
    ensures { image.new ≡ sets image.old at (block_bytes version k) }
{
    let middle = four_bytes(k.annotation, k.policy, k.label, k.pairs);
    int64::write_u16(image, at, k.first);
    int64::write_u32(image, at + 2, middle);
    put_pairs(version, image, at + 6, k.packed);
}

// The writer alone calls it, as above.
pub fn put_instruction_bytes(image: &mut [u8], at: usize, x: Instruction)
    requires { at + 12 ≤ length image.old }
    ensures { image.new ≡ sets image.old at (instruction_bytes x) }
{
    let head = four_bytes(x.opcode, x.r, x.s, x.kind);
    int64::write_u32(image, at, head);
    int64::write_u64(image, at + 4, x.operand);
}
