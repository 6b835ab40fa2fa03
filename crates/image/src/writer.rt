// Writing a program buffer to an image.
ghost use Rattle.std.specs.Prelude.{◌≡◌, ◌<◌, ◌≤◌, length};
ghost use Rattle.std.proofs.lemmas.List.Edits.{sets};
ghost use Rattle.image.specs.Layout.{rows, block_place, image_length, program_cells, version_of, block_count, instruction_count, block_of, instruction_of};
ghost use Rattle.image.specs.Layout.{block_bytes, instruction_bytes, header_of, image_of};
ghost use Rattle.image.specs.Questions.{most_blocks, most_instructions, counts_no};
ghost use Rattle.image.specs.Doors.{write_no, unless_refused};
ghost use Rattle.image.specs.Refusals.{no_of};

use crate::refusal::Refusal;
use crate::{layout, questions};

// The mark, the version and the two counts.
fn encode_header(cells: &[u64], image: &mut [u8])
    requires { (2 < length cells.now) × (8 ≤ length image.old) }
    ensures { image.new ≡ sets image.old 0 (header_of cells.now) }
{
    image[..3].copy_from_slice(b"TPB");
    int64::write_u16(image, 3, cells[layout::VERSION]);
    image[5] = (cells[layout::BLOCK_COUNT] % 256) as u8;
    int64::write_u16(image, 6, cells[layout::INSTRUCTION_COUNT]);
}

// Writes the blocks' records one after the other, and hands back the offset of the last one's end.
fn encode_blocks(cells: &[u64], image: &mut [u8]) -> usize
    requires { (length cells.now ≡ program_cells) × (block_count cells.now ≤ most_blocks)
        × (block_place (version_of cells.now) (block_count cells.now) ≤ length image.old) }
    ensures value { result ≡ block_place (version_of cells.now) (block_count cells.now) }
    ensures image_after { image.new ≡ sets image.old (block_place (version_of cells.now) 0)
        (rows (λ b. block_bytes (version_of cells.now) (block_of cells.now b)) (block_count cells.now)) }
{
    let version = cells[layout::VERSION];
    let size = layout::block_size(version);
    let blocks = cells[layout::BLOCK_COUNT];
    let mut at = 8;
    let mut from = layout::FIRST_BLOCK;
    for _b in 0..blocks {
        let k = layout::block_from(cells, from);
        layout::put_block_bytes(version, image, at, k);
        at += size;
        from += layout::BLOCK_CELLS;
    }
    at
}

// The instructions' records likewise, from the last block's end on.
fn encode_instructions(cells: &[u64], start: usize, image: &mut [u8]) -> usize
    requires { (length cells.now ≡ program_cells) × (instruction_count cells.now ≤ most_instructions) × (start ≡ block_place (version_of cells.now) (block_count cells.now))
        × (length image.old ≡ image_length (version_of cells.now) (block_count cells.now) (instruction_count cells.now)) }
    ensures value { result ≡ length image.old }
    ensures image_after { image.new ≡ sets image.old (block_place (version_of cells.now) (block_count cells.now))
        (rows (λ i. instruction_bytes (instruction_of cells.now i)) (instruction_count cells.now)) }
{
    let instructions = cells[layout::INSTRUCTION_COUNT];
    let mut at = start;
    let mut from = layout::FIRST_INSTRUCTION;
    for _i in 0..instructions {
        let x = layout::instruction_from(cells, from);
        layout::put_instruction_bytes(image, at, x);
        at += 12;
        from += layout::INSTRUCTION_CELLS;
    }
    at
}

// The image of an accepted program, into a buffer of its length: write and `rewrite` alone call it, after the questions that ensure both.
pub fn encode(cells: &[u64], image: &mut [u8])
    requires { (length cells.now ≡ program_cells) × (counts_no (block_count cells.now) (instruction_count cells.now) ≡ 0)
        × (length image.old ≡ image_length (version_of cells.now) (block_count cells.now) (instruction_count cells.now)) }
    ensures { image.new ≡ image_of cells.now }
{
    encode_header(cells, image);
    let end = encode_blocks(cells, image);
    encode_instructions(cells, end, image);
}

// Writes a program to the lent image buffer, the whole of it; a refusal leaves the buffer as it was.
pub fn write(cells: &[u64], image: &mut [u8]) -> Result<(), Refusal>
    ensures value { no_of result ≡ write_no cells.now (length image.old) }
    ensures image_after { image.new ≡ unless_refused (no_of result) (image_of cells.now) image.old }
{
    questions::ask_program(cells)?;
    if cells.len() != layout::PROGRAM_CELLS {
        return Err(Refusal::Buffer);
    }
    let size = layout::image_length(
        cells[layout::VERSION],
        cells[layout::BLOCK_COUNT],
        cells[layout::INSTRUCTION_COUNT],
    );
    if image.len() as u64 != size {
        return Err(Refusal::Buffer);
    }
    encode(cells, image);
    Ok(())
}
