// Reading an image into a program buffer.
ghost use Rattle.std.specs.Prelude.{◌≡◌, true, cond, ◌≤◌, length, replicate};
ghost use Rattle.image.specs.Layout.{program_cells, cells_in};
ghost use Rattle.image.specs.Doors.{mark_in, header_no, image_no, read_no, unless_refused};
ghost use Rattle.image.specs.Offset.{offset_in};
ghost use Rattle.image.specs.Refusals.{no_of};
ghost use Rattle.image.specs.Walked.{walked_no, walked_to, scanned};

use crate::refusal::Refusal;
use crate::{layout, questions, walk};

// Question 2.
fn is_marked(image: &[u8]) -> bool
    requires { 8 ≤ length image.now }
    ensures { result ≡ mark_in image.now }
{
    image.starts_with(b"TPB")
}

// Questions 1 to 5.
fn ask_header(image: &[u8]) -> Result<(), Refusal>
    ensures { no_of result ≡ header_no image.now }
{
    if image.len() < 8 {
        return Err(Refusal::Header);
    }
    if !is_marked(image) {
        return Err(Refusal::Mark);
    }
    let version = int64::read_u16(image, 3);
    questions::ask_version(version)?;
    let blocks = u64::from(image[5]);
    let instructions = int64::read_u16(image, 6);
    questions::ask_counts(blocks, instructions)?;
    if image.len() as u64 != layout::image_length(version, blocks, instructions) {
        return Err(Refusal::Length);
    }
    Ok(())
}

// Questions 1 to 9, and the offset that the walk over the records came to; where cells are wanted, they are laid on the way.
fn walk_image(image: &[u8], lays: bool, cells: &mut [u64]) -> Result<usize, walk::Stopped>
    requires { lays ≡ true → cells.old ≡ replicate program_cells 0 }
    ensures no_value { walked_no result ≡ image_no image.now }
    ensures at_value { walked_to result ≡ offset_in image.now }
    ensures cells_after { cells.new ≡ cond lays (scanned image.now) cells.old }
{
    if let Err(refusal) = ask_header(image) {
        return Err(walk::Stopped { refusal, at: 0 });
    }
    walk::lay_head(image, lays, cells);
    walk::walk_records(image, lays, cells)
}

// Questions 1 to 9. Where all are answered with yes, the cells are the image's program (`scanned-accepted` in proofs/Walked.antt). `read`,
// `rewrite` and the job's `ask_job` alone call it: the first two make the buffer of zeros that it requires, `ask_job` requires one itself.
pub fn scan(image: &[u8], cells: &mut [u64]) -> Result<(), Refusal>
    requires { cells.old ≡ replicate program_cells 0 }
    ensures value { no_of result ≡ image_no image.now }
    ensures cells_after { cells.new ≡ scanned image.now }
{
    walk_image(image, true, cells)?;
    Ok(())
}

// Questions 1 to 9 alone.
pub fn check(image: &[u8]) -> Result<(), Refusal>
    ensures { no_of result ≡ image_no image.now }
{
    let mut none = [0u64; 0];
    walk_image(image, false, &mut none)?;
    Ok(())
}

// Reads an image into the lent program buffer, the whole of it; a refusal leaves the buffer as it was.
pub fn read(image: &[u8], cells: &mut [u64]) -> Result<(), Refusal>
    ensures value { no_of result ≡ read_no image.now (length cells.old) }
    ensures cells_after { cells.new ≡ unless_refused (no_of result) (cells_in image.now) cells.old }
{
    let mut program = [0u64; layout::PROGRAM_CELLS];
    scan(image, &mut program)?;
    if cells.len() != layout::PROGRAM_CELLS {
        return Err(Refusal::Buffer);
    }
    cells.copy_from_slice(&program);
    Ok(())
}
