// Programs read from images and written to them, with the program buffer as bytes.
ghost use Rattle.std.specs.Prelude.{◌≡◌, length};
ghost use Rattle.image.specs.Refusals.{no_of};
ghost use Rattle.steps.specs.Calls.{read_no, program_after, written_no, image_after};

use crate::buffers;
use crate::buffers::PROGRAM_BYTES;
use image::layout::PROGRAM_CELLS;
use image::refusal::Refusal;

// Reads an image into the lent program buffer, 47,128 bytes, the whole of it; a refusal leaves the buffer as it was.
pub fn read_program(image: &[u8], program: &mut [u8]) -> Result<(), Refusal>
    ensures value { no_of result ≡ read_no image.now (length program.old) }
    ensures program_after { program.new ≡ program_after image.now program.old }
{
    let mut cells = [0u64; PROGRAM_CELLS];
    image::reader::read(image, &mut cells)?;
    if program.len() != PROGRAM_BYTES {
        return Err(Refusal::Buffer);
    }
    buffers::write_cells(&cells, program);
    Ok(())
}

// Writes a program to the lent image buffer, the whole of it; a refusal leaves the buffer as it was.
pub fn write_program(program: &[u8], image: &mut [u8]) -> Result<(), Refusal>
    ensures value { no_of result ≡ written_no program.now (length image.old) }
    ensures image_after { image.new ≡ image_after program.now image.old }
{
    if program.len() != PROGRAM_BYTES {
        buffers::ask_cells(program)?;
        return Err(Refusal::Buffer);
    }
    let mut cells = [0u64; PROGRAM_CELLS];
    buffers::read_cells(program, &mut cells);
    image::writer::write(&cells, image)
}
