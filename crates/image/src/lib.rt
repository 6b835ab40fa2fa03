// Program images: the reader, the writer, and the questions that are put to a program.
#![tactic(auto)]

ghost use Rattle.std.specs.Prelude.{◌≡◌, length};
ghost use Rattle.image.specs.Doors.{rewrite_no, unless_refused};
ghost use Rattle.image.specs.Refusals.{no_of};

use refusal::Refusal;

pub mod layout;
pub mod program;
pub mod questions;
pub mod reader;
pub mod refusal;
mod walk;
pub mod writer;

// A block record and an instruction record have the numbers that stand in an image or a buffer. Opcode, kind, annotation and policy are no
// enums: the questions are put to any numbers (`laid_out`, `annotated`), and the cells are C's.

// A block record. `packed` has the pair bytes, four or eight by the version, the first in its low eight bits.
#[derive(Clone, Copy, Debug, PartialEq, Eq)]
pub struct Block {
    pub first: u64,
    pub annotation: u64,
    pub policy: u64,
    pub label: u64,
    pub pairs: u64,
    pub packed: u64,
}

// An instruction record. By its kind the operand is a register's number, a label or an integer's 64 bits.
#[derive(Clone, Copy, Debug, PartialEq, Eq)]
pub struct Instruction {
    pub opcode: u64,
    pub r: u64,
    pub s: u64,
    pub kind: u64,
    pub operand: u64,
}

// Reads an image and writes its program back: an accepted image comes back byte for byte.
pub fn rewrite(image: &[u8], out: &mut [u8]) -> Result<(), Refusal>
    ensures value { no_of result ≡ rewrite_no image.now (length out.old) }
    ensures out_after { out.new ≡ unless_refused (no_of result) image.now out.old }
{
    let mut cells = [0u64; layout::PROGRAM_CELLS];
    reader::scan(image, &mut cells)?;
    if out.len() != image.len() {
        return Err(Refusal::Buffer);
    }
    writer::encode(&cells, out);
    Ok(())
}
