// Lent buffers of bytes: the cells of a program read and written, and the program's questions put to its bytes.
ghost use Rattle.std.specs.Prelude.{◌≡◌, ◌&&◌, ◌*◌, ◌/◌, ◌%◌, ◌<◌, ◌≤◌, eqb, length};
ghost use Rattle.image.specs.Layout.{program_cells};
ghost use Rattle.image.specs.Questions.{program_no};
ghost use Rattle.image.specs.Refusals.{no_of};
ghost use Rattle.state.specs.Numbers.{in_bytes};
ghost use Rattle.state.specs.Reading.{table, number_at};
ghost use Rattle.steps.specs.Buffers.{cells_of, program_bytes};

use image::layout::PROGRAM_CELLS;
use image::refusal::Refusal;

// A program buffer's cells as bytes, eight of each.
pub const PROGRAM_BYTES: usize = 47128;

// As many cells as `out` has room for. This crate alone calls it, with no more room than the buffer has whole cells.
pub fn read_cells(bytes: &[u8], out: &mut [u64])
    requires { 8 * length out.old ≤ length bytes.now }
    ensures { out.new ≡ table (λ i. number_at bytes.now (8 * i)) (length out.old) }
{
    for (i, cell) in out.iter_mut().enumerate() {
        *cell = int64::read_u64(bytes, 8 * i);
    }
}

// This crate alone calls it, with a buffer that it has found to have the cells' length.
pub fn write_cells(cells: &[u64], out: &mut [u8])
    requires { length out.old ≡ 8 * length cells.now }
    ensures { out.new ≡ in_bytes cells.now }
{
    for (i, &cell) in cells.iter().enumerate() {
        int64::write_u64(out, 8 * i, cell);
    }
}

// Whether program and words have lengths of theirs; `others` says so of the buffers that a call has beside them.
pub fn lengths_fit(program: usize, words: usize, others: bool) -> bool
    ensures { result ≡ (eqb program program_bytes && (eqb (words % 8) 0 && others)) }
{
    program == PROGRAM_BYTES && words % 8 == 0 && others
}

// How many cells are read of a program buffer of this length: those that are whole, as many as a program has room for.
fn cells_in(length: usize) -> usize
    ensures { (result ≤ length / 8) × (result ≤ program_cells) × (result < length / 8 → result ≡ program_cells) }
{
    PROGRAM_CELLS.min(length / 8)
}

// The program's questions put to the cells that go to the lent slice.
fn ask_read(program: &[u8], cells: &mut [u64]) -> Result<(), Refusal>
    requires { 8 * length cells.old ≤ length program.now }
    ensures { no_of result ≡ program_no (table (λ i. number_at program.now (8 * i)) (length cells.old)) }
{
    read_cells(program, cells);
    image::questions::ask_program(cells)
}

// The program's questions, 3, 4 and 6 to 9, put to a buffer of any length: no question looks beyond the cells that a program has room for.
pub fn ask_cells(program: &[u8]) -> Result<(), Refusal>
    ensures { no_of result ≡ program_no (cells_of program.now) }
{
    let mut cells = [0u64; PROGRAM_CELLS];
    let count = cells_in(program.len());
    ask_read(program, &mut cells[..count])
}
