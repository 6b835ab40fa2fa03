// A program that its questions have accepted. What a type says need not be asked again, nor be said in each contract that rests on it.
ghost use Rattle.std.specs.Prelude.{◌≡◌, ◌<◌, IfOk};
ghost use Rattle.image.specs.Layout.{block_count, block_of, instruction_count, instruction_of};
ghost use Rattle.image.specs.Questions.{program_no};
ghost use Rattle.image.specs.Refusals.{no_of};

use crate::refusal::Refusal;
use crate::{Block, Instruction, layout, questions};

#[derive(Clone, Copy, Debug)]
pub struct Program<'a> {
    pub cells: &'a [u64],
    pub ghost accepted: { program_no cells.now ≡ 0 },
}

impl<'a> Program<'a> {
    // Questions 3, 4 and 6 to 9.
    pub fn new(cells: &'a [u64]) -> Result<Program<'a>, Refusal>
        ensures value { no_of result ≡ program_no cells.now }
        ensures same { IfOk result (λ p. p.cells.now ≡ cells.now) }
    {
        questions::ask_program(cells)?;
        Ok(Program { cells })
    }

    // A block of the program, whole, and the fields that control looks at, each by itself. `task`, `arms` and `evaluator` alone call these and the
    // next, with a block or an instruction that the program has: one that a task stands at, or that a label or a record of it names.
    pub fn block(&self, b: usize) -> Block
        requires { b < block_count self.now.cells.now }
        ensures { result ≡ block_of self.now.cells.now b }
    {
        layout::block_of(self.cells, b)
    }

    pub fn first(&self, b: usize) -> u64
        requires { b < block_count self.now.cells.now }
        ensures { result ≡ (block_of self.now.cells.now b).first }
    {
        layout::first_of(self.cells, b)
    }

    pub fn annotation(&self, b: usize) -> u64
        requires { b < block_count self.now.cells.now }
        ensures { result ≡ (block_of self.now.cells.now b).annotation }
    {
        layout::annotation_of(self.cells, b)
    }

    pub fn label(&self, b: usize) -> u64
        requires { b < block_count self.now.cells.now }
        ensures { result ≡ (block_of self.now.cells.now b).label }
    {
        layout::label_of(self.cells, b)
    }

    pub fn instruction(&self, i: usize) -> Instruction
        requires { i < instruction_count self.now.cells.now }
        ensures { result ≡ instruction_of self.now.cells.now i }
    {
        layout::instruction_of(self.cells, i)
    }
}
