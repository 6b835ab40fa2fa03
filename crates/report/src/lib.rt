// What is handed out of a state: its bytes, and the report of a run.
#![tactic(auto)]

pub mod bytes;
pub mod text;
mod words;

ghost use Rattle.std.specs.Prelude.{◌≡◌};
ghost use Rattle.report.specs.Report.{report_of};

use drive::ending::end_of;
use drive::slots::frame_at;
use drive::{End, State};
use task::{Register, Value};

// The length of a report's bytes, and the room that its text is given.
pub const REPORT_BYTES: usize = 424;

pub const ROUNDS_REPORT_BYTES: usize = 432;

pub const TEXT_BYTES: usize = 1024;

// Of a spent job, one that has not ended, the span is 0 and the registers are 16 integers 0.
#[derive(Clone, Copy, Debug, PartialEq, Eq)]
pub struct Report {
    pub end: End,
    pub picks: u64,
    pub work: u32,
    pub span: u32,
    pub registers: [Register; 16],
}

// The report of the state after a run that carried out so many picks.
pub fn report_of(m: &State, picks: u64) -> Report
    ensures { result ≡ report_of m.now picks }
{
    let end = end_of(m);
    let (span, registers) = match end {
        End::NotEnded => {
            let zeros = [Register {
                value: Value::Int(0),
            }; 16];
            (0, zeros)
        }
        End::Halt | End::Fault(_) => {
            let f = frame_at(m, 0);
            let registers = f.registers;
            (f.task.span, registers)
        }
    };
    Report {
        end,
        picks,
        work: m.work,
        span,
        registers,
    }
}
