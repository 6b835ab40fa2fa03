// The run of an accepted job by the plain evaluation: its program is decoded, its registers go into two rows of numbers, and the report is that of
// what the evaluation came to. No slot is picked: `outcomes` proves that a run's report does not show the picks.
ghost use Rattle.std.specs.Prelude.{◌≡◌, length};
ghost use Rattle.image.specs.Layout.{program_of};
ghost use Rattle.serial.specs.Serial.{within_budget};
ghost use Rattle.task.specs.Frames.{work_limit};
ghost use Rattle.task.specs.Choices.{chosen};
ghost use Rattle.arms.specs.Registers.{registers_of, Sized};
ghost use Rattle.arms.specs.Turns.{Stacked};
ghost use Rattle.evaluator.specs.Hands.{finished_of};
ghost use Rattle.orders.specs.Demand.{evaluation_of};
ghost use Rattle.outcomes.specs.Outcomes.{allowance, report_from};
ghost use Rattle.job.specs.Evaluated.{BitsOf, LabelsFit, CanReport, CanRun};

use arms::{Code, Registers};
use drive::End;
use evaluator::Finished;
use image::program::Program;
use report::Report;
use task::{Register, Status, Value};

// The most work that a state can show.
const WORK_LIMIT: u64 = 4294967295;

const ZERO: Register = Register {
    value: Value::Int(0),
};

// The instructions that a budget allows.
pub fn allowance_of(budget: u64) -> u64
    ensures { result ≡ allowance budget }
{
    budget.min(WORK_LIMIT)
}

// The integers as their bits. This crate alone calls it, with room for as many.
fn bits_of(registers: &[i64], nums: &mut [u64])
    requires { length nums.old ≡ length registers.now }
    ensures { BitsOf registers.now nums.new }
{
    for (i, &z) in registers.iter().enumerate() {
        nums[i] = int64::bits(z);
    }
}

// The registers that two rows hold. `report_from` alone calls it, for a task that has halted: its labels are numbers of blocks.
fn registers_of(rows: &Registers) -> [Register; 16]
    requires { Sized rows.now.nums rows.now.kinds × LabelsFit rows.now.nums rows.now.kinds }
    ensures { result ≡ registers_of rows.now.nums rows.now.kinds }
{
    let mut out = [ZERO; 16];
    for (i, r) in out.iter_mut().enumerate() {
        let value = arms::rows::value_of(rows.kinds[i], rows.nums[i]);
        *r = Register { value };
    }
    out
}

// The report of what an evaluation came to within n instructions, whatever the last task's stack. `evaluate_job` alone calls it.
fn report_from(n: u64, z: Finished, rows: &Registers) -> Report
    requires { CanReport n z rows.now.nums rows.now.kinds }
    ensures { (u : Stacked) → result ≡ report_from n (finished_of z u rows.now.nums rows.now.kinds) }
{
    let done = n - z.left;
    match z.status {
        Status::Halted => {
            let registers = registers_of(rows);
            Report {
                end: End::Halt,
                picks: done,
                work: done as u32,
                span: z.span as u32,
                registers,
            }
        }
        Status::Faulted(fault) => Report {
            end: End::Fault(fault),
            picks: done,
            work: done as u32,
            span: z.span as u32,
            registers: [ZERO; 16],
        },
        _ => Report {
            end: End::NotEnded,
            picks: n,
            work: n as u32,
            span: 0,
            registers: [ZERO; 16],
        },
    }
}

// A job's evaluation within n instructions, reported; the decoded program goes to the lent slice. This crate alone calls it, with an accepted job.
pub fn evaluate_job(
    cells: &[u64],
    code: &mut [u64],
    words: &[i64],
    interval: u64,
    places: u64,
    registers: &[i64],
    n: u64,
) -> Report
    requires { CanRun cells.now (length code.old) places n registers.now }
    ensures { result ≡ report_from n (within_budget n (evaluation_of (program_of cells.now) (chosen interval) places registers.now words.now work_limit)) }
{
    let program = Program { cells };
    arms::decoding::decode(&program, code);
    let mut rows = Registers {
        nums: [0; 16],
        kinds: [0; 16],
    };
    bits_of(registers, &mut rows.nums);
    let job = Code {
        program,
        code,
        words,
        interval,
    };
    let z = evaluator::flat::evaluate(&job, places, n, &mut rows);
    report_from(n, z, &rows)
}
