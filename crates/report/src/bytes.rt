// The report's bytes.
ghost use Rattle.std.specs.Prelude.{◌≡◌, [], ◌∷◌, ◌≤◌, length};
ghost use Rattle.std.proofs.lemmas.List.Edits.{sets};
ghost use Rattle.report.specs.Report.{end_number, end_fault, report_length, report_bytes, rounds_report_length, rounds_report_bytes};

use crate::{REPORT_BYTES, Report};
use drive::End;
use state::numbers::{write_numbers, write_registers};

// An end's number and its fault's. No `From`: neither type is this crate's, and a type around it would be no plainer.
fn end_numbers(end: End) -> [u64; 2]
    ensures { result ≡ end_number end ∷ end_fault end ∷ [] }
{
    match end {
        End::NotEnded => [0, 0],
        End::Halt => [1, 0],
        End::Fault(n) => [2, n as u64],
    }
}

// The report at the front of a buffer that has room for it.
fn write_front(r: &Report, out: &mut [u8])
    requires { report_length ≤ length out.old }
    ensures { out.new ≡ sets out.old 0 (report_bytes r.now) }
{
    let [end, fault] = end_numbers(r.end);
    write_numbers(out, 0, [end, fault, r.picks]);
    write_numbers(out, 24, [r.work as u64, r.span as u64]);
    write_registers(out, 40, &r.registers);
}

// The whole report. `job` and `steps` call it with a buffer of its length, after question 15.
pub fn write_report(r: Report, out: &mut [u8])
    requires { length out.old ≡ report_length }
    ensures { out.new ≡ report_bytes r }
{
    write_front(&r, out);
}

// The report of so many rounds. `job` calls it with a buffer of its length, after question 15.
pub fn write_rounds_report(r: Report, rounds: u64, out: &mut [u8])
    requires { length out.old ≡ rounds_report_length }
    ensures { out.new ≡ rounds_report_bytes r rounds }
{
    write_front(&r, out);
    int64::write_u64(out, REPORT_BYTES, rounds);
}
