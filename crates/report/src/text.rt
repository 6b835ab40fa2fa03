// The report's text.
ghost use Rattle.std.specs.Prelude.{◌≡◌, ◌++◌, ◌+◌, ◌<◌, ◌≤◌, length};
ghost use Rattle.std.proofs.lemmas.List.Edits.{sets};
ghost use Rattle.report.specs.Words.{Written, decimal};
ghost use Rattle.report.specs.Text.{end_line, span_line, value_text, register_line, register_lines, text_of, refused_text, text_room};

use crate::Report;
use crate::words::{write_decimal, write_line, write_signed, write_word};
use drive::End;
use task::{Register, Value};

fn write_end(out: &mut [u8], at: usize, end: End) -> usize
    requires { at + 31 ≤ length out.old }
    ensures { Written 31 out.old at (end_line end) out.new result }
{
    match end {
        End::NotEnded => write_word(out, at, b"end spent\n"),
        End::Halt => write_word(out, at, b"end halt\n"),
        End::Fault(n) => write_line(out, at, b"end fault ", n as u64),
    }
}

fn write_record(out: &mut [u8], at: usize, c: u32, d: u32) -> usize
    requires { at + 46 ≤ length out.old }
    ensures { Written 46 out.old at (value_text (Value.Record c d)) out.new result }
{
    let first = write_word(out, at, b" rec ");
    let space = write_decimal(out, first, c as u64);
    let second = write_word(out, space, b" ");
    write_decimal(out, second, d as u64)
}

fn write_value(out: &mut [u8], at: usize, v: Value) -> usize
    requires { at + 46 ≤ length out.old }
    ensures { Written 46 out.old at (value_text v) out.new result }
{
    match v {
        Value::Int(z) => {
            let next = write_word(out, at, b" int ");
            write_signed(out, next, z)
        }
        Value::Label(b) => {
            let next = write_word(out, at, b" lab ");
            write_decimal(out, next, b as u64)
        }
        Value::Record(c, d) => write_record(out, at, c, d),
    }
}

// A register's number has one digit or two.
fn write_index(out: &mut [u8], at: usize, i: u64) -> usize
    requires { (at + 20 ≤ length out.old) × (i < 16) }
    ensures { Written 2 out.old at (decimal i) out.new result }
{
    write_decimal(out, at, i)
}

fn write_register(out: &mut [u8], at: usize, i: u64, r: Register) -> usize
    requires { (at + 50 ≤ length out.old) × (i < 16) }
    ensures { Written 50 out.old at (register_line i r.value) out.new result }
{
    let index = write_word(out, at, b"r");
    let value = write_index(out, index, i);
    let end = write_value(out, value, r.value);
    write_word(out, end, b"\n")
}

fn write_registers(out: &mut [u8], at: usize, registers: &[Register; 16]) -> usize
    requires { at + 800 ≤ length out.old }
    ensures { Written 800 out.old at (register_lines registers.now 16) out.new result }
{
    let mut next = at;
    for (i, r) in registers.iter().enumerate() {
        next = write_register(out, next, i as u64, *r);
    }
    next
}

fn write_results(out: &mut [u8], at: usize, r: &Report) -> usize
    requires { at + 826 ≤ length out.old }
    ensures { Written 826 out.old at (span_line r.now.span ++ register_lines r.now.registers 16) out.new result }
{
    let next = write_line(out, at, b"span ", r.span as u64);
    write_registers(out, next, &r.registers)
}

// Answers the text's length; the bytes after it stay as they were. `job` calls it, with a buffer that it has found to have 1,024 bytes.
pub fn write_text(r: Report, out: &mut [u8]) -> usize
    requires { length out.old ≡ text_room }
    ensures { (result ≡ length (text_of r)) × (out.new ≡ sets out.old 0 (text_of r)) }
{
    let work = write_end(out, 0, r.end);
    let next = write_line(out, work, b"work ", r.work as u64);
    match r.end {
        End::NotEnded => next,
        End::Halt | End::Fault(_) => write_results(out, next, &r),
    }
}

// The same of a refusal. `job` calls it, as above.
pub fn write_refused(no: u8, out: &mut [u8]) -> usize
    requires { length out.old ≡ text_room }
    ensures { (result ≡ length (refused_text no)) × (out.new ≡ sets out.old 0 (refused_text no)) }
{
    write_line(out, 0, b"refused ", no as u64)
}
