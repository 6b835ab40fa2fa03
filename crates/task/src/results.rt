// What an instruction leaves of a task.
ghost use Rattle.std.specs.Prelude.{◌≡◌, ◌<◌};
ghost use Rattle.image.specs.Questions.{most_instructions};
ghost use Rattle.task.specs.declared.Kind.TheVariants.{Faults};
ghost use Rattle.task.specs.Frames.{work_limit};
ghost use Rattle.task.specs.Execute.{counted_active, passing, storing, going, ending};

use crate::{Active, Executed, Kind, Value};

// An instruction adds 1 to the counter. The machine ensures that the work is below its limit, and the counter is at most the work.
pub fn count(t: Active) -> Active
    requires { t.counter < work_limit }
    ensures { result ≡ counted_active t }
{
    let mut n = t;
    n.counter = t.counter + 1;
    n
}

// The task goes on to the next instruction. Our crates alone call it; the shape test has put pc inside the program.
pub fn pass(kind: Kind, value: Value, t: Active) -> Executed
    requires { t.pc < most_instructions }
    ensures { result ≡ passing kind value t }
{
    Executed {
        kind,
        value,
        pc: t.pc + 1,
        counter: t.counter,
        fault: 0,
        child: 0,
    }
}

// As above.
pub fn store(v: Value, t: Active) -> Executed
    requires { t.pc < most_instructions }
    ensures { result ≡ storing v t }
{
    pass(Kind::Stores, v, t)
}

pub fn go(pc: u16, counter: u32) -> Executed
    ensures { result ≡ going pc counter }
{
    Executed {
        kind: Kind::Goes,
        value: Value::Int(0),
        pc,
        counter,
        fault: 0,
        child: 0,
    }
}

// The task does not run on: it waits, has halted, or has faulted with this number, which is 0 for the others.
pub fn end(kind: Kind, fault: u8) -> Executed
    ensures { result ≡ ending kind fault }
{
    Executed {
        kind,
        value: Value::Int(0),
        pc: 0,
        counter: 0,
        fault,
        child: 0,
    }
}

// The number is the question's: `ending` (specs/Execute.antt), which may not change, and the state that C reads have it so.
pub fn fault(number: u8) -> Executed
    ensures { result ≡ ending Faults number }
{
    end(Kind::Faults, number)
}
