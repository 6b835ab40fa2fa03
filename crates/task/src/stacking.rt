// Opcodes 16 and 17: push and pop. The stack is the machine's: by the answer's kind it asks the stack's question (42, 43) and changes it in
// place.
ghost use Rattle.std.specs.Prelude.{◌≡◌, ◌<◌, List, ℤ};
ghost use Rattle.image.specs.Program.{Program};
ghost use Rattle.image.specs.Questions.{most_instructions};
ghost use Rattle.task.specs.declared.Fork.{Fork};
ghost use Rattle.task.specs.Choices.{Choices};
ghost use Rattle.task.specs.Effect.{push, pop};
ghost use Rattle.task.specs.Execute.{answered};

use crate::results::pass;
use crate::{Active, Executed, Kind, Value};

// Any value. Execute alone calls it; the shape test has put pc inside the program.
pub fn push(v: Value, t: Active) -> Executed
    requires { t.pc < most_instructions }
    ensures { (p : Program) (w : List ℤ) (c : Choices) (s : Value) (o : List Fork) → result ≡ answered p w c s v t o push }
{
    pass(Kind::Pushes, v, t)
}

// The value pushed last: the machine has it. As above.
pub fn pop(t: Active) -> Executed
    requires { t.pc < most_instructions }
    ensures { (p : Program) (w : List ℤ) (c : Choices) (s v : Value) (o : List Fork) → result ≡ answered p w c s v t o pop }
{
    pass(Kind::Pops, Value::Int(0), t)
}
