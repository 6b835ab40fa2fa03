// The plain evaluation of a task within a budget, one task at a time: at a fork the child's side is kept and the parent's goes on; when it has
// ended, the child's is taken and the parent's kept; when both have, their join goes on. Tasks are numbers and rows of numbers.
ghost use Rattle.std.specs.Prelude.{◌≡◌, true, false, ◌<◌};
ghost use Rattle.agreement.specs.Plain.{eval};
ghost use Rattle.serial.specs.Serial.{within_budget};
ghost use Rattle.task.specs.declared.Status.TheVariants.{Running};
ghost use Rattle.task.specs.Frames.{start_frame, work_limit};
ghost use Rattle.arms.specs.Registers.{registers_of};
ghost use Rattle.arms.specs.Turns.{rules};
ghost use Rattle.evaluator.specs.Hands.{Point, LeadsTo, first_hand, over_by, weight, CanEvaluate, Finds, Closes};

use crate::{Finished, Hand, Kept, Rows};
use arms::{Code, Pile, Registers, Way};
use task::Status;

impl Hand {
    // A job's first task.
    fn first(places: u64, budget: u64) -> Hand
        ensures { result ≡ first_hand places budget }
    {
        Hand {
            status: Status::Running,
            places,
            depth: 0,
            pc: 0,
            beat: budget,
            left: budget,
            spun: budget,
            low: 0,
            height: 0,
        }
    }

    fn is_over(self) -> bool
        ensures { result ≡ over_by self.status self.left self.depth }
    {
        match self.status {
            Status::Running => self.left == 0,
            _ => self.depth == 0,
        }
    }

    // One round: a running task's instructions up to one that it does not carry out by itself, and that one; or what comes after the end of a side.
    fn advance(self, code: &Code, rows: &mut Rows) -> Hand
        requires { Point code.now.program.cells.now self rows.old × (over_by self.status self.left self.depth ≡ false) }
        ensures result_bound { weight result < weight self }
        ensures leads_to { LeadsTo code.now.program.cells.now code.now.words.now code.now.interval self rows.old result rows.new }
    {
        if let Status::Running = self.status {
            let ran = self.run_hand(code, rows);
            return match ran.way {
                Way::On => ran.hand,
                way => ran.hand.act(code, way, rows),
            };
        }
        if let Status::Running = rows.sides[(self.depth - 1) as usize].status {
            return self.take_child(rows);
        }
        self.join_parent(&code.program, rows)
    }
}

// All of them.
fn run_all(code: &Code, first: Hand, rows: &mut Rows) -> Hand
    requires { Point code.now.program.cells.now first rows.old }
    ensures depth_value { over_by result.status result.left result.depth ≡ true }
    ensures leads_to { LeadsTo code.now.program.cells.now code.now.words.now code.now.interval first rows.old result rows.new }
{
    let mut hand = first;
    while !hand.is_over() {
        hand = hand.advance(code, rows);
    }
    hand
}

// Our crates alone call it: with the job's places, its first registers, and a budget that is at most the
// work's limit. It leaves the last task's registers, but for those of a faulted one, which are 16 integers 0; its stack is handed to nobody.
pub fn evaluate(code: &Code, places: u64, budget: u64, registers: &mut Registers) -> Finished
    requires { CanEvaluate code.now.program.cells.now places budget registers.old.nums registers.old.kinds }
    ensures finds { Finds result registers.new.nums registers.new.kinds (within_budget budget (eval
        (rules code.now.program.cells.now code.now.words.now code.now.interval) work_limit
        (start_frame places (registers_of registers.old.nums registers.old.kinds)))) }
    ensures left_value { result.status ≡ Running → result.left ≡ 0 }
    ensures closes { Closes code.now.program.cells.now result registers.new.nums registers.new.kinds }
{
    let mut rows = Rows {
        // Row by row: the proof takes their lengths from reading them.
        registers: Registers {
            nums: registers.nums,
            kinds: registers.kinds,
        },
        banks: [Registers {
            nums: [0; 16],
            kinds: [0; 16],
        }; 6],
        records: [0; 6],
        sides: [Kept {
            status: Status::Running,
            places: 0,
            pc: 0,
            span: 0,
            height: 0,
        }; 6],
        pile: Pile {
            nums: [0; 224],
            kinds: [0; 224],
        },
    };
    let z = run_all(code, Hand::first(places, budget), &mut rows);
    *registers = rows.registers;
    Finished {
        status: z.status,
        places: z.places,
        left: z.left,
        span: z.spun - z.left,
    }
}
