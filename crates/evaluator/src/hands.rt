// The task in hand: its instructions by itself, and then one that it does not carry out by itself.
ghost use Rattle.std.specs.Prelude.{◌≡◌, ◌-◌, ◌/◌, ◌<◌, ◌≤◌, set};
ghost use Rattle.task.specs.Values.{record_of};
ghost use Rattle.task.specs.declared.Status.TheVariants.{Running};
ghost use Rattle.task.specs.declared.Kind.TheVariants.{Forks};
ghost use Rattle.arms.specs.Arms.{IfOn};
ghost use Rattle.arms.specs.Turns.{Starts, Ends};
ghost use Rattle.evaluator.specs.Banks.{bank_of, fork_of};
ghost use Rattle.evaluator.specs.Hands.{Keeps, Full, Piled, Point, LeadsTo, Rests};
ghost use Rattle.evaluator.specs.Hands.{gone_on, ended_with, parent_of, child_of, Pushed, Popped, Applied};

use crate::{Hand, Kept, Ran, Rows};
use arms::stacking::{pop_to, push_on};
use arms::turning::run_on;
use arms::{Code, Going, Pair, Pile, Registers, Way};
use task::{Executed, Kind, Status, Value};

// The record that a fork is opened under, as one number; no fork is opened under another value.
fn record_bits(v: Value) -> u64
    ensures { fork_of result ≡ record_of v }
{
    match v {
        Value::Int(_) => 0,
        Value::Label(_) => 0,
        Value::Record(continuation, depth) => 4294967296 * (continuation as u64) + (depth as u64),
    }
}

impl Hand {
    // The instructions by itself. `advance` alone calls it, with a running task.
    pub fn run_hand(self, code: &Code, rows: &mut Rows) -> Ran
        requires { Starts code.now.program.cells.now rows.old.registers.nums rows.old.registers.kinds rows.old.pile.nums rows.old.pile.kinds
            self.places self.depth self.left self.beat self.pc self.low self.height × (self.status ≡ Running) }
        ensures rests { Rests code.now.program.cells.now code.now.words.now code.now.interval self result (bank_of rows.new.registers) }
        ensures leads_to { Point code.now.program.cells.now self rows.old → LeadsTo code.now.program.cells.now code.now.words.now code.now.interval self rows.old result.hand
            rows.new }
        ensures same_banks { rows.new.banks ≡ rows.old.banks }
        ensures same_records { rows.new.records ≡ rows.old.records }
        ensures same_sides { rows.new.sides ≡ rows.old.sides }
    {
        let going = Going {
            places: self.places,
            depth: self.depth,
            left: self.left,
            beat: self.beat,
            pc: self.pc,
            low: self.low,
            height: self.height,
        };
        let ran = run_on(code, &mut rows.registers, &mut rows.pile, going);
        Ran {
            way: ran.way,
            hand: Hand {
                status: Status::Running,
                places: self.places,
                depth: self.depth,
                pc: ran.pc,
                beat: ran.beat,
                left: ran.left,
                spun: self.spun,
                low: self.low,
                height: ran.height,
            },
        }
    }

    // An instruction has been counted, and the task goes on, with so many values on its stack. `apply` and what it calls alone call these three.
    fn go_on(self, pc: u16, counter: u32, height: u64) -> Hand
        requires { (0 < self.left) × (self.left ≤ 4294967295) }
        ensures { result ≡ gone_on self pc counter height }
    {
        let left = self.left - 1;
        Hand {
            status: Status::Running,
            places: self.places,
            depth: self.depth,
            pc: 4 * (pc as usize),
            beat: left + (counter as u64),
            left,
            spun: self.spun,
            low: self.low,
            height,
        }
    }

    fn end_with(self, status: Status, height: u64) -> Hand
        requires { 0 < self.left }
        ensures { result ≡ ended_with self status height }
    {
        Hand {
            status,
            places: self.places,
            depth: self.depth,
            pc: 0,
            beat: self.left - 1,
            left: self.left - 1,
            spun: self.spun,
            low: self.low,
            height,
        }
    }

    // The child's side is kept, with an empty stack, and the parent's goes on.
    fn open_fork(self, under: u64, e: Executed, rows: &mut Rows) -> Hand
        requires { (self.depth < 6) × (0 < self.left) × (self.left ≤ 4294967295) × (self.left ≤ self.spun) }
        ensures value { result ≡ parent_of self e.pc e.counter }
        ensures banks_after { rows.new.banks ≡ set rows.old.banks self.depth rows.old.registers }
        ensures records_after { rows.new.records ≡ set rows.old.records self.depth under }
        ensures keeps { Keeps rows.old.sides self.depth (child_of self e.child) rows.new.sides }
        ensures same_registers { rows.new.registers ≡ rows.old.registers }
        ensures same_pile { rows.new.pile ≡ rows.old.pile }
    {
        let at = self.depth as usize;
        let rest = self.left - 1;
        let places = self.places / 2;
        rows.save(at);
        rows.records[at] = under;
        rows.sides[at] = Kept {
            status: Status::Running,
            places,
            pc: 4 * (e.child as usize),
            span: self.spun - rest,
            height: 0,
        };
        Hand {
            status: Status::Running,
            places,
            depth: self.depth + 1,
            pc: 4 * (e.pc as usize),
            beat: rest + (e.counter as u64),
            left: rest,
            spun: self.spun,
            low: self.low,
            height: self.height,
        }
    }

    // The value goes on the stack, where a place is left (42). `apply` alone calls these two: by `Point` the stack lies on the pile.
    fn push_value(self, e: Executed, pile: &mut Pile) -> Hand
        requires { (self.low ≤ 192) × (0 < self.left) × (self.left ≤ 4294967295) }
        ensures { Pushed self e pile.old.nums pile.old.kinds result pile.new.nums pile.new.kinds }
    {
        let p = Pair::from(e.value);
        match push_on(pile, self.low, self.height, p.num, p.kind) {
            Some(height) => self.go_on(e.pc, e.counter, height),
            None => self.end_with(Status::Faulted(42), 0),
        }
    }

    // The value pushed last goes to r, where there is one (43); its place on the pile is not in use any more.
    fn pop_value(self, r: u64, e: Executed, registers: &mut Registers, pile: &Pile) -> Hand
        requires { (self.low ≤ 192) × (self.height ≤ 32) × (r < 16) × (0 < self.left) × (self.left ≤ 4294967295) }
        ensures { Popped self r e pile.now.nums pile.now.kinds registers.old.nums registers.old.kinds result registers.new.nums registers.new.kinds }
    {
        match pop_to(registers, r as usize, pile, self.low, self.height) {
            Some(height) => self.go_on(e.pc, e.counter, height),
            None => self.end_with(Status::Faulted(43), 0),
        }
    }

    // What an instruction makes of the task and of the rows. `act` alone calls it, below the work's limit; `Point` has what is said of the pile.
    fn apply(self, r: u64, e: Executed, rows: &mut Rows) -> Hand
        requires { Full rows.old × (r < 16) × (0 < self.left) × (self.left ≤ 4294967295) × (self.left ≤ self.spun) × (e.kind ≡ Forks → self.depth < 6) ×
            Piled self rows.old.sides × (self.depth ≤ 6) × (self.height ≤ 32) }
        ensures { Applied self rows.old r e result rows.new }
    {
        match e.kind {
            Kind::Stores => {
                let p = Pair::from(e.value);
                rows.registers.put(r as usize, p.num, p.kind);
                self.go_on(e.pc, e.counter, self.height)
            }
            Kind::Goes => self.go_on(e.pc, e.counter, self.height),
            Kind::Pushes => self.push_value(e, &mut rows.pile),
            Kind::Pops => self.pop_value(r, e, &mut rows.registers, &rows.pile),
            Kind::Waits => self.end_with(Status::Waiting, self.height),
            Kind::Halts => self.end_with(Status::Halted, self.height),
            Kind::Faults => self.end_with(Status::Faulted(e.fault), 0),
            Kind::Forks => self.open_fork(record_bits(e.value), e, rows),
        }
    }

    // The instruction that the task does not carry out by itself. `advance` alone calls it, with a running task and something left; `run_hand`
    // ensures `Ends`.
    pub fn act(self, code: &Code, way: Way, rows: &mut Rows) -> Hand
        requires { Point code.now.program.cells.now self rows.old × (self.status ≡ Running) × (0 < self.left) × IfOn way ⊥
            × Ends code.now.program.cells.now code.now.words.now code.now.interval self.places self.depth way (self.pc / 4) (self.beat - self.left) (bank_of rows.old.registers) }
        ensures left_lt_left { result.left < self.left }
        ensures leads_to { LeadsTo code.now.program.cells.now code.now.words.now code.now.interval self rows.old result rows.new }
    {
        let x = code.program.instruction(self.pc / 4);
        let e = self.ending(code, way, rows);
        self.apply(x.r, e, rows)
    }
}
