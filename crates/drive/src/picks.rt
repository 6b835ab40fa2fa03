// The one loop that carries out picks, in a copy of the state that it is lent. It is told a course; what an instruction does to the state
// is the rest. A turn of the outer loop is one look at a join that is due; or a walk along the stretch, over every pick after which the task runs
// on alone, and then the pick that stopped it, a fork or an ended side, or the next stretch. At its end the register moves are made that it has
// planned. An ended side leaves `due`, the depth whose join is looked at next, and `side`, the slot that it is looked at from.
// The walk and the looks for a row stay in the function: what they keep (`Leads` and `Gathers`, in proofs/) speaks of the course's whole run and
// of a state that fits it, which the contract of a part, made of specs/, does not have.
ghost use Rattle.std.specs.Prelude.{◌≡◌, true, length};
ghost use Rattle.image.specs.Layout.{program_cells, program_of};
ghost use Rattle.image.specs.Questions.{program_no};
ghost use Rattle.drive.specs.Shape.{shape};
ghost use Rattle.drive.specs.Driving.{starts_in, driven};

use crate::{Counts, State, ending, registers, slots, writes};
use task::running::is_running;
use task::{Active, Kind};
use turns::course::{Course, Next, Position};
use turns::rows::Row;
use turns::{moves, records, stacking, walk};

// For a course that has no order.
pub const NO_ORDER: [u8; 1] = [0];

// The picks of a course. Pick, run, dispatcher, `orders` and `job` call it, after the questions that ensure its `requires`.
pub fn drive(cells: &[u64], words: &[i64], lent: &mut State, order: &[u8], course: Course) -> Counts
    requires { (program_no cells.now ≡ 0) × (length cells.now ≡ program_cells) × (shape (program_of cells.now) lent.old ≡ true) × (starts_in course lent.old ≡ true) }
    ensures state_after { lent.new ≡ (driven cells.now words.now lent.old order.now course).state }
    ensures picks { result.picks ≡ (driven cells.now words.now lent.old order.now course).picks }
    ensures rounds { result.rounds ≡ (driven cells.now words.now lent.old order.now course).rounds }
{
    // a copy, so that what the loop reads and writes of it lies at fixed places: lent, it took a quarter more time for a round's pick
    let mut state = *lent;
    let before = state.work;
    let mut p = Position::nowhere(0, before);
    // the depth whose join may be due: no Option, since it counts down to 0, which no fork makes
    let mut due: u32 = 0;
    let mut side = 0usize;
    loop {
        let plan = if 0 < due {
            // one look at a join
            let w = state.tasks[side].places;
            let q = slots::first_slot(side, w);
            if !slots::has_room(q, w) {
                due = 0;
                continue;
            }
            let c = q + (w as usize);
            if !slots::both_ended(state.tasks[q], state.tasks[c], due) {
                due = 0;
                continue;
            }
            side = q;
            due -= 1;
            writes::join_sides(cells, &mut state, q, c)
        } else {
            // a walk, over the picks after which the task runs on
            let mut stop = None;
            while p.walks_on(stop.is_some(), state.work) {
                let k = p.slot;
                let record = state.tasks[k];
                if is_running(record.status) {
                    let active = Active {
                        places: record.places,
                        pc: record.pc,
                        counter: record.counter,
                        depth: record.depth,
                    };
                    let x = image::layout::instruction_of(cells, active.pc as usize);
                    let base = 16 * k;
                    let at_s = base + (x.s as usize);
                    let s = state.bank[at_s].value;
                    let at_v = base + ((x.operand % 16) as usize);
                    let v = task::execution::operand(x, state.bank[at_v].value);
                    let e = task::execution::execute(
                        cells,
                        words,
                        state.interval as u64,
                        x,
                        s,
                        v,
                        active,
                        record.forks,
                    );
                    if records::runs_on(e.kind) {
                        // the record before the register: with a store between, the open forks would be copied out and in
                        state.tasks[k] = records::ran_on(record, e.pc, e.counter);
                        if records::does_store(e.kind) {
                            let at_r = base + (x.r as usize);
                            state.bank[at_r] = moves::holding(e.value);
                        }
                        state.work += 1;
                        p = p.picked_on(state.places, state.work, active.places);
                    } else {
                        stop = Some(e);
                    }
                } else {
                    p = p.gone_by(state.places, walk::width_of(record.places));
                }
            }
            let Some(e) = stop else {
                let first = state.tasks[0];
                let ended = ending::has_ended(ending::end_at(first.depth, first.status));
                // the row of slots that a round takes here: not a `for`, since all places of a slot are gone by at once
                let mut row = Row::new(course.lanes());
                let mut look = 0usize;
                while row.looks_on(look, state.places) {
                    let met = state.tasks[look];
                    if is_running(met.status) {
                        row = row.with_slot(look);
                    }
                    look += walk::width_of(met.places) as usize;
                }
                let next = course.next_stretch(
                    order,
                    p.begun,
                    state.places,
                    state.work,
                    ended,
                    row.slots,
                );
                match next {
                    Next::First(first) => p = first,
                    Next::Over(begun) => {
                        *lent = state;
                        return Counts {
                            picks: (state.work - before) as u64,
                            rounds: course.rounds(begun),
                        };
                    }
                }
                continue;
            };
            // the pick that stopped it
            let k = p.slot;
            state.work += 1;
            let mut kind = e.kind;
            let mut fault = e.fault;
            if stacking::does_stack(kind) {
                // a push or a pop, after which the task runs on unless the stack is full or empty
                let own = state.tasks[k];
                let pops = stacking::does_pop(kind);
                match stacking::entry_of(pops, own.height) {
                    Ok(entry) => {
                        writes::move_value(cells, &mut state, k, pops, entry, e);
                        p = p.picked_on(state.places, state.work, own.places);
                        continue;
                    }
                    Err(no) => {
                        kind = Kind::Faults;
                        fault = no;
                    }
                }
            }
            let record = state.tasks[k];
            if let Kind::Forks = kind {
                p = p.stopped_at(state.places, record.places / 2);
                writes::open_fork(&mut state, k, e)
            } else {
                due = record.depth;
                side = k;
                p = p.stopped_at(state.places, record.places);
                writes::end_side(&mut state, k, kind, fault)
            }
        };
        registers::make_moves(&mut state, &plan);
    }
}
