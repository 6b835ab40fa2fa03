// The code of each slot, by its task record, the grade of its registers and the reach of its stack.
ghost use Rattle.std.specs.Prelude.{◌≡◌, ◌&&◌, ◌≤◌, eqb, leb};
ghost use Rattle.image.specs.Layout.{program_of, version_of};
ghost use Rattle.task.specs.Formed.{formed, is_vacant};
ghost use Rattle.shape.specs.Codes.{Stored, Answers, code_of, CodedTasks};

use crate::{tasks, tiling};
use image::layout;
use task::Task;
use task::running::is_running;

// What the tests know of a slot.
#[derive(Clone, Copy)]
struct Slot {
    task: Task,
    grade: u8,
    reach: u8,
}

impl Slot {
    // Whether registers of this grade and a stack of this reach fit a live task with this height.
    fn values_fit(&self) -> bool
        ensures { result ≡ leb self.now.grade 1 && (leb self.now.task.height 32 && leb self.now.reach self.now.task.height) }
    {
        self.grade <= 1 && self.task.height <= 32 && u32::from(self.reach) <= self.task.height
    }

    // Whether they are those of a vacant slot.
    fn is_blank(&self) -> bool
        ensures { result ≡ eqb self.now.grade 0 && (eqb self.now.task.height 0 && eqb self.now.reach 0) }
    {
        self.grade == 0 && self.task.height == 0 && self.reach == 0
    }
}

// What they know of the job: an accepted program's buffer with its version, and the rank of the job's 2 ^ rank places.
#[derive(Clone, Copy)]
struct Job<'a> {
    cells: &'a [u64],
    version: u64,
    rank: usize,
    ghost stored: { Stored cells.now },
    ghost versioned: { version ≡ version_of cells.now },
    ghost small: { rank ≤ 6 },
}

impl Job<'_> {
    // A live task of 2 ^ h places.
    fn is_formed(&self, h: usize, slot: &Slot) -> bool
        requires { h ≤ 6 }
        ensures { Answers (program_of self.now.cells.now) (formed (program_of self.now.cells.now) self.now.rank h)
            slot.now.task slot.now.grade slot.now.reach result }
    {
        let t = slot.task;
        if t.places != tiling::power(h) {
            return false;
        }
        if t.depth as usize + h != self.rank {
            return false;
        }
        if layout::instruction_count(self.cells) <= u64::from(t.pc) {
            return false;
        }
        if !tasks::status_fits(self.version, t, slot.grade == 0) {
            return false;
        }
        if !tasks::forks_fit(self.cells, t.depth, t.forks) {
            return false;
        }
        slot.values_fit()
    }

    // A slot without a task. At depth 0 forks_fit asks that every entry is 0.
    fn is_vacant(&self, slot: &Slot) -> bool
        ensures { Answers (program_of self.now.cells.now) is_vacant slot.now.task slot.now.grade slot.now.reach result }
    {
        let t = slot.task;
        if !tasks::is_vacant_status(t.status) {
            return false;
        }
        if t.places != 0 {
            return false;
        }
        if t.span != 0 {
            return false;
        }
        if t.depth != 0 {
            return false;
        }
        if !tasks::is_at_rest(t) {
            return false;
        }
        if !tasks::forks_fit(self.cells, t.depth, t.forks) {
            return false;
        }
        slot.is_blank()
    }

    // 0 vacant, h + 1 a running task of 2 ^ h places, h + 9 another task, 255 what no slot may hold. A number and no enum: `code` and `tiled`
    // (specs/Codes.antt), which may not change, are over it.
    fn code_of(&self, slot: &Slot) -> u8
        ensures { Answers (program_of self.now.cells.now) (code_of (program_of self.now.cells.now) self.now.rank)
            slot.now.task slot.now.grade slot.now.reach result }
    {
        if self.is_vacant(slot) {
            return 0;
        }
        let h = self.rank.saturating_sub(slot.task.depth as usize);
        if !self.is_formed(h, slot) {
            return 255;
        }
        if is_running(slot.task.status) {
            return h as u8 + 1;
        }
        h as u8 + 9
    }
}

// The code of each slot. `machine` alone calls it, with the version in the buffer and a rank that it has found to be at most 6; `Stored`: as in
// registers.rt. Grades and reaches stand beside the tasks, not in one array of slots, as `CodedTasks` (specs/Codes.antt) has them.
pub fn code_slots(
    cells: &[u64],
    version: u64,
    rank: usize,
    tasks: [Task; 64],
    grades: [u8; 64],
    reaches: [u8; 64],
) -> [u8; 64]
    requires { Stored cells.now × (version ≡ version_of cells.now) × (rank ≤ 6) }
    ensures { CodedTasks (program_of cells.now) rank tasks grades reaches result }
{
    let job = Job {
        cells,
        version,
        rank,
    };
    let mut codes = [0u8; 64];
    for k in 0..64 {
        let slot = Slot {
            task: tasks[k],
            grade: grades[k],
            reach: reaches[k],
        };
        codes[k] = job.code_of(&slot);
    }
    codes
}
