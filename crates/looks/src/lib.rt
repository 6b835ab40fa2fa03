// A round looks over the task records in slot order and takes the first tasks running at the round's start, one a lane, until the lanes or the
// tasks are used up.
#![tactic(auto)]

ghost use Rattle.std.specs.Prelude.{◌≡◌, ◌<◌};
ghost use Rattle.looks.specs.Looking.{looked, walked, tasks_taken};

use task::Task;
use task::running::is_running;

// Where a round stands: the slot that it looks at next, and the lanes that are left. The tasks taken are the lanes gone, and have no count of
// their own.
#[derive(Clone, Copy, Debug, PartialEq, Eq)]
pub struct Look {
    pub at: usize,
    pub lanes: u64,
}

// One look, at the record t of slot from.at. With no lane left it goes to the end, so that the walk stops.
fn look_at(from: Look, t: &Task, end: usize) -> Look
    requires { from.at < end }
    ensures { (result ≡ looked from t.now end) × (from.at < result.at) }
{
    if from.lanes == 0 {
        return Look { at: end, lanes: 0 };
    }
    if is_running(t.status) {
        return Look {
            at: from.at + 1,
            lanes: from.lanes - 1,
        };
    }
    Look {
        at: from.at + 1,
        ..from
    }
}

// The looks of a round, over records that are lent. No `for`: the slot is the look's own, and a look may go to the end.
pub fn walk(tasks: &[Task], from: Look) -> Look
    ensures { result ≡ walked tasks.now from }
{
    let mut l = from;
    while let Some(t) = tasks.get(l.at) {
        l = look_at(l, t, tasks.len());
    }
    l
}

// How many tasks a round with so many lanes takes.
pub fn lanes_used(tasks: &[Task], lanes: u64) -> u64
    ensures { result ≡ tasks_taken tasks.now lanes }
{
    let last = walk(tasks, Look { at: 0, lanes });
    lanes - last.lanes
}
