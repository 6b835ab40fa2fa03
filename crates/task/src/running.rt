// Whether a task runs.
ghost use Rattle.std.specs.Prelude.{◌≡◌};
ghost use Rattle.task.specs.Frames.{is_running};

use crate::Status;

pub fn is_running(s: Status) -> bool
    ensures { result ≡ is_running s }
{
    s == Status::Running
}
