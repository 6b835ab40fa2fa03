// Whether a record fits the task in hand: the records of its open forks stand in a row, outermost first.
ghost use Rattle.std.specs.Prelude.{◌≡◌, ◌≤◌};
ghost use Rattle.task.specs.Effect.{fits};
ghost use Rattle.evaluator.specs.Banks.{fork_of, forks_of, Nested};

// A record of the task's own depth fits. One of a smaller depth fits exactly where it is the innermost open fork's, which by `Nested` fitted the forks
// outside it when it was opened. This crate alone calls it, with the depth of a well-formed task; `Point` has `Nested`.
pub fn does_fit(records: &[u64; 6], under: u64, depth: u64) -> bool
    requires { (depth ≤ 6) × Nested records.now depth }
    ensures { result ≡ fits (fork_of under) depth (forks_of records.now depth) }
{
    let low = under % 4294967296;
    if depth < low {
        return false;
    }
    if depth == low {
        return true;
    }
    records[(depth - 1) as usize] == under
}
