ghost use Rattle.std.specs.Prelude.{◌≡◌, ◌≤◌, ◌∷◌, [], Some, length, take, drop, replicate, slice_get, MatchOption};
ghost use Rattle.tool_trace.specs.Runs.{runs_of, line_of};

/// A maximal run of equal numbers in a schedule.
#[derive(Clone, Copy, Debug, PartialEq, Eq)]
pub struct Run {
    pub task: u32,
    /// How many there are, at least 1.
    pub many: usize,
}

/// The line of a trace text, from 1, whose run holds the number at a position of the schedule, from 0; after the last number the line
/// `program`. It takes no memory.
pub fn trace_line(schedule: &[u32], at: u64) -> u64
    ensures { result ≡ line_of schedule.now at }
{
    let mut line = 4;
    let mut rest = schedule;
    let mut left = at;
    while let Some(run) = first_run(rest) {
        let many = run.many as u64;
        if left < many {
            return line;
        }
        line += 1;
        rest = &rest[run.many..];
        left -= many;
    }
    line
}

/// The first run of a schedule.
pub fn first_run(schedule: &[u32]) -> Option<Run>
    ensures { MatchOption result
        (schedule.now ≡ [])
        (λ run. (1 ≤ run.many) × (run.many ≤ length schedule.now)
        × (runs_of schedule.now ≡ run ∷ runs_of (drop run.many schedule.now))) }
{
    let task = *schedule.first()?;
    let many = equal_front(schedule, task);
    Some(Run { task, many })
}

/// How many numbers at the front are this task.
fn equal_front(schedule: &[u32], task: u32) -> usize
    ensures within { result ≤ length schedule.now }
    ensures equal { take result schedule.now ≡ replicate result task }
    ensures other { slice_get schedule.now result ≡ Some task → ⊥ }
{
    for at in 0..schedule.len() {
        if schedule[at] != task {
            return at;
        }
    }
    schedule.len()
}
