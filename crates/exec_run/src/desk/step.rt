/// What a call at the desk did. `front` is the length of the schedule afterwards.
#[derive(Clone, Copy, Debug, PartialEq, Eq)]
pub enum DeskStep {
    /// A burst of events of this task was made.
    Stepped { task: u32, front: u64 },
    /// The machine had finished before.
    Finished { front: u64 },
    /// It hadn't, and no task was ready.
    NoneReady { front: u64 },
}
