use crate::action::{Action, Ending};

/// What an instruction comes to that isn't one of values and jumps.
#[derive(Drop)]
pub enum Step {
    /// The next instruction.
    Goes,
    /// A new local region, for a declaration; the level is as it was.
    Makes(u32),
    Ends(Ending),
    /// An action; the task is as it was.
    Waits(Action),
    /// No instruction fits. Fit code never comes to it.
    Stuck,
}
