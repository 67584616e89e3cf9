use crate::action::Ending;
use exec_frames::{Frame, Stack};
use lang_base::Value;

/// A body at work.
#[derive(Drop)]
pub struct Level {
    pub body: usize,
    /// The instruction that comes next, by its position.
    pub at: usize,
    pub frame: Frame,
    pub stack: Stack<Value>,
}

/// How a task starts.
#[derive(Drop)]
pub struct Start {
    pub body: usize,
    pub frame: Frame,
}

/// How a task stands in its level.
#[derive(Drop)]
pub enum Standing {
    /// At an instruction.
    At,
    /// In front of an entry, where it has rested.
    Rested,
    Ended(Ending),
    /// In a body that isn't there. Fit code never comes to it.
    Nowhere,
}

/// A task that runs code.
#[derive(Drop)]
pub struct Task {
    pub number: u32,
    pub standing: Standing,
    pub level: Level,
    pub callers: Stack<Level>,
    /// How many ticks it has made since its last answer.
    pub ticks: u32,
    /// How many local regions it has made.
    pub made: u32,
}
