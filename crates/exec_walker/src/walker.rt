use crate::Store;
use crate::level::Level;
use crate::waiting::Waiting;
use exec_frames::Stack;
use lang_base::{Place, Trap, Value};
use std::alloc::Global;

/// A walk: the body at work, what waits for it, and what they share.
#[derive(Drop)]
pub struct Walker<'p> {
    pub alloc: Global,
    pub level: Level<'p>,
    pub waiting: Stack<Waiting<'p>>,
    pub store: Store,
}

/// How the root has ended.
#[derive(Clone, Copy, Debug, PartialEq, Eq)]
pub enum Over {
    Returned(Value),
    Trapped(Trap, Place),
}

/// Where a trap is that went up past what waited innermost.
#[derive(Clone, Copy, Debug, PartialEq, Eq)]
pub enum Falling {
    /// It goes on upwards.
    On(Trap, Place),
    /// The walk goes on, or is over.
    Comes(Option<Over>),
}
