use exec_task::Action;
use lang_base::{Effect, Items};

/// What a task does next.
#[derive(Drop)]
pub struct Event {
    pub task: u32,
    /// How many ticks it has made since its last event.
    pub ticks: u32,
    pub action: Action,
    /// Where it rests in front of an entry: the effects with which it is to enter.
    pub wants: Option<Items<Effect>>,
}
