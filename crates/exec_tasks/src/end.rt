use lang_base::{Bytes, Items, Place, SlotValue, Trap};

/// How a task ended.
#[derive(Debug, Drop)]
pub struct TaskEnd {
    /// What it printed, with the output of what it joined.
    pub out: Bytes,
    /// The trap that ended it, and where in the text.
    pub trap: Option<(Trap, Place)>,
    /// The slots that it assigned and that a join copies back.
    pub slots: Items<SlotValue>,
}

/// What the branches of a scope came to.
#[derive(Debug, Drop)]
pub struct Joined {
    /// The trap of the first branch, in branch order, that has one.
    pub trap: Option<(Trap, Place)>,
    /// The slots that the branches assigned, in branch order.
    pub slots: Items<SlotValue>,
}
