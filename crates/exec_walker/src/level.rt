use crate::item::Item;
use exec_frames::{Frame, Stack};
use lang_base::Value;

/// A body at work: what it has to do, its operands, and its frame.
#[derive(Drop)]
pub struct Level<'p> {
    pub items: Stack<Item<'p>>,
    pub operands: Stack<Value>,
    pub frame: Frame,
}
