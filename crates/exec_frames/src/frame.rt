ghost use Rattle.std.specs.Prelude.{◌≡◌, ◌-◌, IfOk};

use lang_base::{Items, NoMemory, Plain, Region, Value};
use std::alloc::Global;

/// What a body works with.
#[derive(Drop)]
pub struct Frame {
    /// The values of its slots.
    pub values: Items<Value>,
    /// What its region parameters stand for.
    pub regions: Items<Region>,
    /// What its local regions stand for: each the number of the task that made it, and its count there, from 1, or in a walk
    /// its number and 1; or, not made yet, its declaration and 0.
    pub locals: Items<(u32, u32)>,
    /// How many calls deeper it may go.
    pub left: u32,
}

impl Frame {
    /// An equal frame, one call deeper.
    pub fn deeper(&self, alloc: Global) -> Result<Frame, NoMemory>
        ensures { IfOk result (λ frame. frame ≡ record self.now { left = self.now.left - 1 }) }
    {
        Ok(Frame {
            values: copied(alloc, self.values.as_slice())?,
            regions: self.regions.copy(alloc)?,
            locals: copied(alloc, self.locals.as_slice())?,
            left: self.left.saturating_sub(1),
        })
    }
}

/// The same items, with room for no more.
fn copied<T: Copy + Drop>(alloc: Global, items: &[T]) -> Result<Items<T>, NoMemory>
    ensures { IfOk result (λ copies. copies ≡ items.now) }
{
    Ok(Items::from_vec(Vec::from_slice(alloc, items)?))
}
