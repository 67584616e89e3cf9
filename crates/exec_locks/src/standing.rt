ghost use Rattle.std.specs.Prelude.{◌≡◌, ◌↔◌, IsTrue, Some, true, false};

use lang_base::{Effect, Items};

/// How a task stands to the open blocks.
#[derive(Debug, Drop)]
pub enum Standing {
    /// It opened a block with these effects, and has so many entries open.
    Opener { effects: Items<Effect>, depth: u64 },
    /// It was begun inside the block of another task, and has so many entries of its own open.
    Adopted { opener: u32, depth: u64 },
}

impl Standing {
    ghost use Rattle.exec_locks.specs.Locks.{HasEntry, deepened, is_inner, shallower};

    /// Whether it has an entry open.
    pub fn has_entry(&self) -> bool
        ensures { IsTrue result ↔ HasEntry (Some self.now) }
    {
        match self {
            Standing::Opener { .. } => true,
            Standing::Adopted { depth, .. } => *depth > 0,
        }
    }

    /// Opens an entry more.
    pub fn deepen(&mut self)
        ensures { self.new ≡ deepened self.old }
    {
        match self {
            Standing::Opener { depth, .. } => *depth = depth.saturating_add(1),
            Standing::Adopted { depth, .. } => *depth = depth.saturating_add(1),
        }
    }

    /// Leaves an entry, unless it is the outermost of an opener, and answers whether it did.
    pub fn leave(&mut self) -> bool
        ensures inner { result ≡ is_inner self.old }
        ensures left { result ≡ true → self.new ≡ shallower self.old }
        ensures outermost { result ≡ false → self.new ≡ self.old }
    {
        match self {
            Standing::Opener { depth, .. } => {
                if *depth <= 1 {
                    return false;
                }
                *depth -= 1;
                true
            }
            Standing::Adopted { depth, .. } => {
                *depth = depth.saturating_sub(1);
                true
            }
        }
    }
}
