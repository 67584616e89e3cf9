ghost use Rattle.std.specs.Prelude.{◌≡◌, ◌↔◌, IsTrue, IfOk};

use crate::memory::NoMemory;
use crate::plain::Plain;
use crate::region::Rpl;
use std::alloc::Global;

/// What is done to a place in memory.
#[derive(Clone, Copy, Debug, PartialEq, Eq, Hash)]
pub enum Access {
    Read,
    Write,
}

/// An access to the regions that a path stands for.
#[derive(Debug, Drop, PartialEq, Eq, Hash)]
pub struct Effect {
    pub access: Access,
    /// Marked: the access stands inside an atomic block.
    pub atomic: bool,
    pub rpl: Rpl,
}

/// `left # right`: the two paths have no region in common.
#[derive(Debug, Drop)]
pub struct Constraint {
    pub left: Rpl,
    pub right: Rpl,
}

impl Plain for Effect {
    fn copy(&self, alloc: Global) -> Result<Effect, NoMemory> {
        Ok(Effect {
            access: self.access,
            atomic: self.atomic,
            rpl: self.rpl.copy(alloc)?,
        })
    }

    fn same(&self, other: &Effect) -> bool {
        self.access == other.access && self.atomic == other.atomic && self.rpl.same(&other.rpl)
    }
}

impl Plain for Constraint {
    fn copy(&self, alloc: Global) -> Result<Constraint, NoMemory> {
        Ok(Constraint {
            left: self.left.copy(alloc)?,
            right: self.right.copy(alloc)?,
        })
    }

    fn same(&self, other: &Constraint) -> bool {
        self.left.same(&other.left) && self.right.same(&other.right)
    }
}
