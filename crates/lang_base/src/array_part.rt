ghost use Rattle.std.specs.Prelude.{◌≡◌, ◌↔◌, IsTrue, IfOk};

use crate::effect::Access;
use crate::memory::NoMemory;
use crate::plain::Plain;
use crate::region::Rpl;
use std::alloc::Global;

/// The places of an array that one of several branches has.
#[derive(Clone, Copy, Debug, PartialEq, Eq)]
pub struct Part {
    /// The first place, from 0.
    pub from: u32,
    /// How many places.
    pub len: u32,
}

/// An access through a part of an array.
#[derive(Debug, Drop)]
pub struct PartUse {
    /// The number of the part's view.
    pub view: u32,
    /// The region of the array.
    pub rpl: Rpl,
    pub access: Access,
}

impl Plain for PartUse {
    fn copy(&self, alloc: Global) -> Result<PartUse, NoMemory> {
        Ok(PartUse {
            view: self.view,
            rpl: self.rpl.copy(alloc)?,
            access: self.access,
        })
    }

    fn same(&self, other: &PartUse) -> bool {
        self.view == other.view && self.rpl.same(&other.rpl) && self.access == other.access
    }
}
