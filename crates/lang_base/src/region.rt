ghost use Rattle.std.specs.Prelude.{◌≡◌, ◌↔◌, IsTrue, IfOk};

use crate::elems::Elems;
use crate::memory::NoMemory;
use crate::plain::Plain;
use std::alloc::Global;

/// Where a region path begins.
#[derive(Clone, Copy, Debug, PartialEq, Eq, Hash)]
pub enum Head {
    Root,
    /// A region parameter, by its number.
    Param(u32),
}

/// A region path list: what a program writes of regions.
#[derive(Debug, Drop, PartialEq, Eq, Hash)]
pub struct Rpl {
    pub head: Head,
    pub elems: Elems,
}

/// A concrete region: the path from the root to one region of a run. Its elements are names, whole numbers
/// and made local regions; the region of an array has its own index, `At(Own(0))`, wherever its index goes in.
#[derive(Debug, Drop)]
pub struct Region {
    pub elems: Elems,
}

impl Plain for Rpl {
    fn copy(&self, alloc: Global) -> Result<Rpl, NoMemory> {
        Ok(Rpl {
            head: self.head,
            elems: self.elems.copy(alloc)?,
        })
    }

    fn same(&self, other: &Rpl) -> bool {
        self.head == other.head && self.elems.same(&other.elems)
    }
}

impl Plain for Region {
    fn copy(&self, alloc: Global) -> Result<Region, NoMemory> {
        Ok(Region {
            elems: self.elems.copy(alloc)?,
        })
    }

    fn same(&self, other: &Region) -> bool {
        self.elems.same(&other.elems)
    }
}
