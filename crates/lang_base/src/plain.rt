ghost use Rattle.std.specs.Prelude.{◌≡◌, ◌↔◌, IsTrue, IfOk};

use crate::memory::NoMemory;
use std::alloc::Global;

/// Data that a contract sees whole, so that it can be copied and compared exactly.
pub trait Plain: Drop {
    /// An equal value, in memory of its own.
    fn copy(&self, alloc: Global) -> Result<Self, NoMemory>
        ensures { IfOk result (λ copy. copy ≡ self.now) };

    /// Whether the two are equal. It takes no memory.
    fn same(&self, other: &Self) -> bool
        ensures { IsTrue result ↔ (self.now ≡ other.now) };
}

impl Plain for u32 {
    fn copy(&self, _alloc: Global) -> Result<u32, NoMemory> {
        Ok(*self)
    }

    fn same(&self, other: &u32) -> bool {
        *self == *other
    }
}
