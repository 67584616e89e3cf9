use lang_base::{NoMemory, Plain};
use std::alloc::Global;

/// How much of a written item of a summary is kept.
#[derive(Clone, Copy, Debug, PartialEq, Eq)]
pub enum Kept {
    Nothing,
    /// The item, as a read.
    Read,
    /// The item as it is written.
    Whole,
}

impl Plain for Kept {
    fn copy(&self, _alloc: Global) -> Result<Kept, NoMemory> {
        Ok(*self)
    }

    fn same(&self, other: &Kept) -> bool {
        *self == *other
    }
}
