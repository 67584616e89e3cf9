/// What stands under a number of the heap.
#[derive(Clone, Copy, Debug, PartialEq, Eq)]
pub enum Kind {
    /// An object of the class with this number.
    Instance(u32),
    Array,
}

/// What is kept of an object or array beside its values.
#[derive(Clone, Copy, Debug, PartialEq, Eq)]
pub struct Header {
    pub kind: Kind,
    /// Where its values begin in the cells.
    pub start: u32,
    /// How many values it has.
    pub len: u32,
    /// Which row has its regions.
    pub row: u32,
}
