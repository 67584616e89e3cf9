use lang_base::Items;

/// The locals declared outside a branch, by their names, that it reads and that it assigns.
#[derive(Debug, Drop)]
pub struct Touched {
    pub reads: Items<u32>,
    pub writes: Items<u32>,
}
