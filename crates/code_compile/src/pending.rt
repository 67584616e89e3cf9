use lang_typed::Stmt;

/// A branch whose body is still to be generated.
#[derive(Clone, Copy, Drop)]
pub struct Pending<'p> {
    /// The site of its construct, and its number there.
    pub site: usize,
    pub number: usize,
    /// The first slot of the part that it takes.
    pub takes: Option<usize>,
    pub stmt: &'p Stmt,
}
