use lang_base::{Rpl, Ty};

/// An element of an array, as an access by one index sees it.
#[derive(Debug, Drop)]
pub struct Element {
    pub ty: Ty,
    pub rpl: Rpl,
    /// Whether the access may read.
    pub may_read: bool,
    /// Whether the access may write.
    pub may_write: bool,
}
