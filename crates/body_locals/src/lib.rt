//! Locals that branches share: which of the locals declared outside a branch it reads and assigns, and whether
//! two branches get in each other's way by them.
//!
//! A branch starts with a copy of the enclosing locals, and may assign one that no sibling reads or assigns.
//! `clash` finds the first two branches of which one assigns a local that the other reads or assigns, and
//! gives None exactly where there are no such two. It takes no memory. `has_clash` tells in one pass over the locals
//! whether there are such two.
#![tactic(auto)]

mod branch;
mod clashes;
mod meeting;
mod reads;
mod touch;
mod walk;

pub use branch::Touched;
pub use clashes::clash;
pub use meeting::has_clash;
pub use touch::touched;
