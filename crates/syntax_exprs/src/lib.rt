//! The lower half of the parser: a cursor on the terminals of a text, and region paths, types and expressions read from it.
//!
//! The cursor counts how deep the text nests and how many operators, elements and suffixes follow each other.
//!
//! Proved of each function: it leaves the cursor after the terminals from which the grammar derives what it answers
//! (`syntax_grammar`), and these are read within the limits; it stops exactly where that reading stops, as `syntax` where
//! a terminal can't come, as `nest` where it is one too many; and it ends.
#![tactic(auto)]

mod cursor;
mod exprs;
mod operator;
mod region;
mod types;

pub use cursor::Cursor;
pub use exprs::{expr, target};
pub use region::{args_if, names, rpl};
pub use types::{named_type, ty};
