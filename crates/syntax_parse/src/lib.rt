//! The parser: a text's tokens become the tree of its program, or the text is refused at its first fault.
//!
//! It reads classes, members and statements here, and expressions, types and region paths in `syntax_exprs`; the grammar is
//! in `syntax_grammar`. The time is linear.
//!
//! Proved of what `parse` answers: a tree is the one that the grammar derives, from as many terminals as there are tokens
//! and with none of them left; it has at most as many nodes as the text has bytes; and reading ends. A text is answered
//! exactly where it is read within the limits, and refused exactly where that reading stops: as `syntax` where a terminal
//! can't come, as `nest` where it is one too many.
#![tactic(auto)]

mod classes;
mod members;
mod params;
mod program;
mod stmts;

pub use program::parse;
