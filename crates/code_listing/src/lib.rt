//! The listing of compiled code: the text that the command `list` writes.
//!
//! Each body of the code has a line with its title, and after it a line for each of its instructions: the position, right in
//! four places, the name, and the operand where there is one. A label is the position that it names; sites and texts are given
//! by their numbers.
//!
//! What it promises: `listing` gives exactly the bytes of that text, as `specs/Listing.antt` says it, or runs out of memory.
//! The text depends on the code's plain form and the titles of its bodies alone (`laws::law_plain`).
//! Its time and memory grow with the code alone.
#![tactic(auto)]

mod bodies;
mod instr;
pub mod laws;
mod line;
#[cfg(test)]
mod trials;

pub use bodies::listing;
