//! The heap of a run: its objects and arrays, and the cells that they and the printed bytes cost.
//!
//! Objects and arrays are numbered from 0 in the order in which they are made. An object costs one cell and one more
//! for each field, an array one cell and its length; `charge` counts cells for anything else, and nothing is given
//! back. Each call is exact against the list of objects with the cells used and the limit, which is what a contract
//! sees of a heap. A call that is refused, by the limit or since memory runs out, leaves it as it was.
//!
//! All values stand in one vector, one object's after the other's, and a second vector says where each object's
//! begin. So `read` and `write` take the time of one test of the bounds. Making an object takes time in proportion
//! to its values and the lengths of its regions, on average over many: rows of equal regions are stored once, and
//! found by a hash of their elements.
#![tactic(auto)]

mod header;
mod heap;
mod row;
mod rows;
mod stop;

pub use heap::Heap;
pub use stop::{HeapFull, HeapStop};
