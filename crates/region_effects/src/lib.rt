//! Effects: reads and writes of region paths, plain or marked as inside an atomic block.
//!
//! `covers` and `interferes` are exactly their definitions in `lang_base`. `EffectSet` is a list of distinct
//! effects in the order in which they came. What they are good for is said in `laws`: what is covered by effects
//! that don't interfere doesn't interfere.
//!
//! A set that is not needed any more gives its effects up, to a list or to another set, and nothing is copied.
//!
//! What makes or grows a set takes memory, and if it runs out, a set is as it was. A few effects are kept as a list, and
//! more of them in an `IndexSet`.
#![tactic(auto)]

mod effect;
pub mod laws;
mod set;

pub use effect::{covers, interferes};
pub use set::EffectSet;
