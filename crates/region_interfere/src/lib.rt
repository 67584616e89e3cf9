//! Branches that run side by side: when the effects of two of them clash, so that a `cobegin`, a loop of parallel iterations or a loop over
//! the parts of an array is refused.
//!
//! Two effects clash where they interfere, unless the construct is one of nd, both are marked as inside an atomic block and both paths are
//! atomic: then atomic blocks keep them in order. What is declared atomic is given for a construct of nd, and None for a deterministic one.
//! `first_meeting` gives the first two branches of which an effect of one clashes with an effect of the other, and None exactly where there
//! are no such two. `iterations_clash` is true exactly where an effect of a body clashes with one of another iteration, which is the body's
//! effects with the renamed copy of the loop variable. `is_atomic` says whether a path is atomic.
//!
//! Each branch of a `foreach_parts` has a part of the array of its own, so that what two branches do through their parts meets in no cell.
//! `check_parts` is true exactly where a `foreach` would accept the other effects of the body, and none of these interferes with a use of
//! the part, taken as an effect on the array's region. `as_effects` gives the uses of parts as such effects, each once.
//!
//! What they are good for is said in `laws`: effects that are covered by ones that don't clash don't either.
//!
//! Many effects are put into groups by elements of their paths, such that paths of different groups are disjoint, and are compared with those
//! of their own group and those that belong to none: of branches with regions of their own no pair is compared. A few are all compared with
//! each other. `is_atomic` takes no memory, the others do.
#![tactic(auto)]

mod atomic;
mod by_group;
mod clash;
mod grouping;
mod iterations;
mod key;
pub mod laws;
mod meeting;
mod parts;
mod renaming;
mod seen;
mod thin;

pub use atomic::{Atomic, is_atomic};
pub use iterations::iterations_clash;
pub use meeting::first_meeting;
pub use parts::{as_effects, check_parts};
