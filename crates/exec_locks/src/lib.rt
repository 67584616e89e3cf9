//! The open atomic blocks of a run: which task opened each, with which effects, and which tasks stand inside.
//!
//! `Locks` is exact against the openers, each with the effects and the depth of its block, and the adopted tasks, each
//! with its opener and the depth of its own entries. `conflicts` answers the least opener whose block interferes with
//! what a task wants, other than the task itself and its own opener. A block belongs to the task that opened it and to
//! all that are adopted into it, so that an adopted task never waits and its exits release no block.
//!
//! `conflicts` looks at the blocks alone that an index gives: of the held effects, those whose path has the fixed
//! elements that the wanted path begins with, or begins with fewer and then has `[?]`, `*` or its end; and for a read
//! the writes alone. So blocks in regions of their own cost nothing, also where their paths end in `*`. A call hashes
//! the elements of its paths, and takes the logarithm of the open blocks for each block that it looks at; where
//! nothing is held that it has to look at, not even that.
//!
//! A block is noted by hash under each fixed front of its paths. One or two tasks take no memory of their own there;
//! for a third an ordered set is made, which stands until the last has left, and a change of it takes the logarithm of
//! its tasks. To enter or to leave takes the logarithm of all that stand inside blocks besides. The tables keep the room
//! of the most fronts that stood in them at a time.
#![tactic(auto)]

mod index;
mod locks;
mod search;
mod sets;
mod standing;
mod standings;
mod task_set;

pub use locks::Locks;
pub use standing::Standing;
