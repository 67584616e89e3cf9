//! The tasks of a run: which have begun, from which branch of which fork, and how they ended.
//!
//! `TaskTree` is exact against the tree of branches: each live task with its step from its parent and, where it has an
//! open scope, the branches of that scope that have begun and how they ended. `join` puts the outputs of the branches
//! together in branch order, up to the first branch that trapped, after what the task has printed itself, whatever the order
//! in which they ended.
//!
//! Tasks are numbered in the order in which they begin, from 0 for the root. A task that has ended is forgotten, and
//! its end stays with its parent's scope until that is joined, so memory grows with the live tasks, and by a bit for each
//! number. `Numbered` finds a task by the place of its number, in pages of 64 numbers. So a call takes constant time, but
//! for one in 64 or so, which opens or closes a page and takes the logarithm of the pages. Besides: `join` takes the length of
//! what it puts together, and `path` the depth of the task.
#![tactic(auto)]

mod closed;
mod end;
mod kept;
mod live;
mod numbered;
mod page;
mod pages;
mod scope;
mod task;
mod tree;

pub use end::{Joined, TaskEnd};
pub use kept::Kept;
pub use numbered::Numbered;
pub use scope::Scope;
pub use task::{Origin, State, Task};
pub use tree::TaskTree;
