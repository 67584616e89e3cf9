//! Which methods and constructors reach a `cobegin_nd` or a `foreach_nd`.
//!
//! `find_forks` follows calls and creations through all bodies, by the classes of receivers alone, along the edges of
//! `specs/Edges.antt`: from each body to what it calls (`specs/Calls.antt`), and from each method to those that
//! override it. A method is marked where an nd construct is in its body or such edges lead to one of which that is so
//! (`specs/Reach.antt`). Each edge is looked at once.
#![tactic(auto)]

mod calls;
mod forking;
mod reach;
mod shape;

pub use forking::find_forks;
