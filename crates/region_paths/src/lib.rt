//! Region paths: when one lies in another, when one is fully specified, when two can never name the same place, and what a path is with
//! arguments put in for its parameters.
//!
//! Each call is exactly its definition in `lang_base`. `disjoint` tells two paths apart from the left, by length, from the right, or by a
//! constraint in force. What the calls are good for is said in `laws`: what lies in a path matches only regions that the path matches,
//! whatever parameters, indices and local regions stand for; what a path matches depends on what occurs in it alone; putting arguments and
//! indices in and renaming a variable agree with what the paths match, and can be read back where what is put in is known; paths that are
//! disjoint match no common region in any environment, and whatever lies within them in a run is disjoint too, without constraints.
//!
//! `includes`, `is_full` and `disjoint` take no memory. `includes` takes time of at most the product of the two lengths, and `disjoint`
//! without constraints of their sum.
#![tactic(auto)]

mod apart;
mod covers;
pub mod laws;
mod path;

pub use apart::disjoint;
pub use path::{includes, is_full, subst};
