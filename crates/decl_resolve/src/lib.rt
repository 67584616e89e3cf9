//! What the names of region paths and types mean where they stand in a text.
//!
//! A `Scope` says what is around a place: the class, the region parameters of the method, the local regions and
//! the names that may stand in an index. `path` reads a region path there, `ty` a type, and `read_args` with
//! `fit_args` a list of region arguments.
//!
//! What is written means exactly what `specs/Reading.antt` and `specs/Written.antt` say, and its faults are those that
//! they list; which of them is reported, and when, is said by `specs/Telling.antt`.
//!
//! Two ways of telling faults are served. In a body a region path is a node of its own, and its faults are reported
//! before anything else is read; then come those of the type, creation or call that holds it. In a signature all
//! faults are noted, and the pass over the class table tells the one that stands first.
#![tactic(auto)]

mod args;
mod base;
mod constraints;
mod index;
mod paths;
mod scope;
mod scoped;
mod types;

pub use args::{ReadArgs, fit_args, read_args, root};
pub use base::{ReadBase, ReadType};
pub use constraints::constraints_hold;
pub use index::IndexNames;
pub use paths::{Need, path};
pub use scope::{ParamFound, Scope, Site};
pub use scoped::Scoped;
pub use types::{array_made, read_type, ty};
