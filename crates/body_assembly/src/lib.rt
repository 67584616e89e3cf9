//! The typed program, put together: the class table of a text, and the typed bodies of its members.
//!
//! `assemble` gives exactly the program that `specs/Assembled.antt` says: each class with the fields that it
//! declares itself, by which it has all its fields by slot, and the members in all its rows, over its own region parameters; each member with its signature and its body; the region
//! names; and where a run begins. The names that it keeps are those that `specs/Named.antt` says. It knows nothing of the rules that make a program an accepted one.
#![tactic(auto)]

mod assemble;
mod body;
mod classes;
mod members;
mod texts;

pub use assemble::program;
pub use body::MemberBody;
