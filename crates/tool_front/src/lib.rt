//! From a text to its typed program, or to its first fault.
//!
//! What it promises (`specs/Front.antt`, `specs/Judging.antt`): where `front` answers a program, the text is cut into tokens
//! that derive a tree, the tree has a class table without faults, its bodies pass the rules of the language, and the typed
//! program is what table and bodies make, and so are its names. Where it answers a refusal, that is a first fault of the
//! text. What a program is judged as is a function of it (`judge`).
#![tactic(auto)]

mod fields;
mod passing;

pub use passing::{Passed, front};
