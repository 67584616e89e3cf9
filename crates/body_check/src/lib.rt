//! The checker of bodies: whether every method and constructor of a program keeps the rules of types, of effects
//! and of what may run side by side.
//!
//! `check` goes through the bodies in the order of the text and reports the fault of the first node, in post-order,
//! that has one; of several faults of one node it reports the one with the lowest number. Of a program that it
//! accepts it gives the typed bodies: each statement of the tree with its names resolved, its expressions typed, its
//! locals by their slots and its atomic blocks with the effects with which they are entered.
//!
//! The rules are functions of what a statement is and of what is in scope and was found before it: `check_stmt` gives
//! the typed statement or its first fault, and `check_bodies` those of a program. `check` answers as they do.
//!
//! A body is walked by recursion, as deep as its statements are nested. The effects of statements that follow each
//! other are gathered into one set; a branch and a block have a set of their own, which goes into the outer one
//! without what went out of scope.
#![tactic(auto)]

mod accepted;
mod bodies;
mod constructs;
mod gathered;
mod leaving;
mod made;
mod meet;
mod node;
mod parts;
mod simple;
mod statements;
mod values;

pub use accepted::Accepted;
pub use bodies::check;
