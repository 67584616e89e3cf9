//! What program a tree means, without the checker, and that a text has one meaning.
//!
//! `specs/Means` relates the tree of a text to the typed programs that it means, one rule a construct: no order of
//! checks, no refusal, no subtyping and no effect of a body. What the judgement of typed programs fixes, as types and
//! what a branch copies back, isn't said again. `specs/Unambiguous` says that no name is declared twice where it is seen.
//! `specs/Accepts` puts these together: a text is accepted as a well-typed program that its tree means, where each name
//! of the tree has one thing.
//!
//! `specs/Declares` has what a name means in a class, `specs/Paths` region paths and types, `specs/Bodies` expressions
//! and statements, and `specs/Numbered` how locals and local regions are numbered.
//!
//! `laws` promises that a text has one tree, and that all programs as which it is accepted have one serial elision: they
//! differ at most in the effects by which blocks are entered, in those of summaries, and in what branches copy back.
#![tactic(auto)]

pub mod laws;
