//! The theory of runs: what a legal run of a program is, and what holds of every one.
//!
//! It knows nothing of source or code: a program is what its tasks do next after their answers, an object that stands at
//! the start, and a rule of open blocks; the laws ask of it no more than their premises say. Values, actions and answers are
//! those of the meaning. Objects are named by the task that made them, and how a run comes out is read off its events in the
//! order of elision.
#![tactic(auto)]

pub mod laws;
