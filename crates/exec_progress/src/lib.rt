//! Compiled code goes on: what the machine asks of its code is had of the code of every resolved program.
//!
//! Wherever a schedule leads, the tasks that are ready are there, and each task comes to its next action, isn't stuck, and finds names
//! for the local regions that it makes (`specs/Going.antt`). So a machine can be opened on the code of a program that the
//! checker accepts. The crate has no code of its own.
#![tactic(auto)]

pub mod laws;
