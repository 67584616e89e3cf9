//! What a typed program means: what each of its tasks does to the shared world, given the answers that it gets.
//!
//! The meaning is a definition, in `specs/`, and no code runs by it. The compiler, the walker and the theory of
//! runs are proved against it. It knows no heap, no other task and no instruction: a task asks (read this cell, make
//! this object, fork these branches), is answered, and goes on by the answer alone.
//!
//! To read in this order: `Values` (values, regions, things), `Actions` (what a task does and is answered), `Counts`
//! (what an unfitting value or answer counts as), `Core` (a task's work as a tree of seven forms, and how such a tree runs in
//! a world), `Expressions` and `Statements` (one clause a construct, in the order of evaluation), `Asking` (the next
//! action of a task after a list of answers), `Tasks` (what every task keeps to), `Costs`, `Outcomes` and `Elision` (the same meaning
//! run in sequence with one heap: how a program comes out). What is so of all that statements mean is proved by `proofs/Meant.antt`.
#![tactic(auto)]

pub mod laws;
