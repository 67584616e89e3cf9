//! Code: the instructions that a typed program is compiled to, and what a task does that runs them.
//!
//! A body is the code of a method, a constructor or a branch of a parallel construct. A task runs in a body, with the
//! bodies that called it around it, until it comes to a shared action; it waits there for the answer, and the machine
//! gives it. Between two shared actions a task touches nothing but its own frames.
//!
//! `specs/Machine.antt` says what one step of a task is, and what the solo run of a body does on a list of answers. The
//! rules of what an unfitting value or answer counts as are those of `lang_meaning`, the same functions. `specs/Fit.antt`
//! says when a code is fit, which that of every well-typed program is (`code_fit`).
#![tactic(auto)]

mod code;
mod instr;
pub mod laws;

pub use code::{Body, BranchCopies, ClassCode, Code, MethodCode, Site, Title};
pub use instr::Instr;
