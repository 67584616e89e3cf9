//! The compiler: from a typed program to its code.
//!
//! `compile` gives exactly the code that the scheme of `code_scheme` says, and with it all that the laws of `code_scheme` say of that
//! code: each task that runs it does what the program means. Each body has the title that a listing shows (`specs/Titles.antt`).
//!
//! Code is emitted in one pass: the lines of a body one after another, a jump forward as soon as its target is known. The
//! branches of parallel constructs wait in a queue until the body around them is done. Statements and expressions are
//! walked as deep as the program is nested, which the parser limits.
#![tactic(auto)]

mod bodies;
mod classes;
mod emitter;
mod exprs;
mod forks;
mod line;
mod parts;
mod pending;
mod sites;
mod stmts;
mod titles;
mod whole;

pub use whole::compile;
