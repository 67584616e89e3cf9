//! A task that runs code, executed: what `code_instrs` says of it, step by step.
//!
//! `run_to_action` takes a task up to its next action, and `answer` goes on from there. Both are exact against the machine of one task,
//! whose objects and local regions have numbers for names (`specs/Names.antt`): where a task halts, what it does there and
//! how it goes on. A failed growth leaves the task on its way to the same halt.
//!
//! A value stays where it is: an instruction works on the top of its level's stack, and a call puts its level on those of
//! its callers.
#![tactic(auto)]

mod acting;
mod action;
mod advance;
mod answers;
mod branches;
mod calls;
mod classes;
mod copying;
mod entries;
mod exec;
mod frames;
mod going_on;
mod joins;
mod lines;
mod local;
mod local_step;
mod prints;
mod regions;
mod rejoins;
mod resume;
mod run_local;
mod run_to_action;
mod running;
mod sites;
mod starts;
mod step;
mod task;

pub use action::{Action, Answer, Ending, Own};
pub use lines::line;
pub use regions::concrete_effect;
pub use starts::main_start;
pub use task::{Level, Standing, Start, Task};
