//! The theorems of runs of well-typed programs: determinism, reduction, progress.
//!
//! Of the source: every legal run of a program without nd constructs comes out as its serial elision, and in every legal run each atomic
//! block's events can be gathered at its entry; what the theory of runs gives, with the premises that soundness gives (`specs/Laws.antt`).
//!
//! Of the machine: a run of the code of a well-typed program without nd constructs comes out as the serial elision, whatever schedule was
//! made. And of each resolved program, nd constructs or not, so does the run in which the ready task with the greatest number always goes on.
//! A machine on the code of a well-typed program also makes progress until its run has come out, on code whose forks have fewer branches than
//! a value counts.
//!
//! It joins what is proved apart: a machine's schedule records a run of the source (`runs_simulation`), all finished schedules of such a program
//! come out as its elision (`runs_elision`), and where a machine is stuck its run has a next event that no run of a well-typed program has
//! (`runs_sound`). The crate has no code of its own.
#![tactic(auto)]

pub mod laws;
