//! What a machine records is a run of the source: each number of a schedule makes in a machine on compiled code exactly the
//! event that the theory of runs asks of the program.
//!
//! `specs/Laws.antt` has the statements: wherever a schedule leads a machine, it records a run of the program, which has the
//! machine's events one by one (`specs/Alike.antt` says when two are alike); and where the machine has finished, the schedule
//! has finished, and comes out as the machine tells. A machine numbers objects and tasks in the order in which they are made,
//! and a run names them by their makers and by their paths; `proofs/` ties the one to the other, event by event, and the locks
//! of the one to who stands in which block of the other. And until its run has come out a machine has a ready task, and the
//! same ones as the run; and its schedules are short. The crate has no code of its own.
#![tactic(auto)]

pub mod laws;
