//! Workers: threads that step one machine in turn, each at its seat of a desk.
//!
//! `work` starts a thread for each worker and waits for all: the calling thread steps the machine only where no thread can be
//! started. What comes back is the machine that was handed in, gone on by steps of its own: with its code, its limits and its
//! argument, and where its schedule leads. The shares of the workers add up to the length of the schedule.
//!
//! A worker goes on until the machine has finished or no task is ready, or a step was not made: the machine may be unfinished,
//! and then the caller has to finish it.
//!
//! Not promised: that a thread is started for each worker, which worker makes which event, and that the machine gets on.

mod gate;
mod working;

pub use gate::{Gate, NoGate};
pub use working::{Worked, work};
