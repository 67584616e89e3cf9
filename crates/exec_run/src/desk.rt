//! The desk: a machine behind one lock, which workers step in turn, and a ledger of who made its events.
//!
//! Each worker has a seat, with a share of the ledger: the number of events that it has made. A share rises only together with
//! the book that lies beside the machine, and the book is the length of the machine's schedule. So once all seats are given
//! back, the length of the schedule is the sum of the shares.
//!
//! While a worker holds the lock it makes a burst of events, 1 to 256 of one task. The machine does this for each of them by a
//! step of its own, and is the replay of its schedule whenever the lock is free. What a call does behind the lock is said by
//! `laws::lent_step`, since a function that takes a lock can't speak of what lies behind it.
//!
//! The machine that is taken out in the end has the code, the limits and the argument of the one that was put in.
//!
//! Not promised: which worker makes which event, that a worker that waits gets the lock, how long it waits.

mod burst;
mod desk;
pub mod laws;
mod locked;
mod run;
mod step;

pub use burst::{Burst, BurstEnd};
pub use desk::Desk;
pub use locked::{Locked, Seat};
pub use run::Run;
pub use step::DeskStep;
