//! Runs typed programs: the program is compiled, a machine is opened on its code, and the machine is stepped until the run has come out, by
//! workers (`run`), in rounds (`run_rounds`), in an order that a seed draws (`run_seeded`), or as a schedule says (`replay`), which shows the
//! events of the run too (`events`).
//!
//! What it promises (`specs/Run.antt`): an outcome is that of a run of the program's code within the limits, which the schedule leads to that
//! was made. Where there is no outcome, the run is at a moment at which no task can go on, or the code has a fork of more branches than a
//! value counts; no accepted program comes to this, as a law says that is proved above (`law_progress` of `runs_theorem`).
//!
//! Its modules, each with what it promises at its head: `desk` is a machine behind one lock, `workers` the threads that step it, `rounds`
//! steps it in rounds, `history` keeps what was done and does it again.
#![tactic(auto)]

pub mod desk;
mod drawing;
mod few;
mod finish;
pub mod history;
pub mod laws;
mod opening;
mod recorded;
mod replaying;
mod rounding;
pub mod rounds;
mod running;
mod seeding;
mod showing;
pub mod workers;

pub use finish::came_out;
pub use opening::open;
pub use recorded::Recorded;
pub use replaying::{Replayed, replay};
pub use rounding::run_rounds;
pub use running::run;
pub use seeding::run_seeded;
pub use showing::{Shown, events};
