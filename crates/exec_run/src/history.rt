//! What is kept of a run, and a run made again.
//!
//! A `Record` is the machine that made a run, with who made its events: each worker's share, and what the caller made itself;
//! and the number of rounds, where it was made in rounds.
//!
//! `replay` makes the run that a schedule says, on a machine that was just opened. What it promises: where it answers Ok, the machine has
//! finished with exactly this schedule; and else, but where memory runs out, it reports the first number of the schedule that can't be made, and what
//! the numbers before it lead to (`specs/Replaying.antt`). Its time grows with the events alone. `show` does the same on a machine
//! that keeps its events, and answers them (`specs/Showing.antt`).

mod record;
mod replaying;
mod showing;

pub use record::Record;
pub use replaying::{ReplayStop, replay};
pub use showing::show;
