//! Runs a machine in rounds. In a round each task that is ready as it begins makes its next event, in the order in which the tasks have
//! begun; a task that is no longer ready when its turn comes is left out, and so are all once the machine has finished.
//!
//! `round` makes one, and `run_rounds` one after another until the machine has finished, or no task is ready, or more events were made
//! than are in a run. What they promise (`specs/Rounds.antt`): the events that were made are exactly those of the rounds, in their
//! order. `round` answers how many they are, and `run_rounds` how many rounds there were. Where an event can't be made, and after want of
//! memory, the machine is where the events before lead.
//!
//! What a task does up to its event touches nothing but the task, so the tasks of a round run to their actions side by side before the turns, where
//! that is long: in at most as many pieces as there may be threads, one task after the other in each. That can't be told from a round
//! without threads: its contract is the same.
//!
//! A round takes the time of its events, and memory for the numbers of the ready tasks; and to find these it passes over the tasks that
//! wait for their branches or in front of an entry, each once.

mod mark;
mod ready;
mod rounding;

pub use rounding::{round, run_rounds};
