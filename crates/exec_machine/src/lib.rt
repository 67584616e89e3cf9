//! The machine: a run of compiled code, event by event, within limits.
//!
//! A machine is opened on code, limits and the argument of `main`, and changed by its steps alone. Each step lets one ready
//! task make its next event, and notes the task in the schedule. What a contract sees of a machine is its code, its limits,
//! its argument, its schedule, the world that its tasks share, and the outcome once it has finished; and whatever a machine
//! keeps is the replay of its schedule (`specs/Replay.antt`): from the object of `main` on, each number of the schedule is a
//! task that stood at an event which could be made, and made it, or met a limit by it. When memory runs out, a step has changed
//! nothing.
//!
//! It asks one thing of its code (`CanProgress` of `specs/Premise.antt`): wherever a replay leads, the tasks go on.
//!
//! A machine is stuck where what a ready task does next can't be done: an object isn't there, a fork, a join, an entry or an
//! exit comes out of turn, or a branch has no start. A step says so, and leaves the machine as it was.
//!
//! What a task does up to its event touches nothing but the task. So `prepare` takes many tasks towards their next events side
//! by side, in threads, ahead of their steps; a contract sees the machine as it was.
//!
//! A machine keeps no event. `EventMachine` does, from the start on, each with its answer and with the place in the text where its task
//! stood (`specs/Events.antt`).
//!
//! A step takes the time of its task's way to the event and of what the event touches. `next_ready` and `ready_below` take that of
//! the queues of `exec_world`: a task that waits isn't asked again before what it waits for has come.
#![tactic(auto)]

mod answers;
mod away;
mod copies;
mod event_machine;
mod halted;
mod machine;
mod made_event;
mod outcome;
mod places;
mod run;
mod schedule;
mod slot;
mod slots;
mod start;
mod wants;

pub use event_machine::EventMachine;
pub use halted::Halted;
pub use machine::{Machine, Stepped};
pub use made_event::MadeEvent;
pub use schedule::Schedule;
