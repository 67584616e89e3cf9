//! The world that the tasks of a run share: its objects, its tree of tasks, its open atomic blocks with the tasks that wait in
//! front of one, and what the run cost so far.
//!
//! `perform` makes one event of a task and answers it. It is exact: an event that would cost more than a limit allows is
//! refused and changes nothing, one for which memory runs out changes nothing either, and else the world is that after the
//! event (`specs/World.antt`), with the answer that this gives. A task that is begun by one inside a block belongs to that
//! block, and the end of a task leaves all its entries. A task that rests in front of an entry says with which effects it is
//! to enter, and it is ready where no block of another task hinders it.
//!
//! Whether a task may make an event in this world, `fits` tells: objects are there, forks and joins come in turn, and so do
//! entries and exits. It takes at most the logarithm of the live tasks, and the effects of an entry.
//!
//! An event takes the time of the store that it touches, and besides that only what it copies: the regions of an object that
//! is looked at, the effects of an entry, the bytes of a line, and what a join puts together.
//!
//! `QueuedWorld` is a world that finds its ready tasks by queues; a contract sees the world alone. Each task that is ready is in
//! the run queue. One that is found hindered moves into the wait queue of a task that hinders it, and isn't asked again before
//! that one leaves its block, which moves the whole wait queue back. A queue has a bit for each of its tasks, in words of 64 numbers in a row, which
//! `Numbered` keeps by their places: so to put a task in or to take it out takes the time of a look-up there. The last task below a bound is in the
//! word of the bound or in the word before it that `Numbered` finds. `next_ready` and `ready_below` take that for the task that they find, and for each
//! that they take out of the run queue, which an event has put there.
#![tactic(auto)]

mod acts;
mod cost;
mod event;
mod fits;
mod queued;
mod queues;
mod ready;
mod seen;
mod stop;
mod task_queue;
mod waits;
mod word;
mod world;

pub use cost::first_fields;
pub use event::Event;
pub use queued::QueuedWorld;
pub use stop::Stop;
pub use waits::Waits;
pub use world::World;
