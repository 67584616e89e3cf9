//! Texts of a recorded run: its trace, which is what it was given, its schedule and the program's text; and its events, a line for each.
//!
//! A trace text has the lines `dpj-trace 1`, `arg A steps S cells C` and `events N`, a line for each maximal run of equal numbers in the schedule,
//! with the number of the task and how many there are of it, the line `program`, and then the program's bytes.
//!
//! What it promises: `trace_text` makes exactly that text. `read_trace` reads a trace only from its text, and where there is none names the
//! first line that doesn't fit, by the definition of which lines fit (`specs/Reading.antt`). `trace_line` is the line that holds a number of a
//! schedule. All three take time that grows with the text or the schedule alone; and a schedule is no longer than its limits allow, whatever
//! lengths a text gives.
//!
//! `events_text` writes exactly the text that `specs/events` says of the events, of the program and of the names that it declares: objects and
//! arrays are called by what they are and by their number, fields by their names, tasks by their numbers. Memory and time grow with the text.
#![tactic(auto)]

mod events;
mod head;
mod laws;
mod listed;
mod numbers;
mod pieces;
mod reading;
mod runs;
mod settings;
mod writing;

pub use events::{Elements, Thing, Walk, events_text};
pub use laws::law_readings;
pub use reading::{Trace, TraceStop, read_trace};
pub use runs::{Run, trace_line};
pub use writing::{events_line, settings_line, trace_text};
