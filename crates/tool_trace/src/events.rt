//! The text of the events of a run, a line for each.
mod acting;
mod event_lines;
mod naming;
mod text;
mod thing;
mod walk;

pub use text::events_text;
pub use thing::{Elements, Thing};
pub use walk::Walk;
