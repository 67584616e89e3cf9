//! The whole tool behind one call: `dpj` takes the words of a command line, reads a text from a source, and
//! writes one report to a sink.
//!
//! What it promises: what the sink holds afterwards and the status are the definition's answer for the words
//! and for the bytes that were read, which the call gives back and which are those that the source held, where it says so; and the
//! record is that of the run that was made. A fault of reading or writing is answered only where the source or the sink counted one in
//! this call. Nothing is written before the report is whole.
#![tactic(auto)]

mod answered;
mod answers;
mod call;
mod carrying;
mod figures;
mod laws;
mod replays;

pub use answered::Answered;
pub use answers::{MAX_TEXT, answer_by_run, answer_without_run};
pub use call::{Ended, dpj};
pub use laws::{one_answer, promise};
