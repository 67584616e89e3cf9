//! What the program is asked, what it answers, and the text of its demo.
//!
//! `read_words` reads the words of the command line: the first is a command, each further one is `key=value` for a key of that command. It
//! gives the job that the tables of commands and keys give for the whole list, and `Usage` exactly where they give none. It takes no memory.
//!
//! `report` writes the bytes that a verdict is reported by, and `status` gives the number that the program ends with; both are the tables of
//! reports and statuses, row by row.
//!
//! `demo_source` makes the text of a program with as many classes as asked: an object of each sums an array of its own, which it has filled in
//! parallel, all objects side by side, and `main` adds the sums up. The text is exactly that of `specs/Demo.antt`, and with at most 200 classes
//! it is within the 1048576 bytes that a text may have. Its time and memory grow with the text alone.
#![tactic(auto)]

mod command;
mod job;
mod key;
mod laws;
mod line;
mod reports;
mod setting;
mod source;
mod verdict;

pub use command::Command;
pub use job::{Job, Usage, read_words};
pub use key::{Key, Mode};
pub use laws::law_values;
pub use reports::{ending_report, report, status};
pub use source::demo_source;
pub use verdict::{Figures, Status, Verdict};
