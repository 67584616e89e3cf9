//! Two laws about the answers of the tool: each job on each text has one, and what `trace` writes is a trace of the run that it recorded,
//! so that its replay comes out the same.
//!
//! `tool_top` says what an answer is, that there is at most one for each run that was recorded, and what it comes to by the source alone. Here it is
//! said that no definition of an answer is one that nothing meets. The replay of a trace has a machine with the code, the limits, the argument, the
//! schedule and the outcome of the first run. Its world isn't compared: an object may keep its region in two forms that mean the same. The crate has no code of
//! its own.
#![tactic(auto)]

pub mod laws;
