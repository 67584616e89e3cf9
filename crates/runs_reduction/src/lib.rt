//! Runs put together anew: blocks gathered at their entries, deterministic constructs moved after their forks.
//!
//! Both put each event in turn directly after the latest one that is near its spot, so that no order of a run is ever
//! changed step by step. What they ask of a run, a check of its program gives.
#![tactic(auto)]

pub mod laws;
