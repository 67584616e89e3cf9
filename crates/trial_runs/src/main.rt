//! Trials of the whole call: what no contract can say of threads, and ends that fail at a given call.
//!
//! A program of two branches that print is run three times, and the records of the runs are reported: by two workers that a gate lets pass by
//! turns, by one worker, and in rounds. That it is the workers who make the events, and neither their caller nor one worker after the other,
//! shows in these alone. Then come calls over ends in memory: of each the words, which call of the source and which of the sink fails, the
//! status, and what the sink holds then; and calls over the ends that `main` of the tool has, of a slice and a `Vec`.
#![tactic(auto)]

mod by_turns;
mod ends;
mod reported;

use crate::by_turns::ByTurns;
use crate::ends::{Ends, answered, streamed};
use crate::reported::recorded;
use exec_run::workers::NoGate;
use std::alloc::Global;
use std::sync::Wait;
use std::thread::Threads;

/// It is read in four pieces, and the end in a fifth.
const FIRST: &str = "class Main { int main(int n) { print(1+2); return 7; } }\n";

const REFUSED: &str = "class Main { int main(int n) { print(1); } }";

fn main(rt: HostRuntime) -> Result<(), anyhow::Error> {
    tell_by_turns(&rt, rt.alloc())?;
    let alone = recorded(&rt, rt.alloc(), "run workers=1", &NoGate)?;
    println!(rt; "one worker: {alone}")?;
    let together = recorded(&rt, rt.alloc(), "run mode=rounds", &NoGate)?;
    println!(rt; "rounds: {together}")?;
    tell_over_ends(&rt, rt.alloc())?;
    for text in [FIRST, REFUSED] {
        let reported = streamed(&rt, rt.alloc(), "run", text)?;
        println!(rt; "run over a slice and a Vec: {reported}")?;
    }
    Ok(())
}

fn tell_by_turns<R: Threads + Wait + Sync + Print>(
    rt: &R,
    alloc: Global,
) -> Result<(), anyhow::Error> {
    let gate = ByTurns::new();
    let reported = recorded(rt, alloc, "run workers=2", &gate)?;
    println!(rt; "two workers by turns: {reported}")?;
    if gate.ran_out() {
        println!(rt; "a worker gave up waiting for its turn")?;
    }
    Ok(())
}

fn tell_over_ends<R: Threads + Wait + Sync + Print>(
    rt: &R,
    alloc: Global,
) -> Result<(), anyhow::Error> {
    let trials = [
        ("run", FIRST, 0, 0),
        ("run", FIRST, 2, 0),
        ("run", FIRST, 5, 0),
        ("run", FIRST, 6, 0),
        ("run", FIRST, 0, 1),
        ("run", FIRST, 0, 2),
        ("run", FIRST, 0, 4),
        ("run", FIRST, 0, 5),
        ("run steps=1", FIRST, 0, 0),
        ("run steps=1", FIRST, 0, 2),
        ("run", REFUSED, 0, 0),
        ("run", REFUSED, 1, 1),
        ("check", FIRST, 0, 3),
        ("check", FIRST, 0, 4),
        ("walk", FIRST, 1, 0),
        ("walk", FIRST, 1, 1),
    ];
    for (words, text, read, write) in trials {
        let reported = answered(rt, alloc, words, text, Ends { read, write })?;
        println!(rt; "{words}, read {read} and write {write} fail: {reported}")?;
    }
    Ok(())
}
