use crate::ends::split;
use exec_run::history::Record;
use exec_run::workers::Gate;
use std::alloc::Global;
use std::sync::Wait;
use std::thread::Threads;
use tool_io::{PlainSink, PlainSource};
use tool_top::{Ended, dpj};

/// Two branches that print.
const TEXT: &str = "class Main { int main(int n) { cobegin { print(1); print(2); } return 0; } }";

/// The record of a run of the text, in words.
pub fn recorded<R: Threads + Wait + Sync, G: Gate + Sync>(
    rt: &R,
    alloc: Global,
    words: &str,
    gate: &G,
) -> Result<String, anyhow::Error> {
    let words = split(alloc, words)?;
    let mut source = PlainSource::new(Vec::from_slice(alloc, TEXT.as_bytes())?);
    let mut sink = PlainSink::new(alloc, 64)?;
    reported(
        alloc,
        dpj(rt, alloc, words.as_slice(), &mut source, &mut sink, gate),
    )
}

fn reported(alloc: Global, ended: Ended) -> Result<String, anyhow::Error> {
    let Ended { recorded, .. } = ended;
    match recorded {
        Some(record) => reported_by(alloc, record),
        None => Ok(String::from_str(alloc, "no run")?),
    }
}

/// What a record tells. The record goes before any of it can fail.
fn reported_by(alloc: Global, made: Record) -> Result<String, anyhow::Error> {
    let schedule = made.machine.schedule().to_items(alloc);
    let Record {
        shares,
        own,
        rounds,
        ..
    } = made;
    let (schedule, shares) = (schedule?.into_vec(), shares.into_vec());
    Ok(format!(in alloc;
        "{rounds} rounds, schedule {schedule:?}, shares {shares:?}, {own} by the caller"
    )?)
}
