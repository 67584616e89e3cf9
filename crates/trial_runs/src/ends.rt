use exec_run::workers::NoGate;
use lang_base::NoMemory;
use std::alloc::Global;
use std::sync::Wait;
use std::thread::Threads;
use tool_io::{MemSink, MemSource, StdSink, StdSource};
use tool_top::{Ended, dpj};

/// How many bytes a source gives at a call, and a sink takes.
const GIVEN: usize = 16;

const TAKEN: usize = 3;

/// Which call of the source fails, and which of the sink, counted from 1; 0 is none.
#[derive(Clone, Copy, Debug)]
pub struct Ends {
    pub read: u64,
    pub write: u64,
}

/// The number of the status of a call over these ends, and what the sink holds then.
pub fn answered<R: Threads + Wait + Sync>(
    rt: &R,
    alloc: Global,
    words: &str,
    text: &str,
    ends: Ends,
) -> Result<String, anyhow::Error> {
    let words = split(alloc, words)?;
    let text = Vec::from_slice(alloc, text.as_bytes())?;
    let mut source = MemSource::new(text, GIVEN, vec![in alloc; ends.read]?);
    let mut sink = MemSink::new(alloc, 64, TAKEN, vec![in alloc; ends.write]?)?;
    let status = status_of(dpj(rt, alloc, words.as_slice(), &mut source, &mut sink, &NoGate));
    let held = str::from_utf8(sink.held())?;
    Ok(format!(in alloc; "status {status}, {held:?}")?)
}

/// The number of the status of a call over the ends that the program has, here over a slice and a `Vec`; what this holds then, and how many bytes
/// were read to their end.
pub fn streamed<R: Threads + Wait + Sync>(
    rt: &R,
    alloc: Global,
    words: &str,
    text: &str,
) -> Result<String, anyhow::Error> {
    let words = split(alloc, words)?;
    let mut written = Vec::new(alloc);
    let ended = dpj(
        rt,
        alloc,
        words.as_slice(),
        &mut StdSource::new(text.as_bytes()),
        &mut StdSink::new(&mut written),
        &NoGate,
    );
    let read = read_by(&ended);
    let status = status_of(ended);
    let held = str::from_utf8(written.as_slice())?;
    Ok(format!(in alloc; "status {status}, {held:?}, {read} bytes were read")?)
}

fn read_by(ended: &Ended) -> usize {
    match &ended.read {
        Some(text) => text.len(),
        None => 0,
    }
}

/// The number of its status alone. The record goes.
fn status_of(ended: Ended) -> u8 {
    ended.status.number()
}

/// Words with a space between two.
pub fn split(alloc: Global, words: &str) -> Result<Vec<String>, NoMemory> {
    let mut all = Vec::new(alloc);
    for word in words.split(' ') {
        all.push(String::from_str(alloc, word)?)?;
    }
    Ok(all)
}
