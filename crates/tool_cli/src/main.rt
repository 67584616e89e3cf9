//! The program: it hands the words after its name, standard input and standard output to `dpj`, and ends with
//! the number of its status.
#![tactic(auto)]

use exec_run::workers::NoGate;
use std::process::ExitCode;
use std::{env, io};
use tool_io::{StdSink, StdSource};
use tool_top::dpj;

/// The status where the words themselves find no memory.
const NO_MEMORY: u8 = 7;

/// The words after the program's name. Words that are no text are no words, so they give no job.
fn words(rt: &HostRuntime) -> io::Result<Vec<String>> {
    match env::args(rt) {
        Ok(words) => Ok(words.skip(1).collect(rt.alloc())?),
        Err(error) if error.kind() == io::ErrorKind::InvalidData => Ok(Vec::new(rt.alloc())),
        Err(error) => Err(error),
    }
}

fn main(rt: HostRuntime) -> ExitCode {
    let Ok(words) = words(&rt) else {
        return ExitCode::from(NO_MEMORY);
    };
    let mut source = StdSource::new(rt.stdin());
    let mut sink = StdSink::new(io::writer(&rt));
    let ended = dpj(
        &rt,
        rt.alloc(),
        words.as_slice(),
        &mut source,
        &mut sink,
        &NoGate,
    );
    ExitCode::from(ended.status.number())
}
