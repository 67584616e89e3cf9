ghost use Rattle.std.specs.Prelude.{◌≡◌};

use lang_base::{Bytes, Outcome, Refusal};

/// What a job came to.
#[derive(Debug, Drop)]
pub enum Verdict {
    /// The words give no job.
    Usage,
    /// The text has a refusal.
    Refused(Refusal),
    /// The text is accepted.
    Accepted,
    /// A run or an elision.
    Ran(Outcome),
    /// The listing of the code.
    Listed(Bytes),
    /// A run of a made text of so many classes and bytes.
    Demo {
        classes: u32,
        bytes: u64,
        outcome: Outcome,
    },
    /// A run, with the trace that is written in place of its report.
    Traced {
        outcome: Outcome,
        text: Bytes,
    },
    /// A run, with its events, which are written in place of its report.
    Shown {
        outcome: Outcome,
        text: Bytes,
    },
    /// The inferred summaries, a line for each.
    Effects(Bytes),
    /// A run, with what it is made of.
    Cost {
        outcome: Outcome,
        figures: Figures,
    },
}

/// What a run is made of.
#[derive(Clone, Copy, Debug, PartialEq, Eq)]
pub struct Figures {
    /// Its events.
    pub events: u64,
    /// The tasks that have begun in it.
    pub tasks: u64,
    /// The rounds that it was made by, 0 where it wasn't made in rounds.
    pub rounds: u64,
}

/// How the program ended, for the system. The statuses from `Done` to `Limited` tell of a verdict, and the
/// others of the outside.
#[derive(Clone, Copy, Debug, PartialEq, Eq)]
pub enum Status {
    /// The job was done.
    Done,
    /// The words give no job.
    Usage,
    /// The text has a refusal.
    Refused,
    /// The run trapped.
    Trapped,
    /// A limit was met.
    Limited,
    /// The text couldn't be read.
    ReadFault,
    /// The report couldn't be written.
    WriteFault,
    /// Memory ran out.
    NoMemory,
}

impl Status {
    ghost use Rattle.tool_words.specs.Reports.{status_number};

    /// The number that the program ends with.
    pub fn number(self) -> u8
        ensures { result ≡ status_number self }
    {
        self as u8
    }
}
