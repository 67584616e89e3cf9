ghost use Rattle.std.specs.Prelude.{◌≡◌};
ghost use Rattle.tool_top.specs.Answer.{limits_of, only, refused_at};

use exec_run::history::Record;
use lang_base::{Kind, Limits, Place, Refusal};
use tool_words::{Job, Verdict};

/// What the tool answers, and the record of the run that it made.
#[derive(Drop)]
pub struct Answered {
    pub verdict: Verdict,
    pub recorded: Option<Record>,
}

impl Answered {
    /// A verdict, where no run was recorded.
    pub fn only(verdict: Verdict) -> Answered
        ensures { result ≡ only verdict }
    {
        Answered {
            verdict,
            recorded: None,
        }
    }

    pub fn refused(refusal: Refusal) -> Answered
        ensures { result ≡ only (Verdict.Refused refusal) }
    {
        Answered::only(Verdict::Refused(refusal))
    }

    /// A refusal at the first byte of a line, as far as a place counts lines.
    pub fn refused_at(kind: Kind, line: u64) -> Answered
        ensures { result ≡ only (refused_at kind line) }
    {
        let line = line.min(4294967295) as u32;
        Answered::refused(Refusal {
            kind,
            place: Place { line, col: 1 },
        })
    }
}

pub fn limits(job: &Job) -> Limits
    ensures { result ≡ limits_of job.now }
{
    Limits {
        steps: job.steps,
        cells: job.cells,
    }
}
