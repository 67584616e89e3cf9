ghost use Rattle.std.specs.Prelude.{◌≡◌, ◌≢◌, ◌<◌, ◌≤◌, [], Some, None, false, true, map, length, option_map, IfOk, IfErr, IfSome, OnOk};
ghost use Rattle.std.specs.String.{string_bytes};
ghost use Rattle.std.specs.Vec.{vec_items};
ghost use Rattle.tool_io.specs.Ends.{Rose};
ghost use Rattle.tool_words.specs.Demo.{demo_text};
ghost use Rattle.tool_words.specs.Jobs.{job, IsInRange};
ghost use Rattle.tool_words.specs.Reports.{report_of, status_of};
ghost use Rattle.tool_top.specs.Answer.{IsAnswer, most_bytes, only};
ghost use Rattle.tool_top.specs.Guarantee.{MustReport, MustRefuse, MustReplay, MustShow, IsProgramStatus};
ghost use Rattle.tool_top.specs.Call.{Answers, AnswersSome, IsAnswered, IsKnown, IsVerdictStatus, ReportsAnswer, BreaksOff, ReadToEnd, Appends, AppendsPart, asks_text, makes_text};

use crate::answered::Answered;
use crate::answers::{MAX_TEXT, answer_by_run, answer_without_run};
use crate::laws::promise;
use crate::replays::{MAX_TRACE, replayed};
use exec_run::history::Record;
use exec_run::workers::Gate;
use lang_base::{Kind, NoMemory};
use std::alloc::Global;
use std::sync::Wait;
use std::thread::Threads;
use tool_io::{ReadEnd, Sink, Source, WriteFault, read_all, write_all};
use tool_words::{Command, Job, Status, Usage, Verdict, demo_source, read_words, report, status};

/// How a call of the tool ended, the record of the run that it made, and the text that it read to its end.
#[derive(Drop)]
pub struct Ended {
    pub status: Status,
    pub recorded: Option<Record>,
    pub read: Option<Vec<u8>>,
}

impl Ended {
    /// A call that ended without an answer.
    fn without(status: Status) -> Ended
        ensures { result ≡ record { status = status; recorded = None; read = None } }
    {
        Ended {
            status,
            recorded: None,
            read: None,
        }
    }
}

/// Carries out the job that the words give, on the text that the source holds, and writes one report after
/// what the sink holds.
///
/// The report is made whole before its first byte is written. Words that give no job take nothing from the
/// source, nor does a demo, which makes its text. A read fault, a write fault and being out of memory have statuses of their own.
/// `gate` is called by each worker of a run before each of its steps.
pub fn dpj<R: Threads + Wait + Sync, S: Source, K: Sink, G: Gate + Sync>(
    rt: &R,
    alloc: Global,
    words: &[String],
    source: &mut S,
    sink: &mut K,
    gate: &G,
) -> Ended
    // There is a text that the words are on: what was read to its end, else what the source says it holds, else one that is too long. The answer to it
    // is reported by its status and its whole report, and its record is kept.
    ensures answered { IsVerdictStatus result.status
        → ReportsAnswer (map string_bytes words.now) (option_map vec_items result.read) (S.left source.old) (K.held sink.old) (K.held sink.new) result.status result.recorded }
    ensures usage { result.status ≡ Status.Usage → job (map string_bytes words.now) ≡ None }
    // The promise: what is reported of a program is of one that the text means, and that is well typed. Without nd constructs a run of it is
    // reported by its serial elision, whatever the workers did; with them or without, the recorded run is one of the source that can be
    // gathered, whose deterministic constructs can be put in sequence, and it is what is reported; and what `effects` reports may stand in
    // place of the written summaries.
    ensures promised { IsProgramStatus result.status
        → MustReport (map string_bytes words.now) (option_map vec_items result.read) (S.left source.old) (K.held sink.old) (K.held sink.new) result.status result.recorded }
    // So is a run that a replay has made, which is reported by its outcome: without nd constructs that is the elision.
    ensures replayed { IsProgramStatus result.status
        → MustReplay (map string_bytes words.now) (option_map vec_items result.read) (S.left source.old) (K.held sink.old) (K.held sink.new) result.status result.recorded }
    // And so is one whose events are reported: line by line these are the events of the run of the source.
    ensures events { IsProgramStatus result.status
        → MustShow (map string_bytes words.now) (option_map vec_items result.read) (S.left source.old) (K.held sink.old) (K.held sink.new) result.status result.recorded }
    // A replay that is refused for its schedule is one by whose next number the run of the source can't go on.
    ensures refused { result.status ≡ Status.Refused
        → MustRefuse (map string_bytes words.now) (option_map vec_items result.read) (S.left source.old) (K.held sink.old) (K.held sink.new) result.status }
    // What was read is what the source held, where it says so.
    ensures known { IfSome result.read (λ text. IsKnown (S.left source.old) (vec_items text)) }

    // Every other status has its cause, and being out of memory alone needs none.
    ensures read_fault { result.status ≡ Status.ReadFault → Rose (S.faults source.old) (S.faults source.new) }
    ensures write_fault { result.status ≡ Status.WriteFault → Rose (K.faults sink.old) (K.faults sink.new) }
    ensures broken_off { result.status ≡ Status.WriteFault
        → BreaksOff (map string_bytes words.now) (option_map vec_items result.read) (S.left source.old) (K.held sink.old) (K.held sink.new) (K.room sink.old) result.recorded }
    ensures unread { result.status ≡ Status.ReadFault → asks_text (job (map string_bytes words.now)) ≡ true × (sink.new ≡ sink.old) }
    ensures unwritten { result.status ≡ Status.NoMemory → sink.new ≡ sink.old }
    ensures unrecorded { result.status ≡ Status.ReadFault → result.recorded ≡ None }
    ensures forgotten { result.status ≡ Status.NoMemory → result.recorded ≡ None }

    // What becomes of the source: words that ask for no text leave it alone, and an answer has read it to its end.
    ensures untouched { asks_text (job (map string_bytes words.now)) ≡ false → source.new ≡ source.old }
    ensures read_to_end { result.status ≢ Status.ReadFault → result.status ≢ Status.NoMemory
        → asks_text (job (map string_bytes words.now)) ≡ true → ReadToEnd (job (map string_bytes words.now)) (S.left source.old) (S.left source.new) }
    ensures source_count { S.faults source.old ≤ S.faults source.new }
    ensures sink_count { K.faults sink.old ≤ K.faults sink.new }
{
    promise();
    match answer_to(rt, alloc, words, source, gate) {
        Ok(reply) => write_reply(alloc, reply, sink),
        Err(Unread::ReadFault) => Ended::without(Status::ReadFault),
        Err(Unread::NoMemory) => Ended::without(Status::NoMemory),
    }
}

/// An answer, and the text that was read to its end for it.
#[derive(Drop)]
struct Reply {
    answered: Answered,
    read: Option<Vec<u8>>,
}

impl Reply {
    /// An answer for which no text was read to its end.
    fn unread(answered: Answered) -> Reply
        ensures { result ≡ record { answered = answered; read = None } }
    {
        Reply {
            answered,
            read: None,
        }
    }
}

/// Why there is no answer.
#[derive(Clone, Copy, Debug, PartialEq, Eq)]
enum Unread {
    ReadFault,
    NoMemory,
}

impl From<NoMemory> for Unread {
    ghost use Rattle.std.specs.Prelude.{◌≡◌};
    ghost use Rattle.tool_top.specs.declared.call.Unread.TheVariants.{NoMemory};

    ghost from_gives = { λ _ unread. unread ≡ NoMemory };

    fn from(_error: NoMemory) -> Unread {
        Unread::NoMemory
    }
}

/// The answer to the words, and to the text where they give a job on one.
fn answer_to<R: Threads + Wait + Sync, S: Source, G: Gate + Sync>(
    rt: &R,
    alloc: Global,
    words: &[String],
    source: &mut S,
    gate: &G,
) -> Result<Reply, Unread>
    ensures ok { IfOk result (λ reply. IsAnswered (map string_bytes words.now) (option_map vec_items reply.read) (S.left source.old) reply.answered) }
    ensures known { IfOk result (λ reply. IfSome reply.read (λ text. IsKnown (S.left source.old) (vec_items text))) }
    ensures usage { IfOk result (λ reply. status_of reply.answered.verdict ≡ Status.Usage → job (map string_bytes words.now) ≡ None) }
    ensures asked { IfErr result (λ unread. unread ≡ Unread.ReadFault → asks_text (job (map string_bytes words.now)) ≡ true) }
    ensures read_fault { IfErr result (λ unread. unread ≡ Unread.ReadFault → Rose (S.faults source.old) (S.faults source.new)) }
    ensures untouched { asks_text (job (map string_bytes words.now)) ≡ false → source.new ≡ source.old }
    ensures read_to_end { OnOk result (asks_text (job (map string_bytes words.now)) ≡ true
        → ReadToEnd (job (map string_bytes words.now)) (S.left source.old) (S.left source.new)) }
    ensures count { S.faults source.old ≤ S.faults source.new }
{
    let Ok(job) = read_words(words) else {
        return Ok(Reply::unread(Answered::only(Verdict::Usage)));
    };
    match job.command {
        Command::Demo => Ok(Reply::unread(demonstrate(rt, alloc, &job, gate)?)),
        _ => answer_source(rt, alloc, &job, source, gate),
    }
}

/// The answer to a demo, on the text that it makes.
fn demonstrate<R: Threads + Wait + Sync, G: Gate + Sync>(
    rt: &R,
    alloc: Global,
    job: &Job,
    gate: &G,
) -> Result<Answered, NoMemory>
    requires in_range { IsInRange job.now }
    requires made { makes_text job.now.command ≡ true }
    ensures { IfOk result (IsAnswer job.now (demo_text job.now.n)) }
{
    let text = demo_source(alloc, job.n)?;
    answer_by_run(rt, alloc, job, text.as_slice(), gate)
}

/// The answer to a job on a text that isn't too long for it. Threads are handed on for a run alone.
fn answer_text<R: Threads + Wait + Sync, G: Gate + Sync>(
    rt: &R,
    alloc: Global,
    job: &Job,
    text: &[u8],
    gate: &G,
) -> Result<Answered, NoMemory>
    requires in_range { IsInRange job.now }
    requires short { length text.now ≤ most_bytes job.now.command }
    ensures { IfOk result (Answers job.now text.now) }
{
    match job.command {
        Command::Replay => replayed(alloc, text),
        Command::Demo | Command::Run | Command::Trace | Command::Events | Command::Cost => {
            answer_by_run(rt, alloc, job, text, gate)
        }
        _ => answer_without_run(alloc, job, text),
    }
}

/// The answer to a job on the text that a source holds.
fn answer_source<R: Threads + Wait + Sync, S: Source, G: Gate + Sync>(
    rt: &R,
    alloc: Global,
    job: &Job,
    source: &mut S,
    gate: &G,
) -> Result<Reply, Unread>
    requires in_range { IsInRange job.now }
    requires read { makes_text job.now.command ≡ false }
    ensures ok { IfOk result (λ reply. AnswersSome job.now (option_map vec_items reply.read) (S.left source.old) reply.answered) }
    ensures known { IfOk result (λ reply. IfSome reply.read (λ text. IsKnown (S.left source.old) (vec_items text))) }
    ensures no_usage { IfOk result (λ reply. status_of reply.answered.verdict ≢ Status.Usage) }
    ensures read_fault { IfErr result (λ unread. unread ≡ Unread.ReadFault → Rose (S.faults source.old) (S.faults source.new)) }
    ensures read_to_end { OnOk result (IfSome (S.left source.old) (λ text. length text ≤ most_bytes job.now.command → S.left source.new ≡ Some [])) }
    ensures count { S.faults source.old ≤ S.faults source.new }
{
    match read_all(alloc, source, most_bytes(job.command)) {
        Ok(text) => {
            let answered = answer_text(rt, alloc, job, text.as_slice(), gate)?;
            Ok(Reply {
                answered,
                read: Some(text),
            })
        }
        Err(ReadEnd::TooLong) => Ok(Reply::unread(Answered::refused_at(Kind::TooLong, 1))),
        Err(ReadEnd::ReadFault) => Err(Unread::ReadFault),
        Err(ReadEnd::NoMemory) => Err(Unread::NoMemory),
    }
}

/// The most bytes that are read for a job of this command.
fn most_bytes(command: Command) -> usize
    ensures { result ≡ most_bytes command }
{
    match command {
        Command::Replay => MAX_TRACE,
        _ => MAX_TEXT,
    }
}

/// Writes the report of an answer, once it is whole.
fn write_reply<K: Sink>(alloc: Global, reply: Reply, sink: &mut K) -> Ended
    ensures whole { IsVerdictStatus result.status
        → (result.status ≡ status_of reply.answered.verdict) × Appends (K.held sink.old) (K.held sink.new) (report_of reply.answered.verdict) }
    ensures part { result.status ≡ Status.WriteFault → AppendsPart (K.held sink.old) (K.held sink.new) (report_of reply.answered.verdict) }
    ensures no_room { result.status ≡ Status.WriteFault → IfSome (K.room sink.old) (λ room. room < length (report_of reply.answered.verdict)) }
    ensures write_fault { result.status ≡ Status.WriteFault → Rose (K.faults sink.old) (K.faults sink.new) }
    ensures unwritten { result.status ≡ Status.NoMemory → sink.new ≡ sink.old }
    ensures kept { result.status ≢ Status.NoMemory → (result.recorded ≡ reply.answered.recorded) × (result.read ≡ reply.read) }
    ensures forgotten { result.status ≡ Status.NoMemory → (result.recorded ≡ None) × (result.read ≡ None) }
    ensures not_read { result.status ≢ Status.ReadFault }
    ensures count { K.faults sink.old ≤ K.faults sink.new }
{
    let Reply { answered, read } = reply;
    let Answered { verdict, recorded } = answered;
    let Ok(report) = report(alloc, &verdict) else {
        return Ended::without(Status::NoMemory);
    };
    let status = match write_all(sink, report.as_slice()) {
        Ok(()) => status(&verdict),
        Err(WriteFault) => Status::WriteFault,
    };
    Ended {
        status,
        recorded,
        read,
    }
}
