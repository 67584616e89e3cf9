ghost use Rattle.std.specs.Prelude.{◌≡◌, ◌↔◌, ◌≤◌, [], All, None, IsSome, IsTrue, IfOk, IfErr, OnOk, OnErr, MatchOption, false};
ghost use Rattle.std.specs.Option.{option_copied};
ghost use Rattle.exec_task.specs.Halts.{IsWidthBounded};
ghost use Rattle.exec_world.specs.Ready.{IsReady, NoneReady, IsGreatestReady, NoneReadyBelow, IsGreatestBelow};
ghost use Rattle.exec_machine.specs.Keeping.{IsReplayed, IsAfter, WhyHaltedAt, GreedilyOn, HasEnded, HaltsGreedily};
ghost use Rattle.exec_machine.specs.Premise.{CanProgress};

use crate::event_machine::EventMachine;
use crate::halted::Halted;
use crate::run::Run;
use crate::schedule::Schedule;
use crate::start::start;
use code_instrs::Code;
use lang_base::{Limits, NoMemory, Outcome};
use std::alloc::Global;
use std::marker::Model;
use std::thread::Threads;

/// What a step left.
#[derive(Clone, Copy, Debug, PartialEq, Eq)]
pub enum Stepped {
    More,
    Finished,
}

/// How many events `finish` makes at most. A run within the limits of a job has no more, since an event costs a step, but for rests and
/// ends, and schedules are proved to be short.
const MOST_EVENTS: usize = 40000002;

/// A run of compiled code within limits. A contract sees its code, its limits, its argument, its schedule, the world that its
/// tasks share, and its outcome once it has finished.
#[derive(Drop)]
pub struct Machine {
    code: Code,
    limits: Limits,
    argument: i32,
    run: Run,
    alloc: Global,
}

impl Model for Machine {
    ghost use Rattle.exec_machine.specs.Keeping.{Played, played_code, Plays};
    ghost use Rattle.lang_base.specs.contracts.outcome.Limits as limits_row;
    ghost use Rattle.lang_base.specs.contracts.outcome.Outcome as outcome_row;
    ghost use Rattle.code_instrs.specs.contracts.code.Code as code_row;
    ghost use Rattle.exec_world.specs.contracts.world.World as world_row;

    ghost Value = { Played };

    ghost coded = { played_code code_row.the_row.coded limits_row.the_row.coded world_row.the_row.coded outcome_row.the_row.coded };

    ghost view = { λ m. record { code = m.code; limits = m.limits; argument = m.argument; schedule = m.run.schedule; world = m.run.world; outcome = m.run.outcome } };

    ghost invariant = { λ m. Plays m.code m.limits m.argument m.run };
}

impl Machine {
    /// A machine that has made no event. Where there aren't cells for the object of `main` it is finished.
    pub fn open(
        alloc: Global,
        code: Code,
        limits: Limits,
        argument: i32,
    ) -> Result<Machine, NoMemory>
        requires few { All IsWidthBounded code.sites }
        requires cells { limits.cells ≤ 16777216 }
        requires goes_on { CanProgress code limits argument }
        ensures code { IfOk result (λ machine. machine.code ≡ code) }
        ensures limits { IfOk result (λ machine. machine.limits ≡ limits) }
        ensures argument { IfOk result (λ machine. machine.argument ≡ argument) }
        ensures nothing { IfOk result (λ machine. machine.schedule ≡ []) }
        ensures replayed { IfOk result IsReplayed }
    {
        let run = start(alloc, &code, limits, argument)?;
        Ok(Machine {
            code,
            limits,
            argument,
            run,
            alloc,
        })
    }

    /// Whether a task can make its next event. It takes no memory.
    pub fn ready(&self, task: u32) -> bool
        ensures yes { IsTrue result → IsReady self.now.world task }
        ensures no { result ≡ false → IsReady self.now.world task → ⊥ }
    {
        self.run.world.is_ready(task)
    }

    /// The same of a task that may be ready no longer. Where it isn't, it isn't looked for again before that may have changed.
    pub fn still_ready(&mut self, task: u32) -> bool
        ensures same { self.new ≡ self.old }
        ensures yes { IsTrue result → IsReady self.old.world task }
        ensures no { result ≡ false → IsReady self.old.world task → ⊥ }
    {
        self.run.world.still_ready(task)
    }

    /// The greatest task that can.
    pub fn next_ready(&mut self) -> Option<u32>
        ensures same { self.new ≡ self.old }
        ensures next { MatchOption result (NoneReady self.old.world) (IsGreatestReady self.old.world) }
    {
        self.run.world.next_ready()
    }

    /// The greatest below a bound that can.
    pub fn ready_below(&mut self, bound: u32) -> Option<u32>
        ensures same { self.new ≡ self.old }
        ensures next { MatchOption result (NoneReadyBelow self.old.world bound) (IsGreatestBelow self.old.world bound) }
    {
        self.run.world.ready_below(bound)
    }

    /// Lets a ready task make its next event. Finished comes exactly where the root ended or a limit was met, and Stuck where
    /// the event can't be made. After that, and when memory runs out, the machine is as it was.
    pub fn step(&mut self, task: u32) -> Result<Stepped, Halted>
        requires unfinished { self.old.outcome ≡ None }
        requires ready { IsReady self.old.world task }
        ensures stepped { OnOk result (IsAfter self.old task self.new) }
        ensures finished { IfOk result (λ stepped. (stepped ≡ Stepped.Finished) ↔ IsSome self.new.outcome) }
        ensures why { IfErr result (WhyHaltedAt self.old task) }
        ensures err { OnErr result (self.new ≡ self.old) }
    {
        self.run.step(self.alloc, &self.code, self.limits, task)?;
        Ok(what_is_left(&self.run))
    }

    /// Steps the greatest ready task until the machine has finished, or no task is ready, or 40000002 events were made. After want
    /// of memory, and where it is stuck, the machine is where its schedule leaves it.
    pub fn finish(&mut self) -> Result<(), Halted>
        ensures greedily { GreedilyOn self.old self.new }
        ensures done { OnOk result (HasEnded self.new) }
        ensures why { IfErr result (HaltsGreedily self.new) }
    {
        for _step in 0..MOST_EVENTS {
            if self.finished() {
                return Ok(());
            }
            let Some(task) = self.next_ready() else {
                return Ok(());
            };
            let _ = self.step(task)?;
        }
        Ok(())
    }

    /// Takes tasks towards their next events, side by side in at most so many threads, so that their steps find them there. What a
    /// task does up to its event touches nothing but the task, so nothing else can be seen of it.
    pub fn prepare<R: Threads + Sync>(&mut self, rt: &R, threads: usize, tasks: &[u32])
        ensures { self.new ≡ self.old }
    {
        self.run.slots.prepare(rt, &self.code, threads, tasks);
    }

    /// The same machine, which has made no event, and keeps its events from now on.
    pub fn with_events(self) -> EventMachine
        requires nothing { self.schedule ≡ [] }
        ensures played { result.played ≡ self }
        ensures nothing { result.made ≡ [] }
    {
        let Machine {
            code,
            limits,
            argument,
            run,
            alloc,
        } = self;
        EventMachine::new(code, limits, argument, run, alloc)
    }

    /// How the run came out, once it has finished.
    pub fn outcome(&self) -> Option<&Outcome>
        ensures { option_copied result ≡ self.now.outcome }
    {
        self.run.outcome.as_ref()
    }

    pub fn finished(&self) -> bool
        ensures { IsTrue result ↔ IsSome self.now.outcome }
    {
        self.run.outcome.is_some()
    }

    /// The tasks of all events, in their order. The machine is where they lead.
    pub fn schedule(&self) -> &Schedule
        ensures schedule { result.now ≡ self.now.schedule }
        ensures replayed { IsReplayed self.now }
    {
        &self.run.schedule
    }

    /// The steps made so far, with that of the entry of `main`.
    pub fn steps(&self) -> u64
        ensures { result ≡ self.now.world.steps }
    {
        self.run.world.world().steps
    }

    pub fn code(&self) -> &Code
        ensures { result.now ≡ self.now.code }
    {
        &self.code
    }

    pub fn limits(&self) -> Limits
        ensures { result ≡ self.now.limits }
    {
        self.limits
    }

    /// The argument of `main`.
    pub fn arg(&self) -> i32
        ensures { result ≡ self.now.argument }
    {
        self.argument
    }
}

/// What a step has left.
fn what_is_left(run: &Run) -> Stepped
    ensures { (result ≡ Stepped.Finished) ↔ IsSome run.now.outcome }
{
    match &run.outcome {
        Some(_) => Stepped::Finished,
        None => Stepped::More,
    }
}
