ghost use Rattle.std.specs.Prelude.{◌≡◌, ◌↔◌, ◌++◌, [], None, IsSome, IsTrue, IfOk, IfErr, OnOk, option_to_list, false};
ghost use Rattle.exec_world.specs.Ready.{IsReady};
ghost use Rattle.exec_machine.specs.Keeping.{IsAfter, Plays, WhyHaltedAt};
ghost use Rattle.exec_machine.specs.MadeEvents.{MakesThese};

use crate::halted::Halted;
use crate::made_event::MadeEvent;
use crate::run::Run;
use code_instrs::Code;
use lang_base::{Items, Limits, NoMemory};
use std::alloc::Global;
use std::marker::Model;

/// A machine that keeps the events that it makes. A contract sees what it sees of a machine, and the events.
#[derive(Drop)]
pub struct EventMachine {
    code: Code,
    limits: Limits,
    argument: i32,
    run: Run,
    made: Items<MadeEvent>,
    alloc: Global,
}

impl Model for EventMachine {
    ghost use Rattle.std.specs.Coded.{coded_list};
    ghost use Rattle.exec_machine.specs.Keeping.{played_code};
    ghost use Rattle.exec_machine.specs.MadeEvents.{PlayedEvents, played_events_code, PlaysEvents};
    ghost use Rattle.lang_base.specs.contracts.outcome.Limits as limits_row;
    ghost use Rattle.lang_base.specs.contracts.outcome.Outcome as outcome_row;
    ghost use Rattle.code_instrs.specs.contracts.code.Code as code_row;
    ghost use Rattle.exec_world.specs.contracts.world.World as world_row;
    ghost use Rattle.exec_machine.specs.contracts.made_event.MadeEvent as made_event_row;

    ghost Value = { PlayedEvents };

    ghost coded = { played_events_code (played_code code_row.the_row.coded limits_row.the_row.coded world_row.the_row.coded outcome_row.the_row.coded) (coded_list made_event_row.the_row.coded) };

    ghost view = { λ m. record { played = record { code = m.code; limits = m.limits; argument = m.argument; schedule = m.run.schedule; world = m.run.world; outcome = m.run.outcome }; made = m.made } };

    ghost invariant = { λ m. PlaysEvents m.code m.limits m.argument m.run m.made };
}

impl EventMachine {
    /// Of a run that has made no event.
    pub(crate) fn new(
        code: Code,
        limits: Limits,
        argument: i32,
        run: Run,
        alloc: Global,
    ) -> EventMachine
        requires plays { Plays code limits argument run }
        requires nothing { run.schedule ≡ [] }
        ensures played { result.played ≡ record { code = code; limits = limits; argument = argument; schedule = run.schedule; world = run.world; outcome = run.outcome } }
        ensures nothing { result.made ≡ [] }
    {
        EventMachine {
            code,
            limits,
            argument,
            run,
            made: Items::new(alloc),
            alloc,
        }
    }

    /// Whether a task can make its next event. It takes no memory.
    pub fn ready(&self, task: u32) -> bool
        ensures yes { IsTrue result → IsReady self.now.played.world task }
        ensures no { result ≡ false → IsReady self.now.played.world task → ⊥ }
    {
        self.run.world.is_ready(task)
    }

    pub fn finished(&self) -> bool
        ensures { IsTrue result ↔ IsSome self.now.played.outcome }
    {
        self.run.outcome.is_some()
    }

    /// Lets a ready task make its next event, as a step of a machine, and keeps it. One by which a limit is met isn't made.
    pub fn step(self, task: u32) -> Result<EventMachine, Halted>
        requires unfinished { self.played.outcome ≡ None }
        requires ready { IsReady self.played.world task }
        ensures stepped { IfOk result (λ next. IsAfter self.played task next.played) }
        ensures why { IfErr result (WhyHaltedAt self.played task) }
    {
        let EventMachine {
            code,
            limits,
            argument,
            mut run,
            mut made,
            alloc,
        } = self;
        let event = run.step_with_event(alloc, &code, limits, task)?;
        keep(&mut made, event)?;
        Ok(EventMachine {
            code,
            limits,
            argument,
            run,
            made,
            alloc,
        })
    }

    /// The events, in their order.
    pub fn into_made(self) -> Items<MadeEvent>
        ensures made { result ≡ self.made }
        ensures all { MakesThese self.played result }
    {
        self.made
    }
}

/// Puts an event last, where there is one.
fn keep(made: &mut Items<MadeEvent>, event: Option<MadeEvent>) -> Result<(), NoMemory>
    ensures { OnOk result (made.new ≡ made.old ++ option_to_list event) }
{
    if let Some(event) = event {
        made.push(event)?;
    }
    Ok(())
}
