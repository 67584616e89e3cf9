ghost use Rattle.std.specs.Prelude.{◌≡◌, IfOk, IfErr, OnOk, OnErr, MatchOption, IsTrue, ◌↔◌, false};
ghost use Rattle.exec_tasks.specs.Tree.{only_root};
ghost use Rattle.exec_world.specs.Costs.{Within, Stops};
ghost use Rattle.exec_world.specs.Ready.{IsReady, NoneReady, IsGreatestReady, NoneReadyBelow, IsGreatestBelow};
ghost use Rattle.exec_world.specs.World.{Fits, answer_to, world_after};

use crate::event::Event;
use crate::queues::{Queues, is_end};
use crate::stop::Stop;
use crate::world::World;
use code_instrs::Code;
use exec_task::Answer;
use lang_base::NoMemory;
use std::alloc::Global;
use std::marker::Model;

/// A world with its queues, by which a ready task is found without asking those that wait. A contract sees the world.
#[derive(Drop)]
pub struct QueuedWorld {
    world: World,
    queues: Queues,
}

impl Model for QueuedWorld {
    ghost use Rattle.exec_world.specs.declared.world.World.{World};
    ghost use Rattle.exec_world.specs.contracts.world.World as world_row;
    ghost use Rattle.exec_world.specs.Queues.{AllHavePlaces};

    ghost Value = { World };

    ghost coded = { world_row.the_row.coded };

    ghost view = { λ q. q.world };

    ghost invariant = { λ q. AllHavePlaces q.world q.queues };
}

impl QueuedWorld {
    /// A world in which the root alone has begun.
    pub fn open(alloc: Global, world: World) -> Result<QueuedWorld, NoMemory>
        requires { world.tree ≡ only_root }
        ensures { IfOk result (λ queued. queued ≡ world) }
    {
        let queues = Queues::open(alloc)?;
        Ok(QueuedWorld { world, queues })
    }

    /// What can be read of it.
    pub fn world(&self) -> &World
        ensures { result.now ≡ self.now }
    {
        &self.world
    }

    /// The number of the next task.
    pub fn begun(&self) -> u32
        ensures { result ≡ self.now.tree.begun }
    {
        self.world.tree.begun()
    }

    /// Whether a task may make this event here. It takes no memory.
    pub fn fits(&self, event: &Event) -> bool
        ensures { IsTrue result ↔ Fits self.now event.now }
    {
        self.world.fits(event)
    }

    /// Makes an event of a task, as the world does.
    pub fn perform(&mut self, alloc: Global, code: &Code, event: Event) -> Result<Answer, Stop>
        requires { Fits self.old event }
        ensures within { OnOk result (Within code.now self.old event) }
        ensures stops { IfErr result (Stops code.now self.old event) }
        ensures answer { IfOk result (λ answer. answer ≡ answer_to self.old event) }
        ensures after { OnOk result (self.new ≡ world_after code.now self.old event) }
        ensures err { OnErr result (self.new ≡ self.old) }
    {
        if self.queues.admit(&self.world, &event).is_err() {
            return Err(self.world.refusal(code, &event));
        }
        let task = event.task;
        let ends = is_end(&event.action);
        let answer = self.world.perform(alloc, code, event)?;
        if ends {
            self.queues.forget(task);
        }
        Ok(answer)
    }

    /// Whether a task can make its next event. It takes no memory.
    pub fn is_ready(&self, task: u32) -> bool
        ensures yes { IsTrue result → IsReady self.now task }
        ensures no { result ≡ false → IsReady self.now task → ⊥ }
    {
        self.world.is_ready(task)
    }

    /// Whether a task can make its next event. One that can't isn't looked at again before that may have changed.
    pub fn still_ready(&mut self, task: u32) -> bool
        ensures same { self.new ≡ self.old }
        ensures yes { IsTrue result → IsReady self.old task }
        ensures no { result ≡ false → IsReady self.old task → ⊥ }
    {
        self.queues.is_ready(&self.world, task)
    }

    /// The greatest task that is ready.
    pub fn next_ready(&mut self) -> Option<u32>
        ensures same { self.new ≡ self.old }
        ensures next { MatchOption result (NoneReady self.old) (IsGreatestReady self.old) }
    {
        let begun = self.world.tree.begun();
        self.ready_below(begun)
    }

    /// The greatest task below a bound that is ready.
    pub fn ready_below(&mut self, bound: u32) -> Option<u32>
        ensures same { self.new ≡ self.old }
        ensures next { MatchOption result (NoneReadyBelow self.old bound) (IsGreatestBelow self.old bound) }
    {
        self.queues.ready_below(&self.world, bound)
    }
}
