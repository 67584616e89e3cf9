ghost use Rattle.std.specs.Prelude.{◌≡◌, ◌↔◌, ◌≤◌, IsTrue, IfOk, IfErr, OnOk, OnErr};
ghost use Rattle.exec_world.specs.Costs.{Within, Stops};
ghost use Rattle.exec_world.specs.World.{at_start, Fits, answer_to, world_after};

use crate::cost::{cells_of, has_steps, steps_of};
use crate::event::Event;
use crate::stop::Stop;
use crate::waits::Waits;
use code_instrs::Code;
use exec_heap::Heap;
use exec_locks::Locks;
use exec_task::Answer;
use exec_tasks::TaskTree;
use lang_base::{Limits, NoMemory};
use std::alloc::Global;

/// What the tasks of a run share.
#[derive(Drop)]
pub struct World {
    /// The objects and arrays, with the cells used and their limit.
    pub heap: Heap,
    pub tree: TaskTree,
    pub locks: Locks,
    /// The tasks in front of an entry.
    pub waits: Waits,
    /// The steps made so far, with that of the entry of `main`.
    pub steps: u64,
    /// How many steps there may be.
    pub most_steps: u64,
}

impl World {
    /// The world in which the root has begun and nothing was made.
    pub fn open(alloc: Global, limits: Limits) -> Result<World, NoMemory>
        requires { limits.cells ≤ 16777216 }
        ensures { IfOk result (λ world. world ≡ at_start limits) }
    {
        Ok(World {
            heap: Heap::new(alloc, limits.cells),
            tree: TaskTree::open(alloc)?,
            locks: Locks::new(alloc),
            waits: Waits::new(alloc),
            steps: 1,
            most_steps: limits.steps,
        })
    }

    /// Makes an event of a task, and answers it. Limited comes exactly where it would bring the steps or the cells over their
    /// limit. Where it isn't made the world is as it was.
    pub fn perform(&mut self, alloc: Global, code: &Code, event: Event) -> Result<Answer, Stop>
        requires { Fits self.old event }
        ensures within { OnOk result (Within code.now self.old event) }
        ensures stops { IfErr result (Stops code.now self.old event) }
        ensures answer { IfOk result (λ answer. answer ≡ answer_to self.old event) }
        ensures after { OnOk result (self.new ≡ world_after code.now self.old event) }
        ensures err { OnErr result (self.new ≡ self.old) }
    {
        if !self.allows(code, &event) {
            return Err(Stop::Limited);
        }
        let cost = u64::from(event.ticks) + steps_of(&event.action);
        let answer = self.act(alloc, code, event)?;
        self.steps += cost;
        Ok(answer)
    }

    /// Whether an event keeps to the limits.
    fn allows(&self, code: &Code, event: &Event) -> bool
        ensures { IsTrue result ↔ Within code.now self.now event.now }
    {
        let more = steps_of(&event.action);
        has_steps(self.steps, self.most_steps, event.ticks, more)
            && self.heap.has_room(cells_of(code, &event.action))
    }

    /// Why an event isn't made for which there is no memory: limits come first.
    pub fn refusal(&self, code: &Code, event: &Event) -> Stop
        ensures { Stops code.now self.now event.now result }
    {
        if self.allows(code, event) {
            Stop::NoMemory
        } else {
            Stop::Limited
        }
    }
}
