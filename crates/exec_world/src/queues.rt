ghost use Rattle.std.specs.Prelude.{◌≡◌, ℕ, true, false, IsTrue, IfOk, OnOk, MatchOption};
ghost use Rattle.exec_world.specs.Queues.{HasUnder, parent_of, is_end};
ghost use Rattle.exec_world.specs.Ready.{IsReady, NoneReadyBelow, IsGreatestBelow};

use crate::event::Event;
use crate::ready::Readiness;
use crate::task_queue::TaskQueue;
use crate::world::World;
use exec_task::{Action, Own};
use exec_tasks::TaskTree;
use lang_base::NoMemory;
use std::alloc::Global;
use std::collections::BTreeMap;

/// Which tasks may be ready, and which wait until a block is left.
#[derive(Drop)]
pub struct Queues {
    /// The run queue: each task that is ready, and some that aren't.
    pub run: TaskQueue,
    /// The wait queues: under the number of a task those that its open block was found to hinder.
    pub wait: BTreeMap<u32, TaskQueue>,
    /// Who hindered a task when one was last found hindered: likely the next one too.
    likely: Option<u32>,
    alloc: Global,
}

impl Queues {
    ghost use Rattle.exec_world.specs.Queues.{Runs, NoneWaits, Keeps, KeepsOthers, OwnAdmits, Admits, AllHavePlaces, IsPutAside};

    /// The root alone, in the run queue.
    pub fn open(alloc: Global) -> Result<Queues, NoMemory>
        ensures { IfOk result (λ queues. Runs queues 0) }
    {
        let mut run = TaskQueue::new(alloc);
        run.insert(0)?;
        Ok(Queues {
            run,
            wait: BTreeMap::new(alloc),
            likely: None,
            alloc,
        })
    }

    /// Puts whatever may become ready by an event into the run queue, before the event is made.
    pub fn admit(&mut self, world: &World, event: &Event) -> Result<(), NoMemory>
        ensures kept { Keeps self.old self.new }
        ensures admitted { OnOk result (Admits world.now self.new event.now) }
    {
        let task = event.task;
        match &event.action {
            Action::Do(own) => self.admit_own(world, task, own),
            Action::Begin { .. } => self.put(world.tree.begun()),
            Action::End(_) => {
                if let Some(parent) = parent_of(&world.tree, task) {
                    self.put(parent)?;
                }
                self.wake(task)
            }
            _ => Ok(()),
        }
    }

    /// The same of what a task does by itself.
    fn admit_own(&mut self, world: &World, task: u32, own: &Own) -> Result<(), NoMemory>
        ensures kept { Keeps self.old self.new }
        ensures admitted { OnOk result (OwnAdmits world.now self.new task own.now) }
    {
        match own {
            Own::Rest => self.put(task),
            Own::Exit if world.locks.is_outermost(task) => self.wake(task),
            _ => Ok(()),
        }
    }

    /// Puts a task into the run queue.
    fn put(&mut self, task: u32) -> Result<(), NoMemory>
        ensures kept { Keeps self.old self.new }
        ensures there { OnOk result (Runs self.new task) }
    {
        self.run.insert(task)
    }

    /// Puts those that wait for the block of a task into the run queue.
    fn wake(&mut self, holder: u32) -> Result<(), NoMemory>
        ensures kept { Keeps self.old self.new }
        ensures none { OnOk result (NoneWaits self.new holder) }
    {
        let Some(queue) = self.wait.get(&holder) else {
            return Ok(());
        };
        self.run.insert_each(queue)?;
        let _ = self.wait.remove(&holder);
        Ok(())
    }

    /// Takes a task that has ended out of the run queue.
    pub fn forget(&mut self, task: u32)
        ensures { KeepsOthers task self.old self.new }
    {
        self.run.remove(task);
    }

    /// The greatest task below a bound that is ready. Those that it passes over leave the run queue.
    pub fn ready_below(&mut self, world: &World, bound: u32) -> Option<u32>
        requires { AllHavePlaces world.now self.old }
        ensures places { AllHavePlaces world.now self.new }
        ensures next { MatchOption result (NoneReadyBelow world.now bound) (IsGreatestBelow world.now bound) }
    {
        let mut rest = bound;
        while let Some(task) = self.run.last_below(rest) {
            if self.is_ready(world, task) {
                return Some(task);
            }
            rest = task;
        }
        None
    }

    /// Whether a task is ready. One that isn't leaves the run queue.
    pub fn is_ready(&mut self, world: &World, task: u32) -> bool
        requires { AllHavePlaces world.now self.old }
        ensures places { AllHavePlaces world.now self.new }
        ensures others { KeepsOthers task self.old self.new }
        ensures yes { IsTrue result → IsReady world.now task }
        ensures no { result ≡ false → IsReady world.now task → ⊥ }
    {
        match world.readiness(task, self.likely) {
            Readiness::Ready => true,
            Readiness::Unready => {
                self.forget(task);
                false
            }
            Readiness::Hindered { by } => {
                self.put_aside(task, by);
                false
            }
        }
    }

    /// Moves a task into the wait queue of one that hinders it. Where there is no memory for that it stays in the run queue.
    fn put_aside(&mut self, task: u32, holder: u32)
        ensures { IsPutAside task holder self.old self.new }
    {
        if add(self.alloc, &mut self.wait, holder, task).is_ok() {
            self.run.remove(task);
        }
        self.likely = Some(holder);
    }
}

/// Puts a task into a wait queue.
fn add(
    alloc: Global,
    queues: &mut BTreeMap<u32, TaskQueue>,
    holder: u32,
    task: u32,
) -> Result<(), NoMemory>
    ensures there { OnOk result (HasUnder queues.new holder task) }
    ensures kept { (k : ℕ) (q : ℕ) → HasUnder queues.old k q → HasUnder queues.new k q }
{
    if let Some(queue) = queues.get_mut(&holder) {
        return queue.insert(task);
    }
    let mut queue = TaskQueue::new(alloc);
    queue.insert(task)?;
    let _ = queues.insert(holder, queue)?;
    Ok(())
}

/// The task that has begun another, if that is there.
fn parent_of(tree: &TaskTree, task: u32) -> Option<u32>
    ensures { result ≡ parent_of tree.now task }
{
    let origin = tree.get(task)?.origin?;
    Some(origin.parent)
}

/// Whether a task ends by an action.
pub fn is_end(action: &Action) -> bool
    ensures { result ≡ is_end action.now }
{
    matches!(action, Action::End(_))
}
