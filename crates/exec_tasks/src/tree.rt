ghost use Rattle.std.specs.Prelude.{◌≡◌, ◌↔◌, ◌<◌, ◌≤◌, [], IsTrue, IfOk, OnOk, OnErr, None, ℕ};
ghost use Rattle.std.specs.Option.{option_copied};
ghost use Rattle.exec_tasks.specs.Tree.{fresh, next_origin};

use crate::closed::Closed;
use crate::end::{Joined, TaskEnd};
use crate::kept::Kept;
use crate::live::Live;
use crate::task::{Origin, State, Task};
use lang_base::{Bytes, Items, NoMemory, Path, PathStep, Place, SlotValue, Trap};
use std::alloc::Global;
use std::marker::Model;

/// The tasks that have begun and not ended, by number, with the ends of those whose scope hasn't been joined.
#[derive(Drop)]
pub struct TaskTree {
    tasks: Live,
    begun: u32,
    root_end: Option<TaskEnd>,
    alloc: Global,
}

impl Model for TaskTree {
    ghost use Rattle.exec_tasks.specs.Tree.{Tree, tree_code, IsNumbered};
    ghost use Rattle.exec_tasks.specs.contracts.task.Task as task;
    ghost use Rattle.exec_tasks.specs.contracts.end.TaskEnd as task_end;

    ghost Value = { Tree };

    ghost coded = { tree_code task.the_row.coded task_end.the_row.coded };

    ghost view = { λ t. record { tasks = t.tasks; begun = t.begun; root_end = t.root_end } };

    ghost invariant = { λ t. IsNumbered t.tasks t.begun };
}

impl TaskTree {
    ghost use Rattle.exec_tasks.specs.Join.{JoinsTo, closed_as};
    ghost use Rattle.exec_tasks.specs.Tree.{only_root, task_at, Runs, CanBegin, CanJoin, is_ready, forked, with_task, without_task, joined, printed, ends_in, out_of, end_of, IsPath};

    /// The root alone, which has begun.
    pub fn open(alloc: Global) -> Result<TaskTree, NoMemory>
        ensures { IfOk result (λ tree. tree ≡ only_root) }
    {
        let mut tasks = Live::new(alloc);
        tasks.insert(0, fresh(alloc, None))?;
        Ok(TaskTree {
            tasks,
            begun: 1,
            root_end: None,
            alloc,
        })
    }

    /// How many tasks have begun: the number of the next.
    pub fn begun(&self) -> u32
        ensures number { result ≡ self.now.begun }
        ensures all { (q : ℕ) → self.now.begun ≤ q → task_at self.now q ≡ None }
    {
        let _ = &self.tasks;
        self.begun
    }

    /// How the root ended, once it has.
    pub fn root_end(&self) -> Option<&TaskEnd>
        ensures { option_copied result ≡ self.now.root_end }
    {
        self.root_end.as_ref()
    }

    /// A task that has begun and not ended.
    pub fn get(&self, task: u32) -> Option<&Task>
        ensures { option_copied result ≡ task_at self.now task }
    {
        self.tasks.get(task)
    }

    /// Whether a task has begun, hasn't ended and can go on: it has no open scope, or a branch of it can begin, or the
    /// scope can be joined.
    pub fn is_ready(&self, task: u32) -> bool
        ensures { result ≡ is_ready self.now task }
    {
        match self.tasks.get(task) {
            None => false,
            Some(found) => found.state.is_ready(),
        }
    }

    /// Whether a task has begun and not ended, and has no open scope.
    pub fn runs(&self, task: u32) -> bool
        ensures { IsTrue result ↔ Runs self.now.tasks task }
    {
        match self.tasks.get(task) {
            None => false,
            Some(found) => found.state.runs(),
        }
    }

    /// Whether a branch of the open scope of a task hasn't begun.
    pub fn can_begin(&self, task: u32) -> bool
        ensures { IsTrue result ↔ CanBegin self.now.tasks task }
    {
        match self.tasks.get(task) {
            None => false,
            Some(found) => found.state.can_begin(),
        }
    }

    /// Whether a task can join its open scope.
    pub fn can_join(&self, task: u32) -> bool
        ensures { IsTrue result ↔ CanJoin self.now.tasks task }
    {
        match self.tasks.get(task) {
            None => false,
            Some(found) => found.state.can_join(),
        }
    }

    /// Opens a scope of so many branches, of which none has begun. It takes no memory.
    pub fn fork(&mut self, task: u32, branches: u32)
        requires { Runs self.old.tasks task }
        ensures { self.new ≡ forked self.old task branches }
    {
        self.tasks.fork(task, branches);
    }

    /// Begins the next branch of the open scope of a task, as a task with the next number, which is answered.
    pub fn begin(&mut self, task: u32) -> Result<u32, NoMemory>
        requires branch { CanBegin self.old.tasks task }
        requires number { self.old.begun < 4294967295 }
        ensures number { IfOk result (λ number. number ≡ self.old.begun) }
        ensures ok { OnOk result (self.new ≡ with_task self.old task) }
        ensures err { OnErr result (self.new ≡ self.old) }
    {
        let number = self.begun;
        let child = fresh(self.alloc, next_origin(task, self.tasks.get(task)));
        self.tasks.insert(number, child)?;
        if let Err(stop) = self.tasks.begin(task) {
            let _ = self.tasks.remove(number);
            return Err(stop);
        }
        self.begun += 1;
        Ok(number)
    }

    /// Ends a task, which is forgotten. Its end stays with the scope of its parent, or with the tree for the root.
    pub fn end(
        &mut self,
        task: u32,
        trap: Option<(Trap, Place)>,
        slots: Items<SlotValue>,
    ) -> Result<(), NoMemory>
        requires { Runs self.old.tasks task }
        ensures ok { OnOk result (self.new ≡ without_task self.old task trap slots) }
        ensures err { OnErr result (self.new ≡ self.old) }
    {
        let room = self.room(task, trap, slots)?;
        let Some(ended) = self.tasks.remove(task) else {
            unreachable!()
        };
        let how = Closed::new(room, ended.out);
        match ended.origin {
            None => self.root_end = Some(how.into_end(self.alloc)),
            Some(origin) => self.tasks.end(origin.parent, origin.step.branch, how),
        }
        Ok(())
    }

    /// Room for the end of a task; none where nothing is left of it.
    fn room(
        &self,
        task: u32,
        trap: Option<(Trap, Place)>,
        slots: Items<SlotValue>,
    ) -> Result<Option<Kept<TaskEnd>>, NoMemory>
        ensures { IfOk result (λ room. closed_as room (out_of (task_at self.now task)) ≡ end_of (task_at self.now task) trap slots) }
    {
        if trap.is_none() && slots.is_empty() && self.is_silent(task) {
            return Ok(None);
        }
        let out = Bytes::new(self.alloc);
        Ok(Some(Kept::new(self.alloc, TaskEnd { out, trap, slots })?))
    }

    /// Whether a task has printed nothing.
    fn is_silent(&self, task: u32) -> bool
        ensures { IsTrue result → out_of (task_at self.now task) ≡ [] }
    {
        match self.tasks.get(task) {
            Some(found) => found.out.is_empty(),
            None => true,
        }
    }

    /// Puts bytes after what a task has printed.
    pub fn print(&mut self, task: u32, bytes: &[u8]) -> Result<(), NoMemory>
        ensures ok { OnOk result (self.new ≡ printed self.old task bytes.now) }
        ensures err { OnErr result (self.new ≡ self.old) }
    {
        self.tasks.print(task, bytes)?;
        Ok(())
    }

    /// Joins the open scope of a task, whose branches have all begun and ended. Their outputs come after its own.
    pub fn join(&mut self, task: u32) -> Result<Joined, NoMemory>
        requires { CanJoin self.old.tasks task }
        ensures ok { IfOk result (JoinsTo (ends_in (task_at self.old task))) }
        ensures joined { OnOk result (self.new ≡ joined self.old task) }
        ensures err { OnErr result (self.new ≡ self.old) }
    {
        let joined = self.tasks.join(task)?;
        Ok(joined)
    }

    /// The path of a live task: the steps from the root to it.
    pub fn path(&self, task: u32) -> Result<Path, NoMemory>
        ensures { IfOk result (λ path. IsPath self.now.tasks task path.steps) }
    {
        let mut upwards = Vec::new(self.alloc);
        let mut at = task;
        while let Some(origin) = self.tasks.origin(at) {
            upwards.push(origin.step)?;
            at = origin.parent;
        }
        upwards.reverse();
        Ok(Path {
            steps: Items::from_vec(upwards),
        })
    }
}

fn fresh(alloc: Global, origin: Option<Origin>) -> Task
    ensures { result ≡ fresh origin }
{
    Task {
        origin,
        forks: 0,
        out: Bytes::new(alloc),
        state: State::Running,
    }
}

/// Where the next branch of a task comes from.
fn next_origin(number: u32, task: Option<&Task>) -> Option<Origin>
    ensures { result ≡ next_origin number (option_copied task.entry) }
{
    let task = task?;
    Some(Origin {
        parent: number,
        step: PathStep {
            scope: task.forks.saturating_sub(1),
            branch: task.state.branches_begun(),
        },
    })
}
