ghost use Rattle.std.specs.Prelude.{◌≡◌, IfOk, OnOk, OnErr};
ghost use Rattle.std.specs.Option.{option_copied};
ghost use Rattle.std.specs.FinMap.{empty, get, insert, remove};
ghost use Rattle.exec_tasks.specs.Join.{JoinsTo};
ghost use Rattle.exec_tasks.specs.Scope.{with_branch, with_end};
ghost use Rattle.exec_tasks.specs.Tree.{CanBegin, CanJoin, origin_of, printed_task, changed, forked_task, with_scope, joined_task, ends_in};

use crate::closed::Closed;
use crate::end::Joined;
use crate::numbered::Numbered;
use crate::scope::Scope;
use crate::task::{Origin, State, Task};
use lang_base::NoMemory;
use std::alloc::Global;
use std::marker::Model;

/// The live tasks. A contract sees a finite map from their numbers.
#[derive(Drop)]
pub struct Live {
    tasks: Numbered<Task>,
    alloc: Global,
}

impl Model for Live {
    ghost use Rattle.std.specs.FinMap.{code};
    ghost use Rattle.std.specs.Coded.{coded_ℕ};
    ghost use Rattle.exec_tasks.specs.Tree.{Tasks};
    ghost use Rattle.exec_tasks.specs.contracts.task.Task as task;

    ghost Value = { Tasks };

    ghost coded = { code coded_ℕ task.the_row.coded };

    ghost view = { λ t. t.tasks };
}

impl Live {
    pub fn new(alloc: Global) -> Live
        ensures { result ≡ empty }
    {
        Live {
            tasks: Numbered::new(alloc),
            alloc,
        }
    }

    pub fn get(&self, number: u32) -> Option<&Task>
        ensures { option_copied result ≡ get self.now number }
    {
        self.tasks.get(number)
    }

    /// Where a live task came from: None for the root.
    pub fn origin(&self, number: u32) -> Option<Origin>
        ensures { result ≡ origin_of (get self.now number) }
    {
        match self.get(number) {
            None => None,
            Some(task) => task.origin,
        }
    }

    pub fn insert(&mut self, number: u32, task: Task) -> Result<(), NoMemory>
        ensures ok { OnOk result (self.new ≡ insert self.old number task) }
        ensures err { OnErr result (self.new ≡ self.old) }
    {
        self.tasks.insert(number, task)
    }

    pub fn remove(&mut self, number: u32) -> Option<Task>
        ensures task { result ≡ get self.old number }
        ensures removed { self.new ≡ remove self.old number }
    {
        self.tasks.remove(number)
    }

    /// Opens a scope of a task.
    pub fn fork(&mut self, number: u32, count: u32)
        ensures { self.new ≡ changed self.old number (forked_task count) }
    {
        let Some(task) = self.tasks.get_mut(number) else {
            return;
        };
        task.forks = task.forks.saturating_add(1);
        task.state = State::Forked(Scope::open(self.alloc, count));
    }

    /// Begins the next branch in the open scope of a task.
    pub fn begin(&mut self, number: u32) -> Result<(), NoMemory>
        requires { CanBegin self.old number }
        ensures ok { OnOk result (self.new ≡ changed self.old number (with_scope with_branch)) }
        ensures err { OnErr result (self.new ≡ self.old) }
    {
        let Some(task) = self.tasks.get_mut(number) else {
            unreachable!()
        };
        task.state.begin()?;
        Ok(())
    }

    /// Notes in the open scope of a task how a branch ended.
    pub fn end(&mut self, number: u32, branch: u32, how: Closed)
        ensures { self.new ≡ changed self.old number (with_scope (λ scope. with_end scope branch how)) }
    {
        let Some(task) = self.tasks.get_mut(number) else {
            return;
        };
        task.state.end(branch, how);
    }

    /// Joins the open scope of a task.
    pub fn join(&mut self, number: u32) -> Result<Joined, NoMemory>
        requires { CanJoin self.old number }
        ensures ok { IfOk result (JoinsTo (ends_in (get self.old number))) }
        ensures joined { OnOk result (self.new ≡ changed self.old number joined_task) }
        ensures err { OnErr result (self.new ≡ self.old) }
    {
        let Some(task) = self.tasks.get_mut(number) else {
            unreachable!()
        };
        let joined = task.join(self.alloc)?;
        Ok(joined)
    }

    /// Puts bytes after what a task has printed.
    pub fn print(&mut self, number: u32, bytes: &[u8]) -> Result<(), NoMemory>
        ensures ok { OnOk result (self.new ≡ changed self.old number (printed_task bytes.now)) }
        ensures err { OnErr result (self.new ≡ self.old) }
    {
        let Some(task) = self.tasks.get_mut(number) else {
            return Ok(());
        };
        task.out.extend(bytes)?;
        Ok(())
    }
}
