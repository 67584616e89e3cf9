ghost use Rattle.std.specs.Prelude.{◌≡◌, ◌↔◌, ℕ, IsTrue, OnOk, OnErr, None, true, false};
ghost use Rattle.std.specs.Option.{option_copied};
ghost use Rattle.std.specs.FinMap.{empty, get, insert, remove};
ghost use Rattle.exec_locks.specs.Locks.{is_inside, deepened_from, exited, HasEntry};

use crate::standing::Standing;
use lang_base::NoMemory;
use std::alloc::Global;
use std::collections::BTreeMap;
use std::marker::Model;

/// The openers and the adopted tasks. A contract sees a finite map from their numbers.
#[derive(Drop)]
pub struct StandingMap {
    map: BTreeMap<u32, Standing>,
}

impl Model for StandingMap {
    ghost use Rattle.std.specs.FinMap.{from_entries, code};
    ghost use Rattle.std.specs.Coded.{coded_ℕ};
    ghost use Rattle.exec_locks.specs.Locks.{Standings};
    ghost use Rattle.exec_locks.specs.contracts.standing.Standing as standing;

    ghost Value = { Standings };

    ghost coded = { code coded_ℕ standing.the_row.coded };

    ghost view = { λ t. from_entries t.map.entries };
}

impl StandingMap {
    pub fn new(alloc: Global) -> StandingMap
        ensures { result ≡ empty }
    {
        StandingMap {
            map: BTreeMap::new(alloc),
        }
    }

    pub fn is_empty(&self) -> bool
        ensures { IsTrue result → (q : ℕ) → get self.now q ≡ None }
    {
        self.map.is_empty()
    }

    pub fn get(&self, task: u32) -> Option<&Standing>
        ensures { option_copied result ≡ get self.now task }
    {
        self.map.get(&task)
    }

    /// Whether a task has an entry open.
    pub fn has_entry(&self, task: u32) -> bool
        ensures { IsTrue result ↔ HasEntry (get self.now task) }
    {
        match self.get(task) {
            None => false,
            Some(standing) => standing.has_entry(),
        }
    }

    pub fn insert(&mut self, task: u32, standing: Standing) -> Result<(), NoMemory>
        ensures ok { OnOk result (self.new ≡ insert self.old task standing) }
        ensures err { OnErr result (self.new ≡ self.old) }
    {
        let _ = self.map.insert(task, standing)?;
        Ok(())
    }

    pub fn remove(&mut self, task: u32)
        ensures { self.new ≡ remove self.old task }
    {
        let _ = self.map.remove(&task);
    }

    /// Opens an entry more of a task that stands inside a block, and answers whether it does.
    pub fn deepen(&mut self, task: u32) -> bool
        ensures inside { result ≡ is_inside self.old task }
        ensures deeper { self.new ≡ deepened_from self.old task (get self.old task) }
    {
        let Some(standing) = self.map.get_mut(&task) else {
            return false;
        };
        standing.deepen();
        true
    }

    /// Leaves an entry of a task, unless it is the outermost of an opener. It answers whether it did.
    pub fn leave(&mut self, task: u32) -> bool
        requires { HasEntry (get self.old task) }
        ensures left { result ≡ true → self.new ≡ exited self.old task }
        ensures outermost { result ≡ false → (self.new ≡ self.old) × (exited self.old task ≡ remove self.old task) }
    {
        let Some(standing) = self.map.get_mut(&task) else {
            unreachable!()
        };
        standing.leave()
    }
}
