ghost use Rattle.std.specs.Prelude.{◌≡◌, OnOk, OnErr};
ghost use Rattle.std.specs.Option.{option_copied};
ghost use Rattle.std.specs.FinMap.{empty, get, insert, remove};
ghost use Rattle.exec_locks.specs.Locks.{AllRoot};
ghost use Rattle.exec_world.specs.Waits.{wanted};

use exec_tasks::Numbered;
use lang_base::{Effect, Items, NoMemory};
use std::alloc::Global;
use std::marker::Model;

/// The tasks that have rested in front of an entry, with the effects with which they are to enter. A contract sees a finite map
/// from their numbers.
#[derive(Drop)]
pub struct Waits {
    map: Numbered<Items<Effect>>,
}

impl Model for Waits {
    ghost use Rattle.std.specs.FinMap.{code};
    ghost use Rattle.std.specs.Coded.{coded_ℕ, coded_list};
    ghost use Rattle.exec_world.specs.Waits.{Waiting, AllWantRoots};
    ghost use Rattle.lang_base.specs.contracts.effect.Effect as effect;

    ghost Value = { Waiting };

    ghost coded = { code coded_ℕ (coded_list effect.the_row.coded) };

    ghost view = { λ w. w.map };

    ghost invariant = { λ w. AllWantRoots w.map };
}

impl Waits {
    /// No task, which takes no memory.
    pub fn new(alloc: Global) -> Waits
        ensures { result ≡ empty }
    {
        Waits {
            map: Numbered::new(alloc),
        }
    }

    /// With which effects a task is to enter, if it stands in front of an entry. Their paths begin at the root.
    pub fn get(&self, task: u32) -> Option<&Items<Effect>>
        ensures value { option_copied result ≡ get self.now task }
        ensures roots { AllRoot (wanted (get self.now task)) }
    {
        self.map.get(task)
    }

    /// A task has rested in front of an entry.
    pub fn insert(&mut self, task: u32, effects: Items<Effect>) -> Result<(), NoMemory>
        requires { AllRoot effects }
        ensures ok { OnOk result (self.new ≡ insert self.old task effects) }
        ensures err { OnErr result (self.new ≡ self.old) }
    {
        self.map.insert(task, effects)?;
        Ok(())
    }

    /// A task has entered.
    pub fn remove(&mut self, task: u32)
        ensures { self.new ≡ remove self.old task }
    {
        let _ = self.map.remove(task);
    }
}
