ghost use Rattle.std.specs.Prelude.{◌≡◌, ◌↔◌, IfOk, OnOk, OnErr, MatchOption, IsTrue, false};
ghost use Rattle.std.specs.Option.{option_copied};
ghost use Rattle.std.specs.FinMap.{get};
ghost use Rattle.exec_locks.specs.Locks.{opener_of, effects_of, is_outermost};

use crate::index::{Index, forget_all, note_all};
use crate::search::{Search, hinders, least_holder, lesser};
use crate::standing::Standing;
use crate::standings::StandingMap;
use lang_base::{Effect, Items, NoMemory};
use std::alloc::Global;
use std::marker::Model;

/// The open blocks with their effects, and the tasks that stand inside them. A contract sees how each of these tasks
/// stands.
#[derive(Drop)]
pub struct Locks {
    standings: StandingMap,
    /// Where the reads and where the writes of the blocks are found.
    reads: Index,
    writes: Index,
    alloc: Global,
}

impl Model for Locks {
    ghost use Rattle.std.specs.FinMap.{code};
    ghost use Rattle.std.specs.Coded.{coded_ℕ};
    ghost use Rattle.exec_locks.specs.Locks.{Standings};
    ghost use Rattle.exec_locks.specs.Index.{IsIndexed};
    ghost use Rattle.exec_locks.specs.contracts.standing.Standing as standing;

    ghost Value = { Standings };

    ghost coded = { code coded_ℕ standing.the_row.coded };

    ghost view = { λ l. l.standings };

    ghost invariant = { λ l. IsIndexed l.reads l.writes l.standings };
}

impl Locks {
    ghost use Rattle.std.specs.FinMap.{empty, remove};
    ghost use Rattle.exec_locks.specs.Locks.{AllRoot, IsFree, IsLeastHolder, is_inside, hinders, MayEnter, entered, HasEntry, exited, adopted};

    /// No blocks, which takes no memory.
    pub fn new(alloc: Global) -> Locks
        ensures { result ≡ empty }
    {
        Locks {
            standings: StandingMap::new(alloc),
            reads: Index::new(alloc),
            writes: Index::new(alloc),
            alloc,
        }
    }

    /// The least task whose open block interferes with what this one wants, other than itself and its opener. It takes
    /// no memory.
    pub fn conflicts(&self, task: u32, wants: &[Effect]) -> Option<u32>
        requires { AllRoot wants.now }
        ensures { MatchOption result (IsFree self.now task wants.now) (IsLeastHolder self.now task wants.now) }
    {
        if self.standings.is_empty() {
            return None;
        }
        let search = Search {
            standings: &self.standings,
            task,
            wants,
        };
        let mut least = None;
        for e in wants {
            least = lesser(least, least_holder(search, &self.reads, &self.writes, e));
        }
        least
    }

    /// Whether the block of a holder hinders a task in what it wants. It takes no memory.
    pub fn hinders(&self, task: u32, wants: &[Effect], holder: u32) -> bool
        ensures { result ≡ hinders self.now task wants.now holder }
    {
        let search = Search {
            standings: &self.standings,
            task,
            wants,
        };
        hinders(search, holder)
    }

    /// Whether a task stands inside a block. It takes no memory.
    pub fn inside(&self, task: u32) -> bool
        ensures { result ≡ is_inside self.now task }
    {
        self.standings.get(task).is_some()
    }

    /// Whether a task has an entry open. It takes no memory.
    pub fn has_entry(&self, task: u32) -> bool
        ensures { IsTrue result ↔ HasEntry (get self.now task) }
    {
        self.standings.has_entry(task)
    }

    /// Whether the next exit of a task releases a block, which it opened. It takes no memory.
    pub fn is_outermost(&self, task: u32) -> bool
        ensures { result ≡ is_outermost (get self.now task) }
    {
        match self.standings.get(task) {
            Some(Standing::Opener { depth, .. }) => *depth <= 1,
            _ => false,
        }
    }

    /// Enters a block. Where the task stands inside a block already that is a further entry of it, and what it wants
    /// here isn't asked.
    pub fn enter(&mut self, task: u32, wants: Items<Effect>) -> Result<(), NoMemory>
        requires roots { AllRoot wants }
        requires may { MayEnter self.old task wants }
        ensures ok { OnOk result (self.new ≡ entered self.old task wants) }
        ensures err { OnErr result (self.new ≡ self.old) }
    {
        if self.standings.deepen(task) {
            return Ok(());
        }
        let block = Standing::Opener {
            effects: wants,
            depth: 1,
        };
        self.standings.insert(task, block)?;
        let effects = effects_of(&self.standings, task);
        if let Err(stop) = note_all(self.alloc, &mut self.reads, &mut self.writes, task, effects) {
            forget_all(&mut self.reads, &mut self.writes, task, effects);
            self.standings.remove(task);
            return Err(stop);
        }
        Ok(())
    }

    /// Leaves the innermost entry of a task. The outermost entry of an opener releases its block. It takes no memory.
    pub fn exit(&mut self, task: u32)
        requires { HasEntry (get self.old task) }
        ensures { self.new ≡ exited self.old task }
    {
        if !self.standings.leave(task) {
            self.release(task);
        }
    }

    /// Ends all entries of a task: the block that it opened is released, or its adoption ends. It takes no memory.
    pub fn release(&mut self, task: u32)
        ensures { self.new ≡ remove self.old task }
    {
        let effects = effects_of(&self.standings, task);
        forget_all(&mut self.reads, &mut self.writes, task, effects);
        self.standings.remove(task);
    }

    /// Makes a task that was begun by another belong to the block in which that one stands.
    pub fn adopt(&mut self, by: u32, task: u32) -> Result<(), NoMemory>
        requires by { IsTrue (is_inside self.old by) }
        requires outside { is_inside self.old task ≡ false }
        ensures ok { OnOk result (self.new ≡ adopted self.old by task) }
        ensures err { OnErr result (self.new ≡ self.old) }
    {
        let adopted = Standing::Adopted {
            opener: opener_of(by, self.standings.get(by)),
            depth: 0,
        };
        self.standings.insert(task, adopted)?;
        Ok(())
    }
}

/// The opener of the block in which a task stands.
fn opener_of(task: u32, standing: Option<&Standing>) -> u32
    ensures { result ≡ opener_of task (option_copied standing.entry) }
{
    match standing {
        Some(Standing::Adopted { opener, .. }) => *opener,
        _ => task,
    }
}

/// The effects of the block that a task opened, if it has.
fn effects_of(standings: &StandingMap, task: u32) -> &[Effect]
    ensures { result.now ≡ effects_of (get standings.now task) }
{
    match standings.get(task) {
        Some(Standing::Opener { effects, .. }) => effects.as_slice(),
        _ => &[],
    }
}
