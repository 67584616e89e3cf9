ghost use Rattle.std.specs.Prelude.{◌↔◌, ◌<◌, ◌^◌, length, IsTrue};
ghost use Rattle.std.specs.FinMap.{get};
ghost use Rattle.exec_heap.specs.Heap.{object_at, values_of};
ghost use Rattle.exec_locks.specs.Locks.{AllRoot};
ghost use Rattle.exec_tasks.specs.Tree.{CanBegin};
ghost use Rattle.exec_world.specs.Waits.{wanted};
ghost use Rattle.exec_world.specs.World.{Fits, OwnFits, CanEnter, IsOutside};

use crate::event::Event;
use crate::ready::may_enter;
use crate::waits::Waits;
use crate::world::World;
use exec_heap::Heap;
use exec_locks::Locks;
use exec_task::{Action, Own};
use exec_tasks::TaskTree;
use lang_base::{Effect, Head, Items};

impl World {
    /// Whether a task may make this event here. It takes no memory.
    pub fn fits(&self, event: &Event) -> bool
        ensures { IsTrue result ↔ Fits self.now event.now }
    {
        let task = event.task;
        match &event.action {
            Action::Do(own) => self.fits_own(task, &event.wants, own),
            Action::Fork { branches, .. } => self.tree.runs(task) && *branches < 4294967296,
            Action::Begin { .. } => can_begin(&self.tree, &self.locks, task),
            Action::Join => self.tree.can_join(task),
            Action::End(_) => self.tree.runs(task),
        }
    }

    /// Whether a task may do this by itself here.
    fn fits_own(&self, task: u32, wants: &Option<Items<Effect>>, own: &Own) -> bool
        ensures { IsTrue result ↔ OwnFits self.now task wants.now own.now }
    {
        match own {
            Own::Rest => wants_roots(wants),
            Own::Read { object, .. } => *object < self.heap.count(),
            Own::Write { object, .. } => *object < self.heap.count(),
            Own::Look { object } => can_look(&self.heap, *object),
            Own::NewObject { .. } | Own::NewArray { .. } | Own::Print(_) => true,
            Own::Enter(_) => can_enter(&self.locks, &self.waits, task),
            Own::Exit => self.locks.has_entry(task),
        }
    }
}

/// Whether what a task wants begins at the root.
fn wants_roots(wants: &Option<Items<Effect>>) -> bool
    ensures { IsTrue result ↔ AllRoot (wanted wants.now) }
{
    match wants {
        None => true,
        Some(effects) => all_root(effects.as_slice()),
    }
}

fn all_root(effects: &[Effect]) -> bool
    ensures { IsTrue result ↔ AllRoot effects.now }
{
    for effect in effects {
        let Head::Root = effect.rpl.head else {
            return false;
        };
    }
    true
}

/// Whether there is such an object, whose length is a number that a value holds.
fn can_look(heap: &Heap, object: u32) -> bool
    ensures { IsTrue result ↔ ((object < length heap.now.objects) × (length (values_of (object_at heap.now object)) < 2 ^ 31)) }
{
    object < heap.count() && heap.length(object) < 2147483648
}

/// Whether a task has rested in front of an entry, and nothing hinders it.
fn can_enter(locks: &Locks, waits: &Waits, task: u32) -> bool
    ensures { IsTrue result ↔ CanEnter locks.now task (get waits.now task) }
{
    match waits.get(task) {
        None => false,
        Some(effects) => may_enter(locks, task, effects.as_slice()),
    }
}

/// Whether a branch of a task can begin, with the next number.
fn can_begin(tree: &TaskTree, locks: &Locks, task: u32) -> bool
    ensures { IsTrue result ↔ (CanBegin tree.now.tasks task × (tree.now.begun < 4294967295) × IsOutside locks.now tree.now.begun) }
{
    tree.can_begin(task) && tree.begun() < 4294967295 && !locks.inside(tree.begun())
}
