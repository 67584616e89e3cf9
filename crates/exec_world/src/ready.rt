ghost use Rattle.std.specs.Prelude.{◌≡◌, IsTrue, MatchOption, false};
ghost use Rattle.exec_locks.specs.Locks.{AllRoot, MayEnter};
ghost use Rattle.exec_world.specs.Ready.{IsFreeToEnter, IsReady, IsHindrance, IsHindered, ReadsAs};

use crate::world::World;
use exec_locks::Locks;
use lang_base::Effect;

/// Whether a task can make its next event.
#[derive(Clone, Copy, Debug, PartialEq, Eq)]
pub enum Readiness {
    Ready,
    /// It hasn't begun or has ended, or it waits for its branches.
    Unready,
    /// It stands in front of an entry, and the open block of another task hinders it.
    Hindered { by: u32 },
}

/// A task whose open block hinders this one in front of an entry with these effects: inside a block none does. A likely one is tried first.
fn hindrance(locks: &Locks, task: u32, effects: &[Effect], likely: Option<u32>) -> Option<u32>
    requires { AllRoot effects.now }
    ensures { MatchOption result (MayEnter locks.now task effects.now) (IsHindrance locks.now task effects.now) }
{
    if locks.inside(task) {
        return None;
    }
    match likely {
        Some(holder) if locks.hinders(task, effects, holder) => likely,
        _ => locks.conflicts(task, effects),
    }
}

/// Whether a task may enter with these effects: inside a block always, and else where no block of another task hinders it.
pub fn may_enter(locks: &Locks, task: u32, effects: &[Effect]) -> bool
    requires { AllRoot effects.now }
    ensures yes { IsTrue result → MayEnter locks.now task effects.now }
    ensures no { result ≡ false → MayEnter locks.now task effects.now → ⊥ }
{
    hindrance(locks, task, effects, None).is_none()
}

impl World {
    /// A task whose open block hinders this one, if it stands in front of an entry.
    fn hindered_by(&self, task: u32, likely: Option<u32>) -> Option<u32>
        ensures { MatchOption result (IsFreeToEnter self.now task) (IsHindered self.now task) }
    {
        let effects = self.waits.get(task)?;
        hindrance(&self.locks, task, effects.as_slice(), likely)
    }

    /// Whether a task can make its next event, or what it waits for: it has begun and not ended, it doesn't wait for its branches, and where it stands
    /// in front of an entry nothing hinders it. What hinders it is looked for at a likely holder first. It takes no memory.
    pub fn readiness(&self, task: u32, likely: Option<u32>) -> Readiness
        ensures { ReadsAs self.now task result }
    {
        if !self.tree.is_ready(task) {
            return Readiness::Unready;
        }
        match self.hindered_by(task, likely) {
            None => Readiness::Ready,
            Some(by) => Readiness::Hindered { by },
        }
    }

    /// Whether a task is ready. It takes no memory.
    pub fn is_ready(&self, task: u32) -> bool
        ensures yes { IsTrue result → IsReady self.now task }
        ensures no { result ≡ false → IsReady self.now task → ⊥ }
    {
        self.tree.is_ready(task) && self.hindered_by(task, None).is_none()
    }
}
