ghost use Rattle.std.specs.Prelude.{◌≡◌, ◌↔◌, IsTrue, IfOk};

use crate::items::Items;
use crate::memory::NoMemory;
use crate::plain::Plain;
use std::alloc::Global;

/// One step from a task to a task that it began.
#[derive(Clone, Copy, Debug, PartialEq, Eq)]
pub struct PathStep {
    /// Which of the task's forks, from 0.
    pub scope: u32,
    /// Which branch of that fork, from 0.
    pub branch: u32,
}

/// The name of a task: the steps from the root, whose own path is empty.
#[derive(Debug, Drop)]
pub struct Path {
    pub steps: Items<PathStep>,
}

impl Plain for PathStep {
    fn copy(&self, _alloc: Global) -> Result<PathStep, NoMemory> {
        Ok(*self)
    }

    fn same(&self, other: &PathStep) -> bool {
        *self == *other
    }
}

impl Plain for Path {
    fn copy(&self, alloc: Global) -> Result<Path, NoMemory> {
        Ok(Path {
            steps: self.steps.copy(alloc)?,
        })
    }

    fn same(&self, other: &Path) -> bool {
        self.steps.same(&other.steps)
    }
}
