ghost use Rattle.std.specs.Prelude.{◌≡◌, ◌↔◌, IsTrue, IfOk};

use crate::bytes::Bytes;
use crate::memory::NoMemory;
use crate::place::Place;
use crate::plain::Plain;
use crate::value::Trap;
use std::alloc::Global;

/// How much a run may cost. `steps` is 1 to 20000000 and `cells` 1 to 16777216.
#[derive(Clone, Copy, Debug, PartialEq, Eq)]
pub struct Limits {
    /// Steps of the run.
    pub steps: u64,
    /// Cells of the heap, printed bytes included.
    pub cells: u64,
}

/// How a run ended.
#[derive(Clone, Copy, Debug, PartialEq, Eq)]
pub enum Ending {
    /// `main` returned this value.
    Done(i32),
    /// A trap ended it, at a place of the text.
    Trapped(Trap, Place),
    /// It would have cost more than a limit allows.
    Limited,
}

/// What a run came to.
#[derive(Debug, Drop)]
pub struct Outcome {
    pub ending: Ending,
    /// What it printed, up to its ending; nothing where a limit was met.
    pub out: Bytes,
    /// The steps that it cost, or the limit where one was met.
    pub steps: u64,
    /// The cells that it cost, or the limit where one was met.
    pub cells: u64,
}

impl Plain for Outcome {
    fn copy(&self, alloc: Global) -> Result<Outcome, NoMemory> {
        Ok(Outcome {
            ending: self.ending,
            out: self.out.copy(alloc)?,
            steps: self.steps,
            cells: self.cells,
        })
    }

    fn same(&self, other: &Outcome) -> bool {
        self.ending == other.ending
            && self.out.same(&other.out)
            && self.steps == other.steps
            && self.cells == other.cells
    }
}
