ghost use Rattle.std.specs.Prelude.{◌≡◌, Option};
ghost use Rattle.exec_tasks.specs.Join.{closed_as};

use crate::end::TaskEnd;
use crate::kept::Kept;
use lang_base::{Bytes, Items, Place, SlotValue, Trap};
use std::alloc::Global;
use std::marker::Model;

/// How a branch ended, in memory of its own; or in none, where nothing is left of it. A contract sees the end.
#[derive(Debug, Drop)]
pub struct Closed {
    end: Option<Kept<TaskEnd>>,
}

impl Model for Closed {
    ghost use Rattle.std.specs.Prelude.{◌≡◌};
    ghost use Rattle.exec_tasks.specs.Join.{end_in};
    ghost use Rattle.exec_tasks.specs.contracts.end.TaskEnd as task_end;
    ghost use Rattle.exec_tasks.specs.declared.end.TaskEnd.{TaskEnd};

    ghost Value = { TaskEnd };

    ghost coded = { task_end.the_row.coded };

    ghost view = { λ closed. end_in closed.end };
}

impl Closed {
    /// The end for which there is this room, with what was printed; none for one of which nothing is left.
    pub fn new(room: Option<Kept<TaskEnd>>, out: Bytes) -> Closed
        ensures { result ≡ closed_as room out }
    {
        match room {
            None => Closed { end: None },
            Some(end) => Closed {
                end: Some(with_output(end, out)),
            },
        }
    }

    /// What it printed, with the output of what it joined.
    pub fn out(&self) -> &[u8]
        ensures { result.now ≡ self.now.out }
    {
        match &self.end {
            None => &[],
            Some(end) => end.get().out.as_slice(),
        }
    }

    /// The trap that ended it, and where in the text.
    pub fn trap(&self) -> Option<(Trap, Place)>
        ensures { result ≡ self.now.trap }
    {
        match &self.end {
            None => None,
            Some(end) => end.get().trap,
        }
    }

    /// The slots that it assigned and that a join copies back.
    pub fn slots(&self) -> &[SlotValue]
        ensures { result.now ≡ self.now.slots }
    {
        match &self.end {
            None => &[],
            Some(end) => end.get().slots.as_slice(),
        }
    }

    /// The end, out of its memory.
    pub fn into_end(self, alloc: Global) -> TaskEnd
        ensures { result ≡ self }
    {
        let Closed { end } = self;
        match end {
            None => TaskEnd {
                out: Bytes::new(alloc),
                trap: None,
                slots: Items::new(alloc),
            },
            Some(end) => end.into_inner(),
        }
    }
}

/// An end with this output.
fn with_output(end: Kept<TaskEnd>, out: Bytes) -> Kept<TaskEnd>
    ensures { result ≡ record { out = out; trap = end.trap; slots = end.slots } }
{
    let mut end = end;
    end.get_mut().out = out;
    end
}
