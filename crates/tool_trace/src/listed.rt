ghost use Rattle.std.specs.Prelude.{◌≡◌, ◌<◌, ◌≤◌, ◌++◌, [], ℕ, List, min, replicate, IfOk, OnOk, MatchOption};
ghost use Rattle.tool_trace.specs.Listing.{Lists, Takes, IsLineOf};
ghost use Rattle.tool_trace.specs.Reading.{IsRunLine};

use crate::numbers::{GREATEST, number, value};
use crate::pieces::cut;
use lang_base::{Items, NoMemory};
use std::alloc::Global;

/// A schedule that is read run by run.
#[derive(Drop)]
pub struct Listed {
    /// How many events there are to be.
    pub events: u64,
    /// The schedule so far, unless it has more numbers than that.
    pub numbers: Items<u32>,
    pub last: Option<u32>,
    /// How many numbers the runs so far have.
    pub total: u64,
}

/// What a line says of a run.
#[derive(Clone, Copy)]
pub struct Reported {
    pub task: u32,
    pub many: u64,
}

impl Listed {
    /// No runs yet.
    pub fn new(alloc: Global, events: u64) -> Listed
        ensures lists { Lists result [] }
        ensures events { result.events ≡ events }
    {
        Listed {
            events,
            numbers: Items::new(alloc),
            last: None,
            total: 0,
        }
    }

    /// Goes on by a line, if it is that of a run that may come next; answers whether it does.
    pub fn take(&mut self, line: &[u8]) -> Result<bool, NoMemory>
        requires few { self.old.events ≤ 40000002 }
        requires total { self.old.total ≤ 1000000000000000 }
        ensures takes { IfOk result (λ fits. (schedule : List ℕ) → Lists self.old schedule → Takes fits line.now schedule self.new) }
        ensures events { OnOk result (self.new.events ≡ self.old.events) }
    {
        let Some(reported) = reported_by(line) else {
            return Ok(false);
        };
        if self.last == Some(reported.task) {
            return Ok(false);
        }
        self.add(reported)?;
        Ok(true)
    }

    fn add(&mut self, reported: Reported) -> Result<(), NoMemory>
        requires few { self.old.events ≤ 40000002 }
        requires total { self.old.total ≤ 1000000000000000 }
        requires many { reported.many ≤ 1000000000000000 }
        ensures adds { OnOk result ((schedule : List ℕ) (many : ℕ) → Lists self.old schedule → 0 < many → reported.many ≡ min many 1000000000000000
            → Lists self.new (schedule ++ replicate many reported.task)) }
        ensures events { OnOk result (self.new.events ≡ self.old.events) }
    {
        self.total = (self.total + reported.many).min(GREATEST);
        self.last = Some(reported.task);
        if self.total <= self.events {
            repeat(&mut self.numbers, reported.task, reported.many)?;
        }
        Ok(())
    }
}

fn repeat(numbers: &mut Items<u32>, task: u32, many: u64) -> Result<(), NoMemory>
    ensures { OnOk result (numbers.new ≡ numbers.old ++ replicate many task) }
{
    for _copy in 0..many {
        numbers.push(task)?;
    }
    Ok(())
}

/// What a line says of a run, if it has that form.
fn reported_by(line: &[u8]) -> Option<Reported>
    ensures { MatchOption result ((task : ℕ) (many : List ℕ) → IsRunLine line.now task many → ⊥) (IsLineOf line.now) }
{
    let (task, many) = cut(line, b' ')?;
    let task = number(task, 0, 4294967295)? as u32;
    let many = value(many)?;
    if many == 0 {
        return None;
    }
    Some(Reported { task, many })
}
