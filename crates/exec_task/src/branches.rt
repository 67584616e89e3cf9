ghost use Rattle.std.specs.Prelude.{◌≡◌, ℕ, ◌<◌, ◌^◌, ◌-◌, pos, IfOk, Some, length, slice_get};
ghost use Rattle.std.specs.Int.{w32, int_wrapping_sub};
ghost use Rattle.code_instrs.specs.Fit.{site_at};
ghost use Rattle.code_instrs.specs.Machine.{site_of, line_before};
ghost use Rattle.code_instrs.specs.Plain.{plain_code, plain_site, body_at};
ghost use Rattle.lang_meaning.specs.Counts.{number, how_many};
ghost use Rattle.exec_frames.specs.Names.{plain_value};
ghost use Rattle.exec_task.specs.Branches.{starts_at, starts_of, spread_starts};
ghost use Rattle.exec_task.specs.Tasks.{state_of, plain_start, plain_level};

use crate::joins::site_before;
use crate::task::{Level, Standing, Start, Task};
use code_instrs::{Code, Site};
use exec_frames::{how_many, number, plus, set_slot};
use lang_base::{NoMemory, Value};
use std::alloc::Global;

impl Task {
    /// How many branches a task has that stands in front of their join: none, where it stands elsewhere.
    pub fn branches(&self, code: &Code) -> usize
        ensures { result ≡ length (starts_at (plain_code code.now) (state_of self.now)) }
    {
        match self.standing {
            Standing::At => self.level.branches(code),
            Standing::Rested | Standing::Ended(_) | Standing::Nowhere => 0,
        }
    }

    /// How a branch starts of a task that stands in front of its join.
    pub fn branch_start(&self, alloc: Global, code: &Code, branch: usize) -> Result<Start, NoMemory>
        requires { branch < length (starts_at (plain_code code.now) (state_of self.now)) }
        ensures { IfOk result (λ start. slice_get (starts_at (plain_code code.now) (state_of self.now)) branch ≡ Some (plain_start start)) }
    {
        match self.standing {
            Standing::At => self.level.start_at(alloc, code, branch),
            Standing::Rested | Standing::Ended(_) | Standing::Nowhere => unreachable!(),
        }
    }
}

impl Level {
    /// How many branches the task has, where it stands at an instruction.
    fn branches(&self, code: &Code) -> usize
        ensures { result ≡ length (starts_of (site_at (plain_code code.now) (site_of (line_before (body_at (plain_code code.now) self.now.body).lines self.now.at))) (plain_level self.now)) }
    {
        let Some(site) = site_before(code, self.body, self.at) else {
            return 0;
        };
        let Some(site) = code.sites.get(site) else {
            return 0;
        };
        self.branches_of(site)
    }

    /// The same, by the site.
    fn branches_of(&self, site: &Site) -> usize
        ensures { result ≡ length (starts_of (Some (plain_site site.now)) (plain_level self.now)) }
    {
        match site {
            Site::Fork { bodies, .. } => bodies.len(),
            Site::Spread { .. } => self.spread_branches(),
            Site::Block { .. } | Site::Call { .. } | Site::New { .. } | Site::Array { .. } => 0,
        }
    }

    /// How many branches there are, one for each number.
    fn spread_branches(&self) -> usize
        ensures { (body slot : ℕ) → result ≡ length (spread_starts body slot (plain_level self.now).frame (plain_level self.now).stack) }
    {
        match self.stack.top_three() {
            Some((total, next, left)) => how_many(number(total)),
            None => 0,
        }
    }

    /// How a branch starts, where the task stands at an instruction.
    fn start_at(&self, alloc: Global, code: &Code, branch: usize) -> Result<Start, NoMemory>
        requires { branch < length (starts_of (site_at (plain_code code.now) (site_of (line_before (body_at (plain_code code.now) self.now.body).lines self.now.at))) (plain_level self.now)) }
        ensures { IfOk result (λ start. slice_get (starts_of (site_at (plain_code code.now) (site_of (line_before (body_at (plain_code code.now) self.now.body).lines self.now.at))) (plain_level self.now)) branch ≡ Some (plain_start start)) }
    {
        let Some(site) = site_before(code, self.body, self.at) else {
            unreachable!()
        };
        let Some(site) = code.sites.get(site) else {
            unreachable!()
        };
        self.start_of(alloc, site, branch)
    }

    /// The same, by the site.
    fn start_of(&self, alloc: Global, site: &Site, branch: usize) -> Result<Start, NoMemory>
        requires { branch < length (starts_of (Some (plain_site site.now)) (plain_level self.now)) }
        ensures { IfOk result (λ start. slice_get (starts_of (Some (plain_site site.now)) (plain_level self.now)) branch ≡ Some (plain_start start)) }
    {
        match site {
            Site::Fork { bodies, .. } => Ok(Start {
                body: bodies.as_slice()[branch],
                frame: self.frame.deeper(alloc)?,
            }),
            Site::Spread { body, slot, .. } => self.spread_start(alloc, *body, *slot, branch),
            Site::Block { .. } | Site::Call { .. } | Site::New { .. } | Site::Array { .. } => {
                unreachable!()
            }
        }
    }

    /// How a branch starts that has a number.
    fn spread_start(
        &self,
        alloc: Global,
        body: usize,
        slot: usize,
        branch: usize,
    ) -> Result<Start, NoMemory>
        requires { branch < length (spread_starts body slot (plain_level self.now).frame (plain_level self.now).stack) }
        ensures { IfOk result (λ start. slice_get (spread_starts body slot (plain_level self.now).frame (plain_level self.now).stack) branch ≡ Some (plain_start start)) }
    {
        let Some((total, next, left)) = self.stack.top_three() else {
            unreachable!()
        };
        let first = first_number(total, next, left);
        let mut frame = self.frame.deeper(alloc)?;
        set_slot(&mut frame.values, slot, Value::Int(plus(first, branch)));
        Ok(Start { body, frame })
    }
}

/// The number of the first branch, where so many are left of all, and the next has this number.
fn first_number(total: Value, next: Value, left: Value) -> i32
    ensures few { how_many (number (plain_value total)) < 2 ^ 31 }
    ensures first { result ≡ int_wrapping_sub w32 (number (plain_value next)) (pos (how_many (number (plain_value total)) - how_many (number (plain_value left)))) }
{
    let begun = how_many(number(total)).saturating_sub(how_many(number(left)));
    number(next).wrapping_sub(begun as i32)
}
