ghost use Rattle.std.specs.Prelude.{◌≡◌, map, IfOk, Some};
ghost use Rattle.lang_meaning.specs.Counts.{assigned, number, how_many};
ghost use Rattle.code_instrs.specs.Machine.{joins, ends_branch, joins_site, copies_at, copies_of, branch_site, site_of, line_before};
ghost use Rattle.code_instrs.specs.Plain.{PlainCode, plain_code, plain_site, body_at};
ghost use Rattle.exec_frames.specs.Names.{plain_value};
ghost use Rattle.exec_task.specs.Steps.{Acts, Comes, JoinsFork, JoinsSpread, next_branch};
ghost use Rattle.exec_task.specs.Tasks.{plain_slot, plain_level};

use crate::action::{Action, Ending};
use crate::lines::line;
use crate::step::Step;
use crate::task::Level;
use code_instrs::{Code, Instr, Site, Title};
use exec_frames::{Stack, how_many, number, slot};
use lang_base::{Items, NoMemory, SlotValue, Value};
use std::alloc::Global;

/// The site of a fork or a spread.
fn branch_site(instr: Instr) -> Option<usize>
    ensures { result ≡ branch_site instr }
{
    match instr {
        Instr::Fork(site) | Instr::Spread(site) => Some(site),
        _ => None,
    }
}

/// The site of the fork or spread in front of a join.
pub fn site_before(code: &Code, body: usize, at: usize) -> Option<usize>
    ensures { result ≡ site_of (line_before (body_at (plain_code code.now) body).lines at) }
{
    if at == 0 {
        return None;
    }
    let Some(line) = line(code, body, at - 1) else {
        return None;
    };
    branch_site(line.0)
}

/// What a task does in front of a join with so many branches, of which so many are left.
#[tactic(auto, using(crate::proofs::Branching::next_one))]
fn next_branch(total: usize, left: usize) -> Action
    ensures { result ≡ next_branch total left }
{
    if left == 0 {
        return Action::Join;
    }
    Action::Begin {
        branch: total.saturating_sub(left),
    }
}

impl Level {
    /// The begin of a branch, or the join of all.
    pub fn join(&self, code: &Code) -> Step
        ensures { Acts (plain_code code.now) (λ names fs. joins (plain_code code.now) (site_of (line_before (body_at (plain_code code.now) self.now.body).lines self.now.at)) (plain_level self.now) fs) self.now result }
    {
        let Some(site) = site_before(code, self.body, self.at) else {
            return Step::Stuck;
        };
        let Some(site) = code.sites.get(site) else {
            return Step::Stuck;
        };
        self.join_at(site)
    }

    /// The same, by the site.
    fn join_at(&self, site: &Site) -> Step
        ensures { (C : PlainCode) → Acts C (λ names fs. joins_site (Some (plain_site site.now)) (plain_level self.now) fs) self.now result }
    {
        match site {
            Site::Fork { bodies, .. } => self.join_fork(bodies.len()),
            Site::Spread { .. } => self.join_spread(),
            Site::Block { .. } | Site::Call { .. } | Site::New { .. } | Site::Array { .. } => {
                Step::Stuck
            }
        }
    }

    /// After a fork of so many branches.
    #[tactic(auto, using(crate::proofs::Branching::fork_waits))]
    fn join_fork(&self, total: usize) -> Step
        ensures { JoinsFork total self.now result }
    {
        let Some(left) = self.stack.top() else {
            return Step::Stuck;
        };
        Step::Waits(next_branch(total, how_many(number(left))))
    }

    /// After a branch for each number.
    #[tactic(auto, using(crate::proofs::Branching::spread_waits))]
    fn join_spread(&self) -> Step
        ensures { JoinsSpread self.now result }
    {
        let Some((total, _, left)) = self.stack.top_three() else {
            return Step::Stuck;
        };
        Step::Waits(next_branch(how_many(number(total)), how_many(number(left))))
    }

    /// The end of a branch.
    pub fn end_branch(
        &self,
        alloc: Global,
        code: &Code,
        callers: &Stack<Level>,
    ) -> Result<Step, NoMemory>
        ensures { IfOk result (λ s. Comes (plain_code code.now) (ends_branch (plain_code code.now) (plain_level self.now) (map plain_level callers.now)) self.now callers.now s self.now callers.now) }
    {
        if callers.len() > 0 {
            return Ok(Step::Stuck);
        }
        let slots = copied_slots(code, self.body);
        Ok(Step::Ends(Ending::Assigned(assigned(alloc, slots, &self.frame.values)?)))
    }
}

/// The slots that the join copies back from a branch.
fn copied_slots(code: &Code, body: usize) -> &[u32]
    ensures { result.now ≡ copies_of (plain_code code.now) (body_at (plain_code code.now) body).title }
{
    let Some(body) = code.bodies.get(body) else {
        return &[];
    };
    let Title::Branch(site, number) = &body.title else {
        return &[];
    };
    let Some(site) = code.sites.get(*site) else {
        return &[];
    };
    copies_at(site, *number)
}

/// The slots that are copied back from a branch of a site.
#[tactic(auto, using(exec_frames::proofs::Lists::none_there))]
fn copies_at(site: &Site, number: usize) -> &[u32]
    ensures { result.now ≡ copies_at (Some (plain_site site.now)) number }
{
    let Site::Fork { copies, .. } = site else {
        return &[];
    };
    match copies.get(number) {
        Some(copied) => copied.slots.as_slice(),
        None => &[],
    }
}

/// The values of slots.
fn assigned(
    alloc: Global,
    slots: &[u32],
    values: &Items<Value>,
) -> Result<Items<SlotValue>, NoMemory>
    ensures { IfOk result (λ ls. map plain_slot ls ≡ assigned slots.now (map plain_value values.now)) }
{
    let mut assigned = Items::new(alloc);
    for at in slots {
        assigned.push(SlotValue {
            slot: *at,
            value: slot(values, *at as usize),
        })?;
    }
    Ok(assigned)
}
