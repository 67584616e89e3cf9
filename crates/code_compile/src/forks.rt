ghost use Rattle.std.specs.Prelude.{◌≡◌, OnOk, IfOk, map};
ghost use Rattle.lang_typed.specs.Plain.{plain_stmt, branches_of};
ghost use Rattle.code_scheme.specs.Scheme.{spread_piece, numbers, copy_lists};
ghost use Rattle.code_compile.specs.Emitted.{emitted_of, Emits};
ghost use Rattle.code_compile.specs.Walked.{plain_branch, fork_piece, queued_piece};

use crate::emitter::Emitter;
use crate::line::Sited;
use code_instrs::{BranchCopies, Instr, Site};
use lang_base::{Items, NoMemory, Place};
use lang_typed::{Branch, Forking, Slot, Stmt};
use std::alloc::Global;

/// `cobegin`: a body for each branch, and what the join copies back from it.
pub fn forked<'p>(
    alloc: Global,
    out: &mut Emitter<'p>,
    place: Place,
    forking: Forking,
    branches: &'p Items<Branch>,
) -> Result<(), NoMemory>
    ensures { OnOk result (Emits (emitted_of out.old) (λ k p. fork_piece k place forking (branches_of (map plain_branch branches.now))) (emitted_of out.new)) }
{
    let first = out.next_body()?;
    let bodies = numbers(alloc, first, branches)?;
    let copies = copies(alloc, branches)?;
    queue(out, branches)?;
    let site = Site::Fork {
        forking,
        bodies,
        copies,
    };
    out.sited(place, Sited::Fork, site)?;
    out.line(place, Instr::Join)
}

/// `foreach`: one body for all iterations, with the slot of their number.
pub fn spread<'p>(
    out: &mut Emitter<'p>,
    place: Place,
    forking: Forking,
    slot: usize,
    takes: Option<usize>,
    body: &'p Stmt,
) -> Result<(), NoMemory>
    ensures { OnOk result (Emits (emitted_of out.old) (λ k p. spread_piece k place forking slot takes (plain_stmt body.now)) (emitted_of out.new)) }
{
    let number = out.next_body()?;
    out.branch(0, takes, body)?;
    let site = Site::Spread {
        forking,
        body: number,
        slot,
    };
    out.sited(place, Sited::Spread, site)?;
    out.line(place, Instr::Join)
}

/// The bodies of branches have the numbers from `first` on.
fn numbers(alloc: Global, first: usize, branches: &Items<Branch>) -> Result<Items<usize>, NoMemory>
    ensures { IfOk result (λ made. made ≡ numbers first (branches_of (map plain_branch branches.now))) }
{
    let mut made = Items::new(alloc);
    let mut next = first;
    for _branch in branches.as_slice() {
        made.push(next)?;
        // More bodies than numbers have no room in memory.
        next = next.checked_add(1).ok_or(NoMemory)?;
    }
    Ok(made)
}

/// The slots that are copied back from each branch.
fn copies(alloc: Global, branches: &Items<Branch>) -> Result<Items<BranchCopies>, NoMemory>
    ensures { IfOk result (λ made. map (λ c. c.slots) made ≡ copy_lists (branches_of (map plain_branch branches.now))) }
{
    let mut made = Items::new(alloc);
    for branch in branches.as_slice() {
        let slots = slots(alloc, &branch.copies)?;
        made.push(BranchCopies { slots })?;
    }
    Ok(made)
}

fn slots(alloc: Global, copies: &Items<Slot>) -> Result<Items<u32>, NoMemory>
    ensures { IfOk result (λ made. made ≡ map (λ slot. slot.number) copies.now) }
{
    let mut made = Items::new(alloc);
    for slot in copies.as_slice() {
        made.push(slot.number)?;
    }
    Ok(made)
}

/// The branches wait for their bodies, in their order.
fn queue<'p>(out: &mut Emitter<'p>, branches: &'p Items<Branch>) -> Result<(), NoMemory>
    ensures { OnOk result (Emits (emitted_of out.old) (λ k p. queued_piece k.site 0 (branches_of (map plain_branch branches.now))) (emitted_of out.new)) }
{
    for (number, branch) in branches.as_slice().iter().enumerate() {
        out.branch(number, None, &branch.body)?;
    }
    Ok(())
}
