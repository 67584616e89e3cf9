ghost use Rattle.std.specs.Prelude.{OnOk};
ghost use Rattle.lang_typed.specs.Plain.{plain_program};
ghost use Rattle.body_infer.specs.Passes.{Climbs};

use crate::callers::{Links, Standing, linked};
use crate::inferring::{ask_body, ask_row};
use crate::walk::Keeping;
use lang_base::{Items, NoMemory};
use lang_typed::Program;
use std::alloc::Global;

/// Asks each member once, and again where one has risen that its body calls or that overrides it. A pass over all members says
/// whether no more is asked for: only how long that takes rests on who is asked here.
#[tactic(auto, using(crate::proofs::Passing::climbs_none))]
pub fn settle(alloc: Global, program: &Program, kept: &mut Keeping) -> Result<(), NoMemory>
    ensures { OnOk result (Climbs (plain_program program.now) kept.old kept.new) }
{
    let links = linked(alloc, program)?;
    let mut marks = Items::from_vec(vec![in alloc; 0; program.members.len()]?);
    let mut bodies = numbers(alloc, program.members.len())?;
    let mut risen = Items::new(alloc);
    // Each round but the last raises an item, and each item rises at most twice.
    for round in 0..most_rounds(program) {
        let mut next = Items::new(alloc);
        ask_bodies(alloc, program, bodies.as_slice(), kept, &mut next)?;
        ask_rows(alloc, program, &links, risen.as_slice(), kept, &mut next)?;
        if next.is_empty() {
            return Ok(());
        }
        bodies = callers_of(alloc, &links, next.as_slice(), round, &mut marks)?;
        risen = next;
    }
    Ok(())
}

fn numbers(alloc: Global, count: usize) -> Result<Items<usize>, NoMemory> {
    let mut all = Items::new(alloc);
    for number in 0..count {
        all.push(number)?;
    }
    Ok(all)
}

fn most_rounds(program: &Program) -> usize {
    let mut items = 0usize;
    for member in program.members.as_slice() {
        items = items.saturating_add(member.summary.len());
    }
    items.saturating_mul(2).saturating_add(1)
}

/// The members whose bodies call one of these, each once: a member is marked by the number of the round after this one.
fn callers_of(
    alloc: Global,
    links: &Links,
    risen: &[usize],
    round: usize,
    marks: &mut Items<usize>,
) -> Result<Items<usize>, NoMemory> {
    let mut all = Items::new(alloc);
    for member in risen {
        add_callers(links.callers(*member), round, marks, &mut all)?;
    }
    Ok(all)
}

fn add_callers(
    callers: &[usize],
    round: usize,
    marks: &mut Items<usize>,
    all: &mut Items<usize>,
) -> Result<(), NoMemory> {
    for caller in callers {
        let Some(mark) = marks.get(*caller) else {
            continue;
        };
        if *mark <= round {
            marks.set(*caller, round.saturating_add(1));
            all.push(*caller)?;
        }
    }
    Ok(())
}

/// Raises what the bodies of these members ask for, and tells which rose.
#[tactic(auto, using(crate::proofs::Passing::climbs_none))]
fn ask_bodies(
    alloc: Global,
    program: &Program,
    members: &[usize],
    kept: &mut Keeping,
    risen: &mut Items<usize>,
) -> Result<(), NoMemory>
    ensures { OnOk result (Climbs (plain_program program.now) kept.old kept.new) }
{
    for member in members {
        if ask_body(alloc, program, *member, kept)? {
            risen.push(*member)?;
        }
    }
    Ok(())
}

/// Raises what members ask for that override others, and tells which of those rose.
#[tactic(auto, using(crate::proofs::Passing::climbs_none))]
fn ask_rows(
    alloc: Global,
    program: &Program,
    links: &Links,
    members: &[usize],
    kept: &mut Keeping,
    risen: &mut Items<usize>,
) -> Result<(), NoMemory>
    ensures { OnOk result (Climbs (plain_program program.now) kept.old kept.new) }
{
    for member in members {
        ask_member(alloc, program, links.rows(*member), kept, risen)?;
    }
    Ok(())
}

#[tactic(auto, using(crate::proofs::Passing::climbs_none))]
fn ask_member(
    alloc: Global,
    program: &Program,
    rows: &[Standing],
    kept: &mut Keeping,
    risen: &mut Items<usize>,
) -> Result<(), NoMemory>
    ensures { OnOk result (Climbs (plain_program program.now) kept.old kept.new) }
{
    for standing in rows {
        if ask_row(alloc, program, standing.class, standing.row, kept)? {
            risen.push(standing.above)?;
        }
    }
    Ok(())
}
