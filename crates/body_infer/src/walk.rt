ghost use Rattle.std.specs.Prelude.{◌≡◌, ◌++◌, IfOk, OnOk};
ghost use Rattle.lang_base.specs.Types.{plain_type};
ghost use Rattle.lang_typed.specs.Plain.{plain_program};
ghost use Rattle.lang_typed.specs.Scope.{member_at, row_at, constructor_of};
ghost use Rattle.lang_typed.specs.Effects.{summary_with};
ghost use Rattle.body_infer.specs.Kept.{item_kept, summary_kept, program_kept};
ghost use Rattle.body_infer.specs.Doing.{member_in, of_callee, of_constructor, constructed};
ghost use Rattle.body_infer.specs.Walked.{all_done, at_most_one, summary_in};

use crate::classes::{add_copies, args_of, constructor_of, member_at, row_at, seen_as};
use crate::kept::Kept;
use crate::own::{Own, does};
use lang_base::{Access, Effect, Items, NoMemory, Plain, Rpl, Ty};
use lang_typed::{ClassId, Member, MemberId, Program, Row};
use region_paths::subst;
use std::alloc::Global;

/// What is kept of the items of each member, by number.
pub type Keeping = Items<Items<Kept>>;

/// A program, and what is kept of its summaries.
#[derive(Clone, Copy)]
pub struct Walk<'a> {
    pub alloc: Global,
    pub program: &'a Program,
    pub kept: &'a Keeping,
}

/// What is kept of an item, as an effect.
pub fn item_kept(alloc: Global, kept: Kept, item: &Effect) -> Result<Option<Effect>, NoMemory>
    ensures { IfOk result (λ made. at_most_one made ≡ item_kept kept item.now) }
{
    let access = match kept {
        Kept::Nothing => return Ok(None),
        Kept::Read => Access::Read,
        Kept::Whole => item.access,
    };
    Ok(Some(Effect {
        access,
        atomic: item.atomic,
        rpl: item.rpl.copy(alloc)?,
    }))
}

/// The summary that is left of these items.
pub fn summary_kept(
    alloc: Global,
    kept: &Items<Kept>,
    items: &Items<Effect>,
) -> Result<Items<Effect>, NoMemory>
    ensures { IfOk result (λ all. all ≡ summary_kept kept.now items.now) }
{
    let mut all = Items::new(alloc);
    for (item, kept) in items.as_slice().iter().zip(kept.as_slice()) {
        if let Some(effect) = item_kept(alloc, *kept, item)? {
            all.push(effect)?;
        }
    }
    Ok(all)
}

/// Adds what a call of the member in a row does, by what is kept of its summary.
#[tactic(auto, using(crate::proofs::Reading::joined))]
pub fn add_call(
    walk: Walk<'_>,
    of: &Ty,
    class: ClassId,
    row: Row,
    regions: &Items<Rpl>,
    out: &mut Items<Own>,
) -> Result<(), NoMemory>
    ensures { let P = program_kept walk.entry.kept.now (plain_program walk.entry.program.now) in OnOk result (all_done out.new ≡ all_done out.old ++ of_callee P (plain_type of.now) (member_in P (row_at P class.number row.number)) regions.now) }
{
    let Some(number) = row_at(walk.program, class, row) else {
        return Ok(());
    };
    let Some(member) = member_at(walk.program, number) else {
        return Ok(());
    };
    let Some((static_class, args)) = args_of(of) else {
        return Ok(());
    };
    let mut all = seen_as(
        walk.alloc,
        walk.program,
        static_class,
        args.copy(walk.alloc)?,
        member.class.number,
    )?;
    add_copies(walk.alloc, regions, &mut all)?;
    add_summary(walk, number, member, all.as_slice(), out)
}

/// Adds what the constructor of a created object does.
#[tactic(auto, using(crate::proofs::Reading::joined))]
pub fn add_construction(walk: Walk<'_>, ty: &Ty, out: &mut Items<Own>) -> Result<(), NoMemory>
    ensures { let P = program_kept walk.entry.kept.now (plain_program walk.entry.program.now) in OnOk result (all_done out.new ≡ all_done out.old ++ of_constructor (plain_type ty.now) (constructed P (plain_type ty.now))) }
{
    let Some((class, args)) = args_of(ty) else {
        return Ok(());
    };
    let Some(number) = constructor_of(walk.program, class) else {
        return Ok(());
    };
    let Some(member) = member_at(walk.program, number) else {
        return Ok(());
    };
    add_summary(walk, number, member, args.as_slice(), out)
}

/// Adds what is kept of a summary, with arguments put in.
fn add_summary(
    walk: Walk<'_>,
    number: MemberId,
    member: &Member,
    args: &[Rpl],
    out: &mut Items<Own>,
) -> Result<(), NoMemory>
    ensures { OnOk result (all_done out.new ≡ all_done out.old ++ summary_in walk.entry.kept.now number.number member.now.summary args.now) }
{
    let Some(kept) = walk.kept.get(number.number as usize) else {
        return Ok(());
    };
    for (item, kept) in member.summary.as_slice().iter().zip(kept.as_slice()) {
        add_item(walk.alloc, *kept, item, args, out)?;
    }
    Ok(())
}

#[tactic(auto, using(crate::proofs::Reading::joined))]
fn add_item(
    alloc: Global,
    kept: Kept,
    item: &Effect,
    args: &[Rpl],
    out: &mut Items<Own>,
) -> Result<(), NoMemory>
    ensures { OnOk result (all_done out.new ≡ all_done out.old ++ summary_with args.now (item_kept kept item.now)) }
{
    if let Some(effect) = item_kept(alloc, kept, item)? {
        let mut own = does(effect.access, subst(alloc, &effect.rpl, args)?);
        own.effect.atomic = effect.atomic;
        out.push(own)?;
    }
    Ok(())
}
