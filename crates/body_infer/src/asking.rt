ghost use Rattle.std.specs.Prelude.{◌≡◌, false, map, IfOk};
ghost use Rattle.lang_base.specs.Regions.{substituted};
ghost use Rattle.lang_typed.specs.Plain.{plain_program, plain_class, plain_member, PlainClass};
ghost use Rattle.lang_typed.specs.Table.{body_scope};
ghost use Rattle.body_infer.specs.Kept.{program_kept};
ghost use Rattle.body_infer.specs.Doing.{effects_of_all};
ghost use Rattle.body_infer.specs.Walked.{all_done};
ghost use Rattle.body_infer.specs.Asked.{asked, more, all_kept};
ghost use Rattle.body_infer.specs.PostFixpoint.{seen_below};

use crate::classes::{member_at, params_from, seen_as};
use crate::kept::Kept;
use crate::own::Own;
use crate::scope::Scope;
use crate::stmts::block;
use crate::walk::{Keeping, Walk, summary_kept};
use lang_base::{Access, Effect, Items, NoMemory, Plain, Rpl};
use lang_typed::{Class, ClassId, Member, MemberId, Program};
use region_paths::{includes, subst};
use std::alloc::Global;

/// What the body of a member does, where all members do what is kept of their summaries.
pub fn done_by(walk: Walk<'_>, member: &Member) -> Result<Items<Own>, NoMemory>
    ensures { IfOk result (λ done. (k : PlainClass) → all_done done ≡ effects_of_all (program_kept walk.entry.kept.now (plain_program walk.entry.program.now)) (body_scope k (λ x. false) 0 (plain_member member.now)) (plain_member member.now).body) }
{
    // Nothing that is in scope at the beginning stands in an index or is a part.
    let mut scope = Scope::new(walk.alloc);
    let mut out = Items::new(walk.alloc);
    block(walk, &mut scope, member.body.as_slice(), &mut out)?;
    Ok(out)
}

/// How much of an item a demand asks for, where the item takes it: it has the place, and it isn't marked, or the demand is too.
pub fn asked(item: &Effect, place: &Rpl, demand: &Effect) -> Kept
    ensures { result ≡ asked item.now place.now demand.now }
{
    let takes = includes(place, &demand.rpl) && (!item.atomic || demand.atomic);
    match (takes, demand.access) {
        (false, _) => Kept::Nothing,
        (true, Access::Read) => Kept::Read,
        (true, Access::Write) => Kept::Whole,
    }
}

/// The more of two.
pub fn more(a: Kept, b: Kept) -> Kept
    ensures { result ≡ more a b }
{
    match (a, b) {
        (Kept::Whole, _) | (_, Kept::Whole) => Kept::Whole,
        (Kept::Read, _) | (_, Kept::Read) => Kept::Read,
        _ => Kept::Nothing,
    }
}

/// The places of the items of a member as a class right below sees them that overrides it.
#[tactic(auto, using(crate::proofs::Reading::counting))]
pub fn seen_items(
    alloc: Global,
    program: &Program,
    number: ClassId,
    class: &Class,
    member: &Member,
) -> Result<Items<Rpl>, NoMemory>
    ensures { IfOk result (λ places. places ≡ map (λ e. substituted (seen_below (plain_program program.now) number.number (plain_class program.now.classes class.now) (plain_member member.now)) e.rpl) member.now.summary) }
{
    let mut own = Items::new(alloc);
    params_from(alloc, 0, class.params.len(), &mut own)?;
    let mut seen = seen_as(alloc, program, number.number, own, member.class.number)?;
    params_from(alloc, class.params.len(), member.params.len(), &mut seen)?;
    let mut places = Items::new(alloc);
    for item in member.summary.as_slice() {
        places.push(subst(alloc, &item.rpl, seen.as_slice())?)?;
    }
    Ok(places)
}

/// What is kept of the summary of a member.
pub fn kept_of(
    alloc: Global,
    program: &Program,
    kept: &Keeping,
    number: MemberId,
) -> Result<Items<Effect>, NoMemory>
    ensures { IfOk result (λ all. all ≡ all_kept kept.now (plain_program program.now) number.number) }
{
    let (Some(member), Some(kept)) = (member_at(program, number), kept.get(number.number as usize))
    else {
        return Ok(Items::new(alloc));
    };
    summary_kept(alloc, kept, &member.summary)
}
