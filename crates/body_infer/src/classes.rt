ghost use Rattle.std.specs.Prelude.{◌≡◌, ◌+◌, ◌++◌, map, option_map, MatchOption, IfOk, OnOk};
ghost use Rattle.std.specs.Option.{option_copied};
ghost use Rattle.lang_base.specs.Regions.{substituted};
ghost use Rattle.lang_base.specs.Types.{plain_type};
ghost use Rattle.lang_typed.specs.Plain.{plain_program, plain_class, plain_member, plain_parent, PlainMember};
ghost use Rattle.lang_typed.specs.Scope.{class_at, member_at, row_at, constructor_of};
ghost use Rattle.lang_typed.specs.Table.{params_from};
ghost use Rattle.body_infer.specs.Doing.{seen_as};
ghost use Rattle.body_infer.specs.Walked.{class_parts, parent_below};
ghost use Rattle.body_infer.specs.Passes.{IsOverride, NoOverride};

use lang_base::{Elems, Head, Items, NoMemory, Plain, Rpl, Ty};
use lang_typed::{Class, ClassId, Member, MemberId, Parent, Program, Row};
use region_paths::subst;
use std::alloc::Global;

#[tactic(auto, using(crate::proofs::Reading::reading))]
pub fn class_at(program: &Program, class: u32) -> Option<&Class>
    ensures { option_map (plain_class program.now.classes) (option_copied result) ≡ class_at (plain_program program.now) class }
{
    program.classes.get(class as usize)
}

#[tactic(auto, using(crate::proofs::Reading::reading))]
pub fn member_at(program: &Program, member: MemberId) -> Option<&Member>
    ensures { option_map plain_member (option_copied result) ≡ member_at (plain_program program.now) member.number }
{
    program.members.get(member.number as usize)
}

/// The member in a row of a class.
#[tactic(auto, using(crate::proofs::Reading::reading))]
pub fn row_at(program: &Program, class: ClassId, row: Row) -> Option<MemberId>
    ensures { option_map (λ member. member.number) result ≡ row_at (plain_program program.now) class.number row.number }
{
    class_at(program, class.number)?
        .rows
        .get(row.number as usize)
        .copied()
}

pub fn constructor_of(program: &Program, class: u32) -> Option<MemberId>
    ensures { option_map (λ member. member.number) result ≡ constructor_of (plain_program program.now) class }
{
    class_at(program, class)?.constructor
}

/// The arguments of a class type.
pub fn args_of(ty: &Ty) -> Option<(u32, &Items<Rpl>)>
    ensures { option_map (λ parts. (parts.0, parts.1.now)) result ≡ class_parts (plain_type ty.now) }
{
    match ty {
        Ty::Class { class, args } => Some((*class, args)),
        _ => None,
    }
}

/// The arguments of a class, where one with these arguments is seen as that class at or above it.
#[tactic(auto, using(crate::proofs::Reading::seen))]
pub fn seen_as(
    alloc: Global,
    program: &Program,
    class: u32,
    args: Items<Rpl>,
    above: u32,
) -> Result<Items<Rpl>, NoMemory>
    ensures { IfOk result (λ seen. seen ≡ seen_as (plain_program program.now) class args above) }
{
    let mut at = class;
    let mut seen = args;
    for _step in 0..program.classes.len() {
        let Some(parent) = parent_below(program, at, above) else {
            break;
        };
        seen = all_subst(alloc, &parent.args, &seen)?;
        at = parent.class.number;
    }
    Ok(seen)
}

/// The superclass of a class that isn't that one yet.
fn parent_below(program: &Program, class: u32, above: u32) -> Option<&Parent>
    ensures { option_map plain_parent (option_copied result) ≡ parent_below (plain_program program.now) class above }
{
    if class == above {
        return None;
    }
    class_at(program, class)?.parent.as_ref()
}

fn all_subst(alloc: Global, paths: &Items<Rpl>, args: &Items<Rpl>) -> Result<Items<Rpl>, NoMemory>
    ensures { IfOk result (λ all. all ≡ map (substituted args.now) paths.now) }
{
    let mut all = Items::new(alloc);
    for path in paths.as_slice() {
        all.push(subst(alloc, path, args.as_slice())?)?;
    }
    Ok(all)
}

/// A member of a class that stands in the place of one of its superclass.
#[derive(Clone, Copy)]
pub struct Override<'a> {
    pub number: ClassId,
    pub class: &'a Class,
    pub over: MemberId,
    pub above: MemberId,
    pub member: &'a Member,
}

/// What the member in a row of a class overrides, if it does.
#[tactic(auto, using(crate::proofs::Reading::reading))]
pub fn override_in(program: &Program, number: usize, row: usize) -> Option<Override<'_>>
    ensures { MatchOption result (NoOverride (plain_program program.now) number row) (λ found. (over : PlainMember) × IsOverride (plain_program program.now) number row found.above.number found.over.number (plain_class program.now.classes found.class.now) (plain_member found.member.now) over × (found.number.number ≡ number)) }
{
    let class = program.classes.get(number)?;
    let parent = class.parent.as_ref()?;
    let above = *class_at(program, parent.class.number)?.rows.get(row)?;
    let member = member_at(program, above)?;
    let over = *class.rows.get(row)?;
    let own = member_at(program, over)?;
    if own.class.number as usize != number {
        return None;
    }
    Some(Override {
        number: own.class,
        class,
        over,
        above,
        member,
    })
}

/// Adds region parameters from one on, so many, each as a path.
pub fn params_from(
    alloc: Global,
    first: usize,
    count: usize,
    all: &mut Items<Rpl>,
) -> Result<(), NoMemory>
    ensures { OnOk result (all.new ≡ all.old ++ params_from first count) }
{
    for at in 0..count {
        all.push(Rpl {
            head: Head::Param(number_after(first, at)?),
            elems: Elems::new(alloc),
        })?;
    }
    Ok(())
}

/// The number so many after another. No memory holds a region parameter that has none.
fn number_after(first: usize, at: usize) -> Result<u32, NoMemory>
    ensures { IfOk result (λ number. number ≡ first + at) }
{
    let Some(number) = first.checked_add(at) else {
        return Err(NoMemory);
    };
    match u32::try_from(number) {
        Ok(number) => Ok(number),
        Err(_) => Err(NoMemory),
    }
}

/// Adds copies of some paths to others.
pub fn add_copies(alloc: Global, more: &Items<Rpl>, all: &mut Items<Rpl>) -> Result<(), NoMemory>
    ensures { OnOk result (all.new ≡ all.old ++ more.now) }
{
    for path in more.as_slice() {
        all.push(path.copy(alloc)?)?;
    }
    Ok(())
}
