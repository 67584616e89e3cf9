ghost use Rattle.std.specs.Prelude.{◌≡◌, ◌≢◌, ℕ, true, false, map, slice_get, IfOk, OnOk};
ghost use Rattle.lang_typed.specs.Plain.{plain_program};
ghost use Rattle.lang_typed.specs.Effects.{as_effects};
ghost use Rattle.body_infer.specs.Kept.{SaysOfEach};
ghost use Rattle.body_infer.specs.Walked.{all_done};
ghost use Rattle.body_infer.specs.PostFixpoint.{IsPostFixpoint, IsInferred};
ghost use Rattle.body_infer.specs.Asked.{nothing_of, nothing_kept, raised, raised_here, raised_from, raised_in};
ghost use Rattle.body_infer.specs.Covered.{BodiesCovered, OverridesCovered};
ghost use Rattle.body_infer.specs.Passes.{MeetsBody, MeetsRow, Rises};

use crate::asking::{asked, done_by, kept_of, more, seen_items};
use crate::classes::{class_at, override_in};
use crate::kept::Kept;
use crate::own::Own;
use crate::settling::settle;
use crate::walk::{Keeping, Walk};
use lang_base::{Effect, Items, NoMemory, Plain, Rpl};
use lang_typed::{Member, Program};
use std::alloc::Global;

/// What of the summaries of a program its bodies need: of each member, by number, how much is kept of each written item.
pub fn infer(alloc: Global, program: &Program) -> Result<Keeping, NoMemory>
    ensures says { IfOk result (SaysOfEach (plain_program program.now)) }
    ensures inferred { IfOk result (IsInferred (plain_program program.now)) }
    ensures bodies { IfOk result (BodiesCovered (plain_program program.now)) }
    ensures overrides { IfOk result (OverridesCovered (plain_program program.now)) }
{
    let mut kept = nothing_kept(alloc, program)?;
    settle(alloc, program, &mut kept)?;
    while pass(alloc, program, &mut kept)? {}
    Ok(kept)
}

#[tactic(auto, using(crate::proofs::Same::nothing_of_all))]
fn nothing_kept(alloc: Global, program: &Program) -> Result<Keeping, NoMemory>
    ensures { IfOk result (λ all. all ≡ nothing_kept (plain_program program.now)) }
{
    let mut all = Items::new(alloc);
    for member in program.members.as_slice() {
        all.push(nothing_of(alloc, member)?)?;
    }
    Ok(all)
}

#[tactic(auto, using(crate::proofs::Same::nothing_of_each))]
fn nothing_of(alloc: Global, member: &Member) -> Result<Items<Kept>, NoMemory>
    ensures { IfOk result (λ kept. kept ≡ nothing_of member.now.summary) }
{
    let kept = vec![in alloc; Kept::Nothing; member.summary.len()]?;
    Ok(Items::from_vec(kept))
}

/// Asks each member once; whether an item rose.
fn pass(alloc: Global, program: &Program, kept: &mut Keeping) -> Result<bool, NoMemory>
    ensures rises { IfOk result (Rises (plain_program program.now) kept.old kept.new) }
    ensures post_fixpoint { IfOk result (λ risen. risen ≡ false → IsPostFixpoint (plain_program program.now) kept.new) }
{
    let by_bodies = ask_bodies(alloc, program, kept)?;
    let by_overriding = ask_classes(alloc, program, kept)?;
    Ok(by_bodies || by_overriding)
}

fn ask_bodies(alloc: Global, program: &Program, kept: &mut Keeping) -> Result<bool, NoMemory>
    ensures rises { IfOk result (Rises (plain_program program.now) kept.old kept.new) }
    ensures met { IfOk result (λ risen. risen ≡ false → (n : ℕ) → MeetsBody (plain_program program.now) kept.new n) }
{
    let mut has_risen = false;
    for number in 0..program.members.len() {
        let risen = ask_body(alloc, program, number, kept)?;
        has_risen = has_risen || risen;
    }
    Ok(has_risen)
}

fn ask_classes(alloc: Global, program: &Program, kept: &mut Keeping) -> Result<bool, NoMemory>
    ensures rises { IfOk result (Rises (plain_program program.now) kept.old kept.new) }
    ensures met { IfOk result (λ risen. risen ≡ false → (c r : ℕ) → MeetsRow (plain_program program.now) kept.new c r) }
{
    let mut has_risen = false;
    for number in 0..program.classes.len() {
        let risen = ask_class(alloc, program, number, kept)?;
        has_risen = has_risen || risen;
    }
    Ok(has_risen)
}

/// Raises the items of a member that its body asks for more of.
#[tactic(auto, using(crate::proofs::Passing::rises_none))]
pub fn ask_body(
    alloc: Global,
    program: &Program,
    number: usize,
    kept: &mut Keeping,
) -> Result<bool, NoMemory>
    ensures rises { IfOk result (Rises (plain_program program.now) kept.old kept.new) }
    ensures met { IfOk result (λ risen. risen ≡ false → MeetsBody (plain_program program.now) kept.new number) }
{
    let Some(member) = program.members.get(number) else {
        return Ok(false);
    };
    let Some(_) = class_at(program, member.class.number) else {
        return Ok(false);
    };
    let walk = Walk {
        alloc,
        program,
        kept,
    };
    let demands = effects_in(alloc, done_by(walk, member)?)?;
    let places = places_of(alloc, member)?;
    raise(alloc, number, member, &places, &demands, kept)
}

/// The places of the items of a member.
fn places_of(alloc: Global, member: &Member) -> Result<Items<Rpl>, NoMemory>
    ensures { IfOk result (λ places. places ≡ map (λ e. e.rpl) member.now.summary) }
{
    let mut places = Items::new(alloc);
    for item in member.summary.as_slice() {
        places.push(item.rpl.copy(alloc)?)?;
    }
    Ok(places)
}

#[tactic(auto, using(crate::proofs::Raising::effects))]
fn effects_in(alloc: Global, done: Items<Own>) -> Result<Items<Effect>, NoMemory>
    ensures { IfOk result (λ effects. effects ≡ as_effects (all_done done)) }
{
    let mut effects = Items::new(alloc);
    for own in done.into_vec() {
        effects.push(own.effect)?;
    }
    Ok(effects)
}

/// Raises the items of the members that the members of a class override.
#[tactic(auto, using(crate::proofs::Passing::rises_none))]
fn ask_class(
    alloc: Global,
    program: &Program,
    number: usize,
    kept: &mut Keeping,
) -> Result<bool, NoMemory>
    ensures rises { IfOk result (Rises (plain_program program.now) kept.old kept.new) }
    ensures met { IfOk result (λ risen. risen ≡ false → (r : ℕ) → MeetsRow (plain_program program.now) kept.new number r) }
{
    let Some(class) = program.classes.get(number) else {
        return Ok(false);
    };
    let mut has_risen = false;
    for row in 0..class.rows.len() {
        let risen = ask_row(alloc, program, number, row, kept)?;
        has_risen = has_risen || risen;
    }
    Ok(has_risen)
}

/// Raises the items of the member that the one in a row of a class overrides, if it does.
#[tactic(auto, using(crate::proofs::Passing::rises_none))]
pub fn ask_row(
    alloc: Global,
    program: &Program,
    number: usize,
    row: usize,
    kept: &mut Keeping,
) -> Result<bool, NoMemory>
    ensures rises { IfOk result (Rises (plain_program program.now) kept.old kept.new) }
    ensures met { IfOk result (λ risen. risen ≡ false → MeetsRow (plain_program program.now) kept.new number row) }
{
    let Some(found) = override_in(program, number, row) else {
        return Ok(false);
    };
    let places = seen_items(alloc, program, found.number, found.class, found.member)?;
    let demands = kept_of(alloc, program, kept, found.over)?;
    let above = found.above.number as usize;
    raise(alloc, above, found.member, &places, &demands, kept)
}

/// Raises the items of a member to what is asked, as far as they are written, where they lie in these places; whether one rose.
#[tactic(auto, using(crate::proofs::Raising::set_same))]
fn raise(
    alloc: Global,
    number: usize,
    member: &Member,
    places: &Items<Rpl>,
    demands: &Items<Effect>,
    kept: &mut Keeping,
) -> Result<bool, NoMemory>
    ensures raised { OnOk result (kept.new ≡ raised_in kept.old number member.now.summary places.now demands.now) }
    ensures still { IfOk result (λ risen. risen ≡ false → kept.new ≡ kept.old) }
    ensures moved { IfOk result (λ risen. risen ≡ true → kept.new ≢ kept.old) }
{
    let Some(old) = kept.get(number) else {
        return Ok(false);
    };
    let new = raised_items(alloc, member, places, demands.as_slice(), old)?;
    if new.same(old) {
        return Ok(false);
    }
    kept.set(number, new);
    Ok(true)
}

/// How much is kept of the items of a member after these demands.
fn raised_items(
    alloc: Global,
    member: &Member,
    places: &Items<Rpl>,
    demands: &[Effect],
    old: &Items<Kept>,
) -> Result<Items<Kept>, NoMemory>
    ensures { IfOk result (λ new. new ≡ raised_from 0 member.now.summary places.now demands.now old.now) }
{
    let mut new = Items::new(alloc);
    for (position, old) in old.as_slice().iter().enumerate() {
        new.push(raised_at(member, places, position, demands, *old))?;
    }
    Ok(new)
}

/// How much of an item is kept after these demands.
fn raised_at(
    member: &Member,
    places: &Items<Rpl>,
    position: usize,
    demands: &[Effect],
    old: Kept,
) -> Kept
    ensures { result ≡ raised_here (slice_get member.now.summary position) (slice_get places.now position) demands.now old }
{
    let Some(item) = member.summary.get(position) else {
        return old;
    };
    let Some(place) = places.get(position) else {
        return old;
    };
    raised(item, place, demands, old)
}

fn raised(item: &Effect, place: &Rpl, demands: &[Effect], old: Kept) -> Kept
    ensures { result ≡ raised item.now place.now demands.now old }
{
    let mut risen = old;
    for demand in demands {
        risen = more(risen, asked(item, place, demand));
    }
    risen
}
