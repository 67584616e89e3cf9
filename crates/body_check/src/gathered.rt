//! What is found of the statements of a block or of a branch, as it is after them.
ghost use Rattle.std.specs.Prelude.{◌≡◌, ◌||◌, ◌++◌, filter, map, not, true, false, IfOk, OnOk};
ghost use Rattle.lang_base.specs.Effects.{gathered};
ghost use Rattle.region_interfere.specs.Uses.{is_use_of};
ghost use Rattle.body_check.specs.Checking.{with_nd};
ghost use Rattle.body_check.specs.Gathering.{all_left, entered, handed_on, moved, of_view, taken_in, with_uses};

use crate::leaving::Leaving;
use body_exprs::Found;
use lang_base::{Effect, Items, NoMemory, PartUse, Plain};
use region_effects::EffectSet;
use region_interfere::as_effects;
use std::alloc::Global;

/// Adds what was found of a piece of the text, as it is after the piece.
pub fn take_in(out: &mut Found, inner: Found, leaving: Leaving) -> Result<(), NoMemory>
    ensures { OnOk result (out.new ≡ taken_in leaving out.old inner) }
{
    let Found {
        effects,
        uses,
        reaches_nd,
    } = inner;
    out.reaches_nd = out.reaches_nd || reaches_nd;
    add_left(&mut out.effects, effects, leaving)?;
    add_uses(&mut out.uses, uses)
}

/// An nd construct is reached, where this is one.
pub fn reach_nd(found: &mut Found, nd: bool)
    ensures { found.new ≡ with_nd nd found.old }
{
    found.reaches_nd = found.reaches_nd || nd;
}

/// The effects, and the uses of parts as effects.
pub fn all_effects(alloc: Global, found: &Found) -> Result<EffectSet, NoMemory>
    ensures { IfOk result (λ set. set ≡ with_uses found.now.effects found.now.uses) }
{
    with_uses(alloc, found.effects.copy(alloc)?, found.uses.as_slice())
}

/// The effects with which an atomic block is entered that does this: all marked, but for the uses of parts.
pub fn entered(alloc: Global, found: &Found) -> Result<Items<Effect>, NoMemory>
    ensures { IfOk result (λ effects. effects ≡ entered found.now) }
{
    let marked = found.effects.marked(alloc)?;
    with_uses(alloc, marked, found.uses.as_slice())?.into_items()
}

/// Makes effects of the uses of a part, or uses of the part that it is of.
pub fn hand_on_uses(
    alloc: Global,
    found: Found,
    view: u32,
    outer: Option<u32>,
) -> Result<Found, NoMemory>
    ensures { IfOk result (λ made. made ≡ handed_on view outer found) }
{
    let Found {
        effects,
        uses,
        reaches_nd,
    } = found;
    match outer {
        Some(outer) => Ok(Found {
            effects,
            uses: moved(alloc, uses.as_slice(), view, outer)?,
            reaches_nd,
        }),
        None => {
            let own = uses_of(alloc, uses.as_slice(), view, true)?;
            Ok(Found {
                effects: with_uses(alloc, effects, own.as_slice())?,
                uses: uses_of(alloc, uses.as_slice(), view, false)?,
                reaches_nd,
            })
        }
    }
}

/// The uses of the part, or those of other parts.
fn uses_of(
    alloc: Global,
    uses: &[PartUse],
    view: u32,
    own: bool,
) -> Result<Items<PartUse>, NoMemory>
    ensures own { own ≡ true → IfOk result (λ found. found ≡ filter (is_use_of view) uses.now) }
    ensures others { own ≡ false → IfOk result (λ found. found ≡ filter (λ u. not (is_use_of view u)) uses.now) }
{
    let mut found = Items::new(alloc);
    for part_use in uses {
        if (part_use.view == view) == own {
            found.push(part_use.copy(alloc)?)?;
        }
    }
    Ok(found)
}

/// All uses, where those of one part become uses of another.
fn moved(alloc: Global, uses: &[PartUse], view: u32, outer: u32) -> Result<Items<PartUse>, NoMemory>
    ensures { IfOk result (λ made. made ≡ map (moved view outer) uses.now) }
{
    let mut made = Items::new(alloc);
    for part_use in uses {
        let copied = part_use.copy(alloc)?;
        made.push(move_use(copied, view, outer))?;
    }
    Ok(made)
}

/// A use of the one part becomes one of the other.
fn move_use(part_use: PartUse, view: u32, outer: u32) -> PartUse
    ensures { result ≡ moved view outer part_use }
{
    if part_use.view == view {
        of_view(part_use, outer)
    } else {
        part_use
    }
}

/// Adds what is left of effects after a scope.
fn add_left(set: &mut EffectSet, effects: EffectSet, leaving: Leaving) -> Result<(), NoMemory>
    ensures { OnOk result (set.new ≡ gathered set.old (all_left leaving effects)) }
{
    if effects.is_empty() {
        return Ok(());
    }
    if set.is_empty() && leaving.keeps_all(effects.as_slice()) {
        return set.take_all(effects);
    }
    for e in effects.into_items()?.into_vec() {
        if let Some(e) = leaving.left_of(e) {
            set.add(e)?;
        }
    }
    Ok(())
}

fn add_uses(uses: &mut Items<PartUse>, more: Items<PartUse>) -> Result<(), NoMemory>
    ensures { OnOk result (uses.new ≡ uses.old ++ more) }
{
    for part_use in more.into_vec() {
        uses.push(part_use)?;
    }
    Ok(())
}

/// The same use, of another part.
fn of_view(part_use: PartUse, view: u32) -> PartUse
    ensures { result ≡ of_view view part_use }
{
    let PartUse { rpl, access, .. } = part_use;
    PartUse { view, rpl, access }
}

fn with_uses(alloc: Global, set: EffectSet, uses: &[PartUse]) -> Result<EffectSet, NoMemory>
    ensures { IfOk result (λ made. made ≡ with_uses set uses.now) }
{
    let mut set = set;
    set.take_all(as_effects(alloc, uses)?)?;
    Ok(set)
}
