ghost use Rattle.std.specs.Prelude.{◌≡◌, [], map, not, IfOk, None};
ghost use Rattle.lang_base.specs.Branches.{lists_clash};
ghost use Rattle.lang_base.specs.Effects.{gathered};
ghost use Rattle.region_interfere.specs.Uses.{use_effect, with_uses_of, with_other_uses, parts_interfere};

use crate::{first_meeting, iterations_clash};
use lang_base::{Constraint, Effect, NoMemory, PartUse, Plain};
use region_effects::EffectSet;
use std::alloc::Global;

/// Whether no branch of a `foreach_parts` interferes with another: the body's effects, the uses of other parts
/// among them, meet neither those of another branch nor the uses of the part `view`. `var` is the slot of the
/// construct's variable, and the constraints `given` hold.
pub fn check_parts(
    alloc: Global,
    body: &EffectSet,
    uses: &[PartUse],
    view: u32,
    var: u32,
    given: &[Constraint],
) -> Result<bool, NoMemory>
    ensures { IfOk result (λ passed. passed ≡ not (parts_interfere given.now view var body.now uses.now)) }
{
    let others = with_other_uses(alloc, body.copy(alloc)?, uses, view)?;
    if iterations_clash(alloc, &others, var, given, None)? {
        return Ok(false);
    }
    let through = with_uses_of(alloc, EffectSet::new(alloc), uses, view)?;
    meet_nowhere(alloc, others, through, given)
}

/// Whether no effect of the one set interferes with one of the other.
fn meet_nowhere(
    alloc: Global,
    one: EffectSet,
    other: EffectSet,
    given: &[Constraint],
) -> Result<bool, NoMemory>
    ensures { IfOk result (λ apart. apart ≡ not (lists_clash given.now None one other)) }
{
    let branches = [one, other];
    Ok(first_meeting(alloc, branches.as_slice(), given, None)?.is_none())
}

/// The uses of parts as effects on the regions of their arrays, each once.
pub fn as_effects(alloc: Global, uses: &[PartUse]) -> Result<EffectSet, NoMemory>
    ensures { IfOk result (λ set. set ≡ gathered [] (map use_effect uses.now)) }
{
    let mut set = EffectSet::new(alloc);
    for part_use in uses {
        set.add(use_effect(alloc, part_use)?)?;
    }
    Ok(set)
}

fn use_effect(alloc: Global, part_use: &PartUse) -> Result<Effect, NoMemory>
    ensures { IfOk result (λ e. e ≡ use_effect part_use.now) }
{
    Ok(Effect {
        access: part_use.access,
        atomic: false,
        rpl: part_use.rpl.copy(alloc)?,
    })
}

/// The set with the uses of the part added.
fn with_uses_of(
    alloc: Global,
    set: EffectSet,
    uses: &[PartUse],
    view: u32,
) -> Result<EffectSet, NoMemory>
    ensures { IfOk result (λ made. made ≡ with_uses_of view set uses.now) }
{
    let mut set = set;
    for part_use in uses {
        if part_use.view == view {
            set.add(use_effect(alloc, part_use)?)?;
        }
    }
    Ok(set)
}

/// The set with the uses of other parts added.
fn with_other_uses(
    alloc: Global,
    set: EffectSet,
    uses: &[PartUse],
    view: u32,
) -> Result<EffectSet, NoMemory>
    ensures { IfOk result (λ made. made ≡ with_other_uses view set uses.now) }
{
    let mut set = set;
    for part_use in uses {
        if part_use.view != view {
            set.add(use_effect(alloc, part_use)?)?;
        }
    }
    Ok(set)
}
