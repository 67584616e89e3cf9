ghost use Rattle.std.specs.Prelude.{◌≡◌, map, IfOk};
ghost use Rattle.lang_meaning.specs.Regions.{around, concrete_effect};
ghost use Rattle.exec_task.specs.Names.{names_of, plain_effect};
ghost use Rattle.exec_task.specs.Tasks.{plain_frame};

use exec_frames::{Frame, concrete};
use lang_base::{Effect, Head, Items, NoMemory, Rpl};
use std::alloc::Global;

/// The effect that an access to a path is in a frame. Its path begins at the root.
pub fn concrete_effect(alloc: Global, frame: &Frame, effect: &Effect) -> Result<Effect, NoMemory>
    ensures { IfOk result (λ e. plain_effect e ≡ concrete_effect (names_of 0) (around (plain_frame frame.now)) effect.now) }
{
    let region = concrete(alloc, frame, &effect.rpl)?;
    Ok(Effect {
        access: effect.access,
        atomic: effect.atomic,
        rpl: Rpl {
            head: Head::Root,
            elems: region.elems,
        },
    })
}

/// The effects of accesses.
pub fn concrete_effects(
    alloc: Global,
    frame: &Frame,
    accesses: &Items<Effect>,
) -> Result<Items<Effect>, NoMemory>
    ensures { IfOk result (λ effects. map plain_effect effects ≡ map (concrete_effect (names_of 0) (around (plain_frame frame.now))) accesses.now) }
{
    let mut effects = Items::new(alloc);
    for access in accesses.as_slice() {
        effects.push(concrete_effect(alloc, frame, access)?)?;
    }
    Ok(effects)
}
