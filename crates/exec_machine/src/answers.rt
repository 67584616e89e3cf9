ghost use Rattle.std.specs.Prelude.{◌≡◌, IfOk};

use exec_task::Answer;
use lang_base::{NoMemory, Plain};
use std::alloc::Global;

/// An equal answer.
pub fn copied(alloc: Global, answer: &Answer) -> Result<Answer, NoMemory>
    ensures { IfOk result (λ copy. copy ≡ answer.now) }
{
    Ok(match answer {
        Answer::Went => Answer::Went,
        Answer::Got(value) => Answer::Got(*value),
        Answer::Out => Answer::Out,
        Answer::Class { class, regions } => Answer::Class {
            class: *class,
            regions: regions.copy(alloc)?,
        },
        Answer::Length(len) => Answer::Length(*len),
        Answer::Made(object) => Answer::Made(*object),
        Answer::Joined(slots) => Answer::Joined(slots.copy(alloc)?),
        Answer::Fell(trap, place) => Answer::Fell(*trap, *place),
    })
}
