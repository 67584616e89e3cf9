ghost use Rattle.std.specs.Prelude.{◌≡◌, ◌<◌, length, IfOk};
ghost use Rattle.exec_heap.specs.Heap.{object_at};
ghost use Rattle.exec_world.specs.World.{seen, answer_joined};

use exec_heap::Heap;
use exec_task::Answer;
use exec_tasks::Joined;
use lang_base::{Items, NoMemory, Plain, Region};
use std::alloc::Global;

/// What a look at an object is answered: its class and regions, or its length.
pub fn answer_of(alloc: Global, heap: &Heap, object: u32) -> Result<Answer, NoMemory>
    requires { object < length heap.now.objects }
    ensures { IfOk result (λ answer. answer ≡ seen (object_at heap.now object)) }
{
    match heap.class(object) {
        Some(class) => Ok(Answer::Class {
            class,
            regions: copied(alloc, heap.regions(object))?,
        }),
        None => Ok(Answer::Length(heap.length(object))),
    }
}

/// The same regions.
fn copied(alloc: Global, regions: &[Region]) -> Result<Items<Region>, NoMemory>
    ensures { IfOk result (λ copies. copies ≡ regions.now) }
{
    let mut copies = Items::new(alloc);
    for region in regions {
        copies.push(region.copy(alloc)?)?;
    }
    Ok(copies)
}

/// What a join is answered: the trap of its branches, if one trapped, or else the slots that they assigned.
pub fn joined_answer(joined: Joined) -> Answer
    ensures { result ≡ answer_joined joined }
{
    match joined.trap {
        Some((trap, place)) => Answer::Fell(trap, place),
        None => Answer::Joined(joined.slots),
    }
}
