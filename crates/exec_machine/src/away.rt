ghost use Rattle.std.specs.Prelude.{◌≡◌, ◌<◌, ℕ, All, length, slice_index_or};
ghost use Rattle.code_instrs.specs.Plain.{plain_code};
ghost use Rattle.exec_task.specs.Halts.{IsWidthBounded};
ghost use Rattle.exec_machine.specs.Away.{GoesFurther, CanGoAway};
ghost use Rattle.exec_machine.specs.declared.away.Away.{Away as Taken};

use crate::slot::Slot;
use code_instrs::Code;
use rayon::prelude::par_chunks_mut_for_each;
use std::alloc::Global;
use std::thread::Threads;

/// A task that was taken out of the map.
#[derive(Drop)]
pub struct Away {
    pub number: u32,
    pub slot: Slot,
}

impl Away {
    /// Takes the task to its next action. When memory runs out, it is on its way there.
    fn advance(&mut self, alloc: Global, code: &Code)
        requires few { All IsWidthBounded code.now.sites }
        requires goes { CanGoAway (plain_code code.now) self.old }
        ensures { GoesFurther (plain_code code.now) self.old self.new }
    {
        let _ = self.slot.advance(alloc, code);
    }
}

/// Takes each of these tasks to its next action, side by side: in at most so many pieces, one after another in each.
pub fn advance_each<R: Threads + Sync>(
    rt: &R,
    alloc: Global,
    code: &Code,
    pieces: usize,
    tasks: &mut [Away],
)
    requires few { All IsWidthBounded code.now.sites }
    requires pieces { 0 < pieces }
    requires go { All (CanGoAway (plain_code code.now)) tasks.old }
    ensures len { length tasks.new ≡ length tasks.old }
    ensures further { (i : ℕ) (d : Taken) → i < length tasks.old → GoesFurther (plain_code code.now) (slice_index_or tasks.old i d) (slice_index_or tasks.new i d) }
{
    if tasks.is_empty() {
        return;
    }
    let size = tasks.len().div_ceil(pieces);
    par_chunks_mut_for_each(rt, tasks, size, |_, piece: &mut [Away]| {
        advance_in_turn(alloc, code, piece)
    });
}

/// Takes each of these tasks to its next action, one after another.
fn advance_in_turn(alloc: Global, code: &Code, tasks: &mut [Away])
    requires few { All IsWidthBounded code.now.sites }
    requires go { All (CanGoAway (plain_code code.now)) tasks.old }
    ensures len { length tasks.new ≡ length tasks.old }
    ensures further { (i : ℕ) (d : Taken) → i < length tasks.old → GoesFurther (plain_code code.now) (slice_index_or tasks.old i d) (slice_index_or tasks.new i d) }
{
    for task in tasks.iter_mut() {
        task.advance(alloc, code);
    }
}
