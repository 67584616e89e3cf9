ghost use Rattle.std.specs.Prelude.{◌≡◌, ◌≢◌, ℕ, true, OnOk};
ghost use Rattle.exec_locks.specs.Index.{has};

use crate::task_set::TaskSet;
use lang_base::NoMemory;
use std::alloc::Global;
use std::collections::HashMap;

/// Sets of tasks under numbers.
pub type Sets = HashMap<u64, TaskSet>;

/// Puts a task into the set under a number.
pub fn add(alloc: Global, sets: &mut Sets, number: u64, task: u32) -> Result<(), NoMemory>
    ensures there { OnOk result (has sets.new number task ≡ true) }
    ensures kept { (k : ℕ) (q : ℕ) → has sets.old k q ≡ true → has sets.new k q ≡ true }
{
    sets.entry(number)?
        .or_insert(TaskSet::One(task))
        .add(alloc, task)
}

/// Takes a task out of the set under a number, and keeps no empty set. It takes no memory.
pub fn take_out(sets: &mut Sets, number: u64, task: u32)
    ensures { (k : ℕ) (q : ℕ) → q ≢ task → has sets.old k q ≡ true → has sets.new k q ≡ true }
{
    let Some(set) = sets.get_mut(&number) else {
        return;
    };
    if set.take_out(task) {
        let _ = sets.remove(&number);
    }
}
