ghost use Rattle.std.specs.Prelude.{◌≡◌, ◌≢◌, ℕ, true, false, IfOk, OnOk};
ghost use Rattle.exec_locks.specs.Index.{holds};

use lang_base::NoMemory;
use std::alloc::Global;
use std::collections::BTreeSet;

/// Some tasks: one or two take no memory of their own, and a set that was made for more stays one.
#[derive(Drop)]
pub enum TaskSet {
    One(u32),
    Two(u32, u32),
    Many(BTreeSet<u32>),
}

/// A set of three tasks.
fn set_of(alloc: Global, one: u32, other: u32, third: u32) -> Result<TaskSet, NoMemory>
    ensures one { IfOk result (λ set. holds set one ≡ true) }
    ensures other { IfOk result (λ set. holds set other ≡ true) }
    ensures third { IfOk result (λ set. holds set third ≡ true) }
{
    let mut set = BTreeSet::new(alloc);
    let _ = set.insert(one)?;
    let _ = set.insert(other)?;
    let _ = set.insert(third)?;
    Ok(TaskSet::Many(set))
}

impl TaskSet {
    /// Puts a task in.
    pub fn add(&mut self, alloc: Global, task: u32) -> Result<(), NoMemory>
        ensures there { OnOk result (holds self.new task ≡ true) }
        ensures kept { (q : ℕ) → holds self.old q ≡ true → holds self.new q ≡ true }
    {
        let more = match self {
            TaskSet::One(one) if *one == task => return Ok(()),
            TaskSet::One(one) => TaskSet::Two(*one, task),
            TaskSet::Two(one, other) if *one == task || *other == task => return Ok(()),
            TaskSet::Two(one, other) => set_of(alloc, *one, *other, task)?,
            TaskSet::Many(set) => {
                let _ = set.insert(task)?;
                return Ok(());
            }
        };
        *self = more;
        Ok(())
    }

    /// Takes a task out, and answers whether it was the last one: then it may be left in. It takes no memory.
    pub fn take_out(&mut self, task: u32) -> bool
        ensures kept { (q : ℕ) → q ≢ task → holds self.old q ≡ true → holds self.new q ≡ true }
        ensures last { result ≡ true → (q : ℕ) → q ≢ task → holds self.old q ≡ false }
    {
        let rest = match self {
            TaskSet::One(one) => return *one == task,
            TaskSet::Two(one, other) if *one == task => *other,
            TaskSet::Two(one, other) if *other == task => *one,
            TaskSet::Two(..) => return false,
            TaskSet::Many(set) => {
                let _ = set.remove(&task);
                return set.is_empty();
            }
        };
        *self = TaskSet::One(rest);
        false
    }
}
