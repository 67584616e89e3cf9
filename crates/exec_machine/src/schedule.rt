ghost use Rattle.std.specs.Prelude.{◌≡◌, ◌+◌, ◌∷◌, ◌++◌, [], fold, length, max, replicate, IfOk, OnOk, OnErr, MatchOption};
ghost use Rattle.std.specs.List.{flat_map};
ghost use Rattle.exec_machine.specs.Repeats.{IsFilled};

use lang_base::{Items, NoMemory};
use std::alloc::Global;
use std::marker::Model;

/// A task, `many` times in a row.
#[derive(Clone, Copy, Debug, PartialEq, Eq)]
struct Repeat {
    task: u32,
    many: u32,
}

impl Repeat {
    /// The repeat with a task after it, where it can have it.
    fn followed_by(self, task: u32) -> Option<Repeat>
        ensures { MatchOption result (IsFilled self) (λ more. replicate more.many more.task ≡ replicate self.many self.task ++ task ∷ []) }
    {
        if self.many == 0 {
            return Some(Repeat { task, many: 1 });
        }
        if self.task != task {
            return None;
        }
        let many = self.many.checked_add(1)?;
        Some(Repeat { task, many })
    }

    /// How many tasks there are up to the greatest of so many and this one.
    #[tactic(auto, using(crate::proofs::Repeats::up_to_repeat))]
    fn tasks_with(self, tasks: u64) -> u64
        ensures { result ≡ fold (λ most task. max most (task + 1)) tasks (replicate self.many self.task) }
    {
        if self.many == 0 {
            tasks
        } else {
            tasks.max(self.task as u64 + 1)
        }
    }

    /// The repeat without its last event.
    fn shorter(self) -> Repeat
        requires { IsFilled self }
        ensures { replicate self.many self.task ≡ replicate result.many result.task ++ self.task ∷ [] }
    {
        Repeat {
            task: self.task,
            many: self.many - 1,
        }
    }
}

/// The tasks of events, in their order. A contract sees the list; it takes memory once for the events of one task in a row.
#[derive(Debug, Drop)]
pub struct Schedule {
    /// The repeats before the last.
    earlier: Items<Repeat>,
    /// The last one, which has no event where there are none.
    last: Repeat,
    len: usize,
}

impl Model for Schedule {
    ghost use Rattle.std.specs.Prelude.{◌≡◌, ℕ, List, All, length};
    ghost use Rattle.std.specs.List.{flat_map};
    ghost use Rattle.exec_machine.specs.Repeats.{IsFilled, tasks_in};

    ghost Value = { List ℕ };

    ghost view = { λ s. tasks_in s.earlier s.last };

    ghost invariant = { λ s. All IsFilled s.earlier × (s.len ≡ length (tasks_in s.earlier s.last)) };
}

impl Schedule {
    /// No events, which takes no memory.
    pub fn new(alloc: Global) -> Schedule
        ensures { result ≡ [] }
    {
        Schedule {
            earlier: Items::new(alloc),
            last: Repeat { task: 0, many: 0 },
            len: 0,
        }
    }

    /// How many events there are. It takes no longer where they are many.
    pub fn len(&self) -> usize
        ensures { result ≡ length self.now }
    {
        self.len
    }

    /// How many tasks there are up to the greatest.
    #[tactic(auto, using(crate::proofs::Repeats::one_by_one))]
    pub fn tasks(&self) -> u64
        ensures { result ≡ fold (λ most task. max most (task + 1)) 0 self.now }
    {
        self.last.tasks_with(tasks_up_to(self.earlier.as_slice()))
    }

    /// Puts the task of an event last. When memory runs out, the schedule is as it was.
    pub fn push(&mut self, task: u32) -> Result<(), NoMemory>
        ensures ok { OnOk result (self.new ≡ self.old ++ task ∷ []) }
        ensures err { OnErr result (self.new ≡ self.old) }
    {
        let Some(len) = self.len.checked_add(1) else {
            return Err(NoMemory);
        };
        match self.last.followed_by(task) {
            Some(more) => self.last = more,
            None => {
                self.earlier.push(self.last)?;
                self.last = Repeat { task, many: 1 };
            }
        }
        self.len = len;
        Ok(())
    }

    /// Takes the last event off.
    pub fn pop(&mut self) -> Option<u32>
        ensures { MatchOption result ((self.old ≡ []) × (self.new ≡ [])) (λ last. self.old ≡ self.new ++ last ∷ []) }
    {
        let last = if self.last.many == 0 {
            self.earlier.pop()?
        } else {
            self.last
        };
        self.last = last.shorter();
        self.len -= 1;
        Some(last.task)
    }

    /// The tasks one by one.
    pub fn to_items(&self, alloc: Global) -> Result<Items<u32>, NoMemory>
        ensures { IfOk result (λ tasks. tasks ≡ self.now) }
    {
        let mut tasks = tasks_of(alloc, self.earlier.as_slice())?;
        push_repeat(&mut tasks, self.last)?;
        Ok(tasks)
    }
}

/// How many tasks there are up to the greatest of repeats.
#[tactic(auto, using(crate::proofs::Repeats::one_by_one))]
fn tasks_up_to(repeats: &[Repeat]) -> u64
    ensures { result ≡ fold (λ most task. max most (task + 1)) 0 (flat_map (λ s. replicate s.many s.task) repeats.now) }
{
    let mut most = 0;
    for repeat in repeats {
        most = repeat.tasks_with(most);
    }
    most
}

/// The tasks of repeats, one by one.
fn tasks_of(alloc: Global, repeats: &[Repeat]) -> Result<Items<u32>, NoMemory>
    ensures { IfOk result (λ tasks. tasks ≡ flat_map (λ s. replicate s.many s.task) repeats.now) }
{
    let mut tasks = Items::new(alloc);
    for repeat in repeats {
        push_repeat(&mut tasks, *repeat)?;
    }
    Ok(tasks)
}

fn push_repeat(tasks: &mut Items<u32>, repeat: Repeat) -> Result<(), NoMemory>
    ensures { OnOk result (tasks.new ≡ tasks.old ++ replicate repeat.many repeat.task) }
{
    for _copy in 0..repeat.many {
        tasks.push(repeat.task)?;
    }
    Ok(())
}
