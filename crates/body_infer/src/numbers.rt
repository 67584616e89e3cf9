ghost use Rattle.std.specs.Prelude.{◌≡◌, ◌==◌, ◌++◌, ◌∷◌, [], take, OnOk};
ghost use Rattle.std.specs.List.{list_any};

use indexmap::IndexSet;
use lang_base::{Items, NoMemory};
use std::alloc::Global;
use std::marker::Model;

/// Up to so many numbers are looked through, which takes less than to hash them.
const FEW: usize = 8;

/// Numbers in the order in which they were added. To see whether one is among them takes no longer where they are many.
/// A contract sees the list.
#[derive(Drop)]
pub struct Numbers {
    all: Items<u64>,
    /// Those after the first few.
    later: IndexSet<u64>,
}

impl Model for Numbers {
    ghost use Rattle.std.specs.Prelude.{ℕ, List, drop};
    ghost use Rattle.body_infer.specs.Finding.{Finds};
    ghost use Rattle.body_infer.specs.declared.numbers.TheConstants.{FEW};

    ghost Value = { List ℕ };

    ghost view = { λ numbers. numbers.all };

    ghost invariant = { λ numbers. Finds numbers.later (drop FEW numbers.all) };
}

impl Numbers {
    /// No numbers, which takes no memory.
    pub fn new(alloc: Global) -> Numbers
        ensures { result ≡ [] }
    {
        Numbers {
            all: Items::new(alloc),
            later: IndexSet::new(alloc),
        }
    }

    /// Puts a number last.
    pub fn push(&mut self, number: u64) -> Result<(), NoMemory>
        ensures { OnOk result (self.new ≡ self.old ++ number ∷ []) }
    {
        if self.all.len() < FEW {
            self.all.push(number)?;
            return Ok(());
        }
        // With room in the set, nothing can fail once the list has the number.
        self.later.reserve(1)?;
        self.all.push(number)?;
        let _ = self.later.insert(number)?;
        Ok(())
    }

    /// Puts others after these.
    pub fn append(&mut self, more: Numbers) -> Result<(), NoMemory>
        ensures { OnOk result (self.new ≡ self.old ++ more) }
    {
        for number in more.into_items().into_vec() {
            self.push(number)?;
        }
        Ok(())
    }

    fn into_items(self) -> Items<u64>
        ensures { result ≡ self }
    {
        let Numbers { all, later: _ } = self;
        all
    }

    /// Whether the number is among these.
    pub fn has(&self, number: u64) -> bool
        ensures { result ≡ list_any (λ n. n == number) self.now }
    {
        among(self.first_few(), number) || self.later.contains(&number)
    }

    fn first_few(&self) -> &[u64]
        ensures { result.now ≡ take FEW self.now }
    {
        let all = self.all.as_slice();
        if all.len() <= FEW { all } else { &all[..FEW] }
    }
}

fn among(numbers: &[u64], number: u64) -> bool
    ensures { result ≡ list_any (λ n. n == number) numbers.now }
{
    for n in numbers {
        if *n == number {
            return true;
        }
    }
    false
}
