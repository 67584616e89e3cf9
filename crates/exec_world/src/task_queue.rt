ghost use Rattle.std.specs.Prelude.{◌≡◌, ◌<◌, ◌≤◌, ◌-◌, ℕ, IfSome, OnOk, OnErr, MatchOption};
ghost use Rattle.std.specs.FinMap.{get};
ghost use Rattle.std.specs.Option.{option_copied};
ghost use Rattle.exec_world.specs.Words.{InSome, IsWord, IsLastIn, Has, With, Without, IsLastUpTo, NoneUpTo, IsLastBelow, NoneBelow};

use crate::word::{WIDTH, last_place, last_up_to, with_place, without_place};
use exec_tasks::Numbered;
use lang_base::NoMemory;
use std::alloc::Global;
use std::marker::Model;

/// A set of tasks, with a bit for each: 64 numbers in a row share a word. A contract sees the words that have a number.
#[derive(Drop)]
pub struct TaskQueue {
    words: Numbered<u64>,
    /// No greater number is in the set.
    most: u32,
}

impl Model for TaskQueue {
    ghost use Rattle.std.specs.FinMap.{code};
    ghost use Rattle.std.specs.Coded.{coded_ℕ};
    ghost use Rattle.exec_world.specs.Words.{Words, IsBounded};

    ghost Value = { Words };

    ghost coded = { code coded_ℕ coded_ℕ };

    ghost view = { λ s. s.words };

    ghost invariant = { λ s. IsBounded s.words s.most };
}

impl TaskQueue {
    pub fn new(alloc: Global) -> TaskQueue
        ensures { (q : ℕ) → Has result q → ⊥ }
    {
        TaskQueue {
            words: Numbered::new(alloc),
            most: 0,
        }
    }

    pub fn insert(&mut self, task: u32) -> Result<(), NoMemory>
        ensures ok { OnOk result (With self.old self.new task) }
        ensures err { OnErr result (self.new ≡ self.old) }
    {
        put(&mut self.words, task)?;
        self.most = self.most.max(task);
        Ok(())
    }

    pub fn remove(&mut self, task: u32)
        ensures { Without self.old self.new task }
    {
        take(&mut self.words, task);
    }

    /// The last below a bound.
    pub fn last_below(&mut self, bound: u32) -> Option<u32>
        ensures same { self.new ≡ self.old }
        ensures last { MatchOption result (NoneBelow self.old bound) (IsLastBelow self.old bound) }
    {
        if bound <= self.most {
            return before(&self.words, bound);
        }
        let last = last_number(&self.words, self.most)?;
        self.most = last;
        Some(last)
    }

    /// Puts in each that another set has.
    pub fn insert_each(&mut self, others: &TaskQueue) -> Result<(), NoMemory>
        ensures kept { (q : ℕ) → Has self.old q → Has self.new q }
        ensures there { OnOk result ((q : ℕ) → Has others.now q → Has self.new q) }
    {
        let mut rest = others.most;
        while let Some(task) = last_number(&others.words, rest) {
            self.insert(task)?;
            if task == 0 {
                return Ok(());
            }
            rest = task - 1;
        }
        Ok(())
    }
}

/// Puts a number into a set.
fn put(words: &mut Numbered<u64>, number: u32) -> Result<(), NoMemory>
    requires { (p : ℕ) → IfSome (get words.old p) IsWord }
    ensures ok { OnOk result (With words.old words.new number) }
    ensures full { (p : ℕ) → IfSome (get words.new p) IsWord }
    ensures err { OnErr result (words.new ≡ words.old) }
{
    let Some(word) = words.get_mut(number / WIDTH) else {
        return words.insert(number / WIDTH, with_place(0, number % WIDTH));
    };
    *word = with_place(*word, number % WIDTH);
    Ok(())
}

/// Takes a number out of a set.
fn take(words: &mut Numbered<u64>, number: u32)
    requires { (p : ℕ) → IfSome (get words.old p) IsWord }
    ensures without { Without words.old words.new number }
    ensures full { (p : ℕ) → IfSome (get words.new p) IsWord }
{
    let Some(word) = words.get_mut(number / WIDTH) else {
        return;
    };
    let rest = without_place(*word, number % WIDTH);
    *word = rest;
    if rest == 0 {
        let _ = words.remove(number / WIDTH);
    }
}

/// The last number of a set up to another.
fn last_number(words: &Numbered<u64>, most: u32) -> Option<u32>
    requires { (p : ℕ) → IfSome (get words.now p) IsWord }
    ensures { MatchOption result (NoneUpTo words.now most) (IsLastUpTo words.now most) }
{
    let page = most / WIDTH;
    if let Some(place) = last_in(words.get(page), most % WIDTH) {
        return Some(page * WIDTH + place);
    }
    let page = words.last_below(page)?;
    let Some(word) = words.get(page) else {
        unreachable!()
    };
    Some(page * WIDTH + last_place(*word))
}

/// The last place up to another that has a number, in a word if there is one.
fn last_in(word: Option<&u64>, place: u32) -> Option<u32>
    requires { place < 64 }
    ensures { MatchOption result ((k : ℕ) → k ≤ place → InSome (option_copied word.entry) k → ⊥) (IsLastIn (option_copied word.entry) place) }
{
    last_up_to(*word?, place)
}

/// The last number of a set before another.
fn before(words: &Numbered<u64>, number: u32) -> Option<u32>
    requires { (p : ℕ) → IfSome (get words.now p) IsWord }
    ensures { MatchOption result (NoneBelow words.now number) (IsLastBelow words.now number) }
{
    last_number(words, number.checked_sub(1)?)
}
