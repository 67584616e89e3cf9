ghost use Rattle.std.specs.Prelude.{◌≡◌, ◌<◌, ◌∷◌, [], length, reverse, slice_get, slice_set, drop, MatchOption, MatchResult};
ghost use Rattle.std.specs.Option.{option_copied};

use std::alloc::Global;
use std::marker::Model;
use std::mem;

/// Items of which the last that was put on is the first to be taken off. A contract sees their list, from the top down.
#[derive(Drop)]
pub struct Stack<T> {
    items: Vec<T>,
}

impl<T> Model for Stack<T> {
    ghost use Rattle.std.specs.Prelude.{List, reverse};
    ghost use Rattle.std.specs.Coded.{coded_list};

    ghost Value = { List T };

    ghost coded = { coded_list T.code };

    ghost view = { λ stack. reverse stack.items.items };
}

impl<T> Stack<T> {
    /// The empty stack, which takes no memory.
    pub fn new(alloc: Global) -> Stack<T>
        ensures { result ≡ [] }
    {
        Stack {
            items: Vec::new(alloc),
        }
    }

    pub fn len(&self) -> usize
        ensures { result ≡ length self.now }
    {
        self.items.len()
    }

    /// Puts an item on top. When memory runs out, it comes back.
    pub fn push(&mut self, item: T) -> Result<(), T>
        ensures { MatchResult result (λ _. self.new ≡ item ∷ self.old) (λ back. (back ≡ item) × (self.new ≡ self.old)) }
    {
        match self.items.push(item) {
            Ok(()) => Ok(()),
            Err(refused) => Err(refused.value),
        }
    }

    /// Takes the item on top off.
    pub fn pop(&mut self) -> Option<T>
        ensures { MatchOption result ((self.old ≡ []) × (self.new ≡ [])) (λ top. self.old ≡ top ∷ self.new) }
    {
        self.items.pop()
    }

    /// Changes the item on top for another.
    pub fn swap_top(&mut self, item: &mut T)
        requires { 0 < length self.old }
        ensures top { self.new ≡ item.old ∷ drop 1 self.old }
        ensures item { self.old ≡ item.new ∷ drop 1 self.old }
    {
        let at = self.items.len() - 1;
        mem::swap(&mut self.items[at], item);
    }

    /// The item so many below the top.
    pub fn get(&self, below: usize) -> Option<&T>
        ensures { option_copied result ≡ slice_get self.now below }
    {
        let len = self.items.len();
        if below < len {
            self.items.get(len - 1 - below)
        } else {
            None
        }
    }
}

impl<T: Copy> Stack<T> {
    /// The item on top.
    #[tactic(auto, using(crate::proofs::Lists::empty_of))]
    pub fn top(&self) -> Option<T>
        ensures { MatchOption result (self.now ≡ []) (λ top. self.now ≡ top ∷ drop 1 self.now) }
    {
        match self.get(0) {
            Some(item) => Some(*item),
            None => None,
        }
    }

    /// The item below the top, and the top.
    pub fn top_two(&self) -> Option<(T, T)>
        ensures { MatchOption result (length self.now < 2) (λ p. self.now ≡ p.1 ∷ p.0 ∷ drop 2 self.now) }
    {
        Some((*self.get(1)?, *self.get(0)?))
    }

    /// The three items on top, the lowest first.
    pub fn top_three(&self) -> Option<(T, T, T)>
        ensures { MatchOption result (length self.now < 3) (λ p. self.now ≡ p.2 ∷ p.1 ∷ p.0 ∷ drop 3 self.now) }
    {
        Some((*self.get(2)?, *self.get(1)?, *self.get(0)?))
    }
}

impl<T: Drop> Stack<T> {
    /// Puts an item in the place of that on top.
    pub fn set_top(&mut self, item: T)
        requires { 0 < length self.old }
        ensures { self.new ≡ item ∷ drop 1 self.old }
    {
        self.set(0, item);
    }

    /// Puts an item in the place of that so many below the top.
    pub fn set(&mut self, below: usize, item: T)
        requires { below < length self.old }
        ensures { self.new ≡ slice_set self.old below item }
    {
        let at = self.items.len() - 1 - below;
        self.items[at] = item;
    }

    /// Takes so many items off.
    pub fn drop_top(&mut self, many: usize)
        ensures { self.new ≡ drop many self.old }
    {
        self.items.truncate(self.items.len().saturating_sub(many));
    }
}
