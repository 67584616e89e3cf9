ghost use Rattle.std.specs.Prelude.{◌≡◌, ◌<◌, IsSome, OnOk, OnErr, MatchOption, IsTrue, ◌↔◌, None, Some};
ghost use Rattle.std.specs.Option.{option_copied, option_copied_mut};
ghost use Rattle.std.specs.FinMap.{empty, get, insert, remove};
ghost use Rattle.std.specs.Borrow.{LendsIf, Lends, sem};
ghost use Rattle.exec_tasks.specs.Numbered.{IsLastBelow, NoneBelow};

use crate::pages::Pages;
use lang_base::NoMemory;
use std::alloc::Global;
use std::marker::Model;

/// Values by number, each in memory of its own. A contract sees a finite map.
///
/// A value is found by its place in a page of 64 numbers, and a page by its place among the pages, of which those without values take the room
/// of a reference. So this suits numbers that are given in order and not again.
#[derive(Drop)]
pub struct Numbered<T> {
    pages: Pages<T>,
}

impl<T> Model for Numbered<T> {
    ghost use Rattle.std.specs.Ordering.{nat_cmp};
    ghost use Rattle.std.specs.FinMap.{FinMap, code};
    ghost use Rattle.std.specs.Coded.{coded_ℕ};
    ghost use Rattle.exec_tasks.specs.Pages.{map_of, IsSound};

    ghost Value = { FinMap nat_cmp T };

    ghost coded = { code coded_ℕ T.code };

    ghost view = { λ n. map_of n.pages };

    ghost invariant = { λ n. IsSound n.pages };
}

impl<T> Numbered<T> {
    ghost use Rattle.exec_tasks.specs.contracts.numbered.Numbered.{the_row};

    pub fn get(&self, number: u32) -> Option<&T>
        ensures { option_copied result ≡ get self.now number }
    {
        self.pages.get(number)
    }

    pub fn contains(&self, number: u32) -> bool
        ensures { IsTrue result ↔ IsSome (get self.now number) }
    {
        self.get(number).is_some()
    }

    pub fn get_mut(&mut self, number: u32) -> Option<&mut T>
        ensures* lends { sem 𝓛 (LendsIf (the_row T.row) T.row self.entry result (insert self.entry.now number) self.entry.now) }
        ensures value { option_copied_mut result ≡ get self.old number }
    {
        if self.contains(number) {
            Some(self.value_mut(number))
        } else {
            None
        }
    }

    /// A value that is there.
    fn value_mut(&mut self, number: u32) -> &mut T
        requires { IsSome (get self.old number) }
        ensures* lends { sem 𝓛 (Lends (the_row T.row) T.row self.entry result (insert self.entry.now number)) }
        ensures value { Some result.now ≡ get self.old number }
    {
        self.pages.get_mut(number)
    }

    /// The last number below a bound that has a value.
    pub fn last_below(&self, bound: u32) -> Option<u32>
        ensures { MatchOption result (NoneBelow self.now bound) (IsLastBelow self.now bound) }
    {
        self.pages.last_below(bound)
    }
}

impl<T: Drop> Numbered<T> {
    pub fn new(alloc: Global) -> Numbered<T>
        ensures { result ≡ empty }
    {
        Numbered {
            pages: Pages::new(alloc),
        }
    }

    pub fn insert(&mut self, number: u32, value: T) -> Result<(), NoMemory>
        ensures ok { OnOk result (self.new ≡ insert self.old number value) }
        ensures err { OnErr result (self.new ≡ self.old) }
    {
        self.pages.insert(number, value)
    }

    pub fn remove(&mut self, number: u32) -> Option<T>
        ensures value { result ≡ get self.old number }
        ensures removed { self.new ≡ remove self.old number }
    {
        self.pages.remove(number)
    }
}
