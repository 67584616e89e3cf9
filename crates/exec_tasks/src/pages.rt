ghost use Rattle.std.specs.Prelude.{◌≡◌, ◌≢◌, ◌+◌, ◌*◌, ◌^◌, ◌/◌, ◌%◌, ◌<◌, ◌≤◌, ℕ, IsSome, IfSome, IfNone, OnOk, OnErr, IsTrue, None, Some};
ghost use Rattle.std.specs.Option.{option_copied};
ghost use Rattle.std.specs.Borrow.{Lends, sem};

use crate::kept::Kept;
use crate::page::{Page, WIDTH, reach, value_of};
use lang_base::NoMemory;
use std::alloc::Global;
use std::collections::BTreeSet;

/// Values by number: the page of a number stands at its place among the pages, while it has a value. The page that came last stays without one
/// too, since the next numbers come there.
#[derive(Drop)]
pub struct Pages<T> {
    pages: Vec<Option<Kept<Page<T>>>>,
    /// The pages that there are, in order.
    there: BTreeSet<u32>,
    /// The page that came last.
    last: u32,
    alloc: Global,
}

impl<T> Pages<T> {
    ghost use Rattle.exec_tasks.specs.Pages.{in_some, page_at, value_at, with_number, IsSound, IsLastNumber, IsLastPage, Puts};
    ghost use Rattle.exec_tasks.specs.contracts.pages.Pages.{the_row};

    fn page(&self, page: u32) -> Option<&Page<T>>
        ensures { option_copied result ≡ page_at self.now page }
    {
        match self.pages.get(page as usize) {
            Some(Some(page)) => Some(page.get()),
            _ => None,
        }
    }

    pub fn get(&self, number: u32) -> Option<&T>
        ensures { option_copied result ≡ value_at self.now number }
    {
        match self.page(number / WIDTH) {
            Some(page) => page.get(number % WIDTH),
            None => None,
        }
    }

    /// A value that is there.
    pub fn get_mut(&mut self, number: u32) -> &mut T
        requires { IsSome (value_at self.old number) }
        ensures* lends { sem 𝓛 (Lends (the_row T.row) T.row self.entry result (with_number self.entry.now number)) }
        ensures value { Some result.now ≡ value_at self.old number }
    {
        value_of(&mut self.pages[(number / WIDTH) as usize]).get_mut(number % WIDTH)
    }

    /// The last number below a bound that has a value.
    pub fn last_below(&self, bound: u32) -> Option<u32>
        requires { IsSound self.now }
        ensures last { IfSome result (IsLastNumber self.now bound) }
        ensures absent { IfNone result ((q : ℕ) → q < bound → value_at self.now q ≡ None) }
    {
        let mut rest = bound / WIDTH;
        let last = self.last_in(rest, bound % WIDTH);
        if last.is_some() {
            return last;
        }
        while let Some(page) = self.page_below(rest) {
            let last = self.last_in(page, WIDTH);
            if last.is_some() {
                return last;
            }
            rest = page;
        }
        None
    }

    /// The last number that has a value in a page, before a place of it.
    fn last_in(&self, page: u32, end: u32) -> Option<u32>
        requires page { end ≤ 64 }
        requires fits { page * 64 + end < 2 ^ 32 }
        ensures last { IfSome result (λ n. (page * 64 ≤ n) × IsLastNumber self.now (page * 64 + end) n) }
        ensures absent { IfNone result ((q : ℕ) → page * 64 ≤ q → q < page * 64 + end → value_at self.now q ≡ None) }
    {
        let place = self.page(page)?.last_before(end)?;
        Some(page * WIDTH + place)
    }

    /// The last page that there is below a bound.
    fn page_below(&self, bound: u32) -> Option<u32>
        requires { IsSound self.now }
        ensures last { IfSome result (IsLastPage self.now bound) }
        ensures absent { IfNone result ((p : ℕ) → p < bound → page_at self.now p ≡ None) }
    {
        let page = self.there.range(..bound).next_back()?;
        Some(*page)
    }

    /// Takes a value out, and leaves its page.
    fn take(&mut self, number: u32) -> Option<T>
        requires { IsSound self.old }
        ensures value { result ≡ value_at self.old number }
        ensures taken { Puts self.old self.new number None }
        ensures sound { IsSound self.new }
    {
        let Some(_) = self.page(number / WIDTH) else {
            return None;
        };
        let page = value_of(&mut self.pages[(number / WIDTH) as usize]);
        let value = page.take(number % WIDTH)?;
        Some(value.into_inner())
    }

    /// Whether a page is there and has no value.
    fn is_spent(&self, page: u32) -> bool
        requires { IsSound self.now }
        ensures { IsTrue result → IsSome (page_at self.now page) × ((k : ℕ) → in_some (page_at self.now page) k ≡ None) }
    {
        match self.page(page) {
            Some(page) => page.is_empty(),
            None => false,
        }
    }
}

impl<T: Drop> Pages<T> {
    ghost use Rattle.exec_tasks.specs.Pages.{page_at, value_at, IsSound, Same, Puts};

    pub fn new(alloc: Global) -> Pages<T>
        ensures none { (q : ℕ) → value_at result q ≡ None }
        ensures sound { IsSound result }
    {
        Pages {
            pages: Vec::new(alloc),
            there: BTreeSet::new(alloc),
            last: 0,
            alloc,
        }
    }

    /// Makes a page, where it isn't there. The one that came before it goes, if it has no value.
    fn reach(&mut self, page: u32) -> Result<(), NoMemory>
        requires { IsSound self.old }
        ensures same { Same self.old self.new }
        ensures sound { IsSound self.new }
        ensures reached { OnOk result (IsSome (page_at self.new page)) }
    {
        if self.page(page).is_some() {
            return Ok(());
        }
        let before = self.last;
        self.open(page)?;
        if before != page {
            self.close(before);
        }
        Ok(())
    }

    /// Makes a page that isn't there.
    fn open(&mut self, page: u32) -> Result<(), NoMemory>
        requires absent { page_at self.old page ≡ None }
        requires sound { IsSound self.old }
        ensures same { Same self.old self.new }
        ensures sound { IsSound self.new }
        ensures reached { OnOk result (IsSome (page_at self.new page)) }
    {
        reach(&mut self.pages, page as usize)?;
        let empty = Kept::new(self.alloc, Page::new(self.alloc)?)?;
        let _ = self.there.insert(page)?;
        self.pages[page as usize] = Some(empty);
        self.last = page;
        Ok(())
    }

    /// Puts a value under a number. What was there is dropped.
    pub fn insert(&mut self, number: u32, value: T) -> Result<(), NoMemory>
        requires { IsSound self.old }
        ensures ok { OnOk result (Puts self.old self.new number (Some value)) }
        ensures err { OnErr result (Same self.old self.new) }
        ensures sound { IsSound self.new }
    {
        let value = Kept::new(self.alloc, value)?;
        self.reach(number / WIDTH)?;
        let page = value_of(&mut self.pages[(number / WIDTH) as usize]);
        page.reach(number % WIDTH)?;
        let _ = page.put(number % WIDTH, value);
        Ok(())
    }

    /// Takes a value out. A page goes with its last value, unless it came last.
    pub fn remove(&mut self, number: u32) -> Option<T>
        requires { IsSound self.old }
        ensures value { result ≡ value_at self.old number }
        ensures removed { Puts self.old self.new number None }
        ensures sound { IsSound self.new }
    {
        let value = self.take(number)?;
        let page = number / WIDTH;
        if page != self.last {
            self.close(page);
        }
        Some(value)
    }

    /// Drops a page that has no value.
    fn close(&mut self, page: u32)
        requires { IsSound self.old }
        ensures others { (p : ℕ) → p ≢ page → page_at self.new p ≡ page_at self.old p }
        ensures same { Same self.old self.new }
        ensures sound { IsSound self.new }
    {
        if !self.is_spent(page) {
            return;
        }
        self.pages[page as usize] = None;
        let _ = self.there.remove(&page);
    }
}
