ghost use Rattle.std.specs.Prelude.{◌≡◌, ◌+◌, ◌<◌, ℕ, [], IsSome, IfSome, IfNone, IfOk, OnOk, IsTrue, None, Some, count_by, is_some, slice_index_or, slice_set, vec_len};
ghost use Rattle.std.specs.Option.{option_copied};
ghost use Rattle.std.specs.Borrow.{Lends, sem};
ghost use Rattle.exec_tasks.specs.Lending.{LendsValue};

use crate::kept::Kept;
use lang_base::NoMemory;
use std::alloc::Global;

/// How many numbers a page has room for.
pub const WIDTH: u32 = 64;

/// The values of some numbers in a row, each at its place.
#[derive(Drop)]
pub struct Page<T> {
    cells: Vec<Option<Kept<T>>>,
    /// How many cells have a value.
    used: usize,
}

impl<T> Page<T> {
    ghost use Rattle.exec_tasks.specs.Pages.{in_page, in_page_without, with_value, IsCounted, IsLastPlace};
    ghost use Rattle.exec_tasks.specs.contracts.page.Page.{the_row};

    pub fn get(&self, place: u32) -> Option<&T>
        ensures { option_copied result ≡ in_page self.now place }
    {
        match self.cells.get(place as usize) {
            Some(Some(value)) => Some(value.get()),
            _ => None,
        }
    }

    /// The last place before another that has a value.
    pub fn last_before(&self, end: u32) -> Option<u32>
        ensures last { IfSome result (IsLastPlace self.now end) }
        ensures absent { IfNone result ((k : ℕ) → k < end → in_page self.now k ≡ None) }
    {
        let mut place = end;
        while place > 0 {
            place -= 1;
            if self.get(place).is_some() {
                return Some(place);
            }
        }
        None
    }

    /// Whether no cell has a value.
    pub fn is_empty(&self) -> bool
        requires { IsCounted self.now }
        ensures { IsTrue result → (k : ℕ) → in_page self.now k ≡ None }
    {
        self.used == 0
    }

    /// A value that is there.
    pub fn get_mut(&mut self, place: u32) -> &mut T
        requires { IsSome (in_page self.old place) }
        ensures* lends { sem 𝓛 (Lends (the_row T.row) T.row self.entry result (with_value self.entry.now place)) }
        ensures value { Some result.now ≡ in_page self.old place }
    {
        value_of(&mut self.cells[place as usize])
    }

    /// Puts a value into a cell that is there; what was in it comes out.
    pub fn put(&mut self, place: u32, value: Kept<T>) -> Option<Kept<T>>
        requires reached { place < vec_len self.old.cells }
        requires counted { IsCounted self.old }
        ensures cells { self.new.cells.items ≡ slice_set self.old.cells.items place (Some value) }
        ensures counted { IsCounted self.new }
    {
        let before = self.cells[place as usize].replace(value);
        if before.is_none() {
            self.used += 1;
        }
        before
    }

    /// Takes out the value of a place, if it has one.
    pub fn take(&mut self, place: u32) -> Option<Kept<T>>
        requires { IsCounted self.old }
        ensures value { result ≡ in_page self.old place }
        ensures cells { (k : ℕ) → in_page self.new k ≡ in_page_without self.old place k }
        ensures counted { IsCounted self.new }
    {
        let value = self.cells.get_mut(place as usize)?.take()?;
        self.used -= 1;
        Some(value)
    }
}

impl<T: Drop> Page<T> {
    ghost use Rattle.exec_tasks.specs.Pages.{in_page, IsCounted};

    pub fn new(alloc: Global) -> Result<Page<T>, NoMemory>
        ensures empty { IfOk result (λ page. page.cells.items ≡ []) }
        ensures none { IfOk result (λ page. page.used ≡ 0) }
    {
        Ok(Page {
            cells: Vec::with_capacity(alloc, WIDTH as usize)?,
            used: 0,
        })
    }

    /// Makes the cell of a place, with those before it.
    pub fn reach(&mut self, place: u32) -> Result<(), NoMemory>
        requires { IsCounted self.old }
        ensures same { (k : ℕ) → in_page self.new k ≡ in_page self.old k }
        ensures counted { IsCounted self.new }
        ensures reached { OnOk result (place < vec_len self.new.cells) }
    {
        reach(&mut self.cells, place as usize)
    }
}

/// The value in a cell that has one.
pub fn value_of<X>(cell: &mut Option<Kept<X>>) -> &mut X
    requires { IsSome cell.old }
    ensures* lends { sem 𝓛 (LendsValue X.row cell.entry result) }
    ensures value { Some result.now ≡ cell.old }
{
    match cell {
        Some(value) => value.get_mut(),
        None => unreachable!(),
    }
}

/// Lengthens a list to a place, with nothing there.
pub fn reach<X: Drop>(list: &mut Vec<Option<X>>, place: usize) -> Result<(), NoMemory>
    ensures same { (k : ℕ) → slice_index_or list.new.items k None ≡ slice_index_or list.old.items k None }
    ensures counted { count_by is_some list.new.items ≡ count_by is_some list.old.items }
    ensures reached { OnOk result (place < vec_len list.new) }
{
    while list.len() <= place {
        list.push(None)?;
    }
    Ok(())
}
