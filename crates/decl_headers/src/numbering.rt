ghost use Rattle.std.specs.Prelude.{◌≡◌, ℕ, map, None, IfOk, OnOk};
ghost use Rattle.decl_headers.specs.Finding.{FindsRegions};
ghost use Rattle.decl_headers.specs.Numbering.{with_params, with_all_params};
ghost use Rattle.decl_headers.specs.Numbers.{owned_number};

use crate::header::{Header, ParamRow, RegionRow};
use crate::numbers::{OwnedNumbers, number_at};
use lang_base::{Items, NoMemory};
use std::alloc::Global;

/// The region parameters by their classes, numbered in each from 0.
pub fn number_params(alloc: Global, rows: &[Header]) -> Result<OwnedNumbers, NoMemory>
    ensures { IfOk result (λ numbers. (owner : ℕ) (name : ℕ) → owned_number numbers owner name ≡ with_all_params 0 rows.now owner name None) }
{
    let mut numbers = OwnedNumbers::new(alloc);
    for (at, row) in rows.iter().enumerate() {
        number_own_params(number_at(at), row.params.as_slice(), &mut numbers)?;
    }
    Ok(numbers)
}

fn number_own_params(
    class: u32,
    params: &[ParamRow],
    numbers: &mut OwnedNumbers,
) -> Result<(), NoMemory>
    ensures { OnOk result ((owner : ℕ) (name : ℕ) → owned_number numbers.new owner name ≡ with_params class 0 params.now owner name (owned_number numbers.old owner name)) }
{
    for (position, param) in params.iter().enumerate() {
        numbers.set(class, param.name, number_at(position))?;
    }
    Ok(())
}

/// The region names by their classes, numbered in the order of the text.
pub fn number_regions(alloc: Global, regions: &[RegionRow]) -> Result<OwnedNumbers, NoMemory>
    ensures { IfOk result (λ numbers. FindsRegions regions.now numbers) }
{
    let mut numbers = OwnedNumbers::new(alloc);
    for (at, row) in regions.iter().enumerate() {
        numbers.set(row.owner, row.name, number_at(at))?;
    }
    Ok(numbers)
}

/// Of each region name, whether it is declared atomic.
pub fn atomic_marks(alloc: Global, regions: &[RegionRow]) -> Result<Items<bool>, NoMemory>
    ensures { IfOk result (λ marks. marks ≡ map (λ row. row.is_atomic) regions.now) }
{
    let mut marks = Items::new(alloc);
    for row in regions {
        marks.push(row.is_atomic)?;
    }
    Ok(marks)
}
