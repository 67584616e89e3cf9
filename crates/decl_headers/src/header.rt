ghost use Rattle.std.specs.Prelude.{◌≡◌, ◌↔◌, [], IsTrue, IfOk, length, map};
ghost use Rattle.std.specs.Option.{option_copied};
ghost use Rattle.decl_headers.specs.Finding.{FindsClasses};
ghost use Rattle.decl_headers.specs.Headers.{class_of, header_of, parent_of, class_count, param_of, own_region, region_of, regions_of, atomic_regions, is_below, main_of, parents_of};
ghost use Rattle.decl_headers.specs.Way.{IsCounted, IsForest, way_of};

use crate::forest::{Step, way};
use crate::numbering::{atomic_marks, number_params, number_regions};
use crate::numbers::{NameNumbers, OwnedNumbers};
use lang_base::{Items, NoMemory, Place, Plain};
use std::alloc::Global;
use std::marker::Model;

/// A region parameter of a class or a method.
#[derive(Clone, Copy, Debug, PartialEq, Eq)]
pub struct ParamRow {
    pub name: u32,
    pub atomic: bool,
}

/// What a class is, without its members.
#[derive(Drop)]
pub struct Header {
    pub name: u32,
    pub place: Place,
    /// The superclass.
    pub parent: Option<u32>,
    pub params: Items<ParamRow>,
    /// How many fields an object of the class has, inherited ones included.
    pub fields: u32,
}

/// A region name, where a class declares it.
#[derive(Clone, Copy, Debug, PartialEq, Eq)]
pub struct RegionRow {
    /// The class.
    pub owner: u32,
    pub name: u32,
    pub is_atomic: bool,
}

/// The headers of all classes of a program. A class is known by its position in the text, and so is a region name.
/// A contract sees the rows, and not the maps by which they are found.
#[derive(Drop)]
pub struct Headers {
    rows: Items<Header>,
    regions: Items<RegionRow>,
    main_name: Option<u32>,
    classes: NameNumbers,
    params: OwnedNumbers,
    region_numbers: OwnedNumbers,
    atomic: Items<bool>,
}

impl Model for Headers {
    ghost use Rattle.decl_headers.specs.Headers.{PlainHeaders};

    ghost Value = { PlainHeaders };

    ghost use Rattle.decl_headers.specs.Finding.{Finds};
    ghost use Rattle.decl_headers.specs.Way.{IsForest};
    ghost use Rattle.std.specs.Prelude.{map};

    ghost view = { λ h. record { rows = h.rows; regions = h.regions; main = h.main_name } };

    ghost invariant = { λ h. Finds h.rows h.regions h.classes h.params h.region_numbers h.atomic × IsForest (map (λ row. row.parent) h.rows) };
}

impl Headers {
    /// The headers of these rows, of which `classes` has the first of each name. No class is its own superclass.
    pub fn of_rows(
        alloc: Global,
        rows: Items<Header>,
        regions: Items<RegionRow>,
        classes: NameNumbers,
        main_name: Option<u32>,
    ) -> Result<Headers, NoMemory>
        requires forest { IsForest (map (λ row. row.parent) rows) }
        requires found { FindsClasses rows classes }
        ensures { IfOk result (λ headers. headers ≡ record { rows = rows; regions = regions; main = main_name }) }
    {
        let params = number_params(alloc, rows.as_slice())?;
        let region_numbers = number_regions(alloc, regions.as_slice())?;
        let atomic = atomic_marks(alloc, regions.as_slice())?;
        Ok(Headers {
            rows,
            regions,
            main_name,
            classes,
            params,
            region_numbers,
            atomic,
        })
    }

    /// How many classes there are.
    pub fn len(&self) -> usize
        ensures { result ≡ class_count self.now }
    {
        self.rows.len()
    }

    pub fn is_empty(&self) -> bool
        ensures { IsTrue result ↔ (class_count self.now ≡ 0) }
    {
        self.rows.is_empty()
    }

    /// The class of that name.
    pub fn class(&self, name: u32) -> Option<u32>
        ensures { result ≡ class_of self.now name }
    {
        self.classes.get(name)
    }

    pub fn header(&self, class: u32) -> Option<&Header>
        ensures { option_copied result ≡ header_of self.now class }
    {
        self.rows.get(class as usize)
    }

    /// The superclass.
    pub fn parent(&self, class: u32) -> Option<u32>
        ensures { result ≡ parent_of self.now class }
    {
        self.header(class)?.parent
    }

    /// The region parameter of that name which the class itself declares, by its position among them.
    pub fn param(&self, class: u32, name: u32) -> Option<u32>
        ensures { result ≡ param_of self.now class name }
    {
        self.params.get(class, name)
    }

    /// The region name's number, where the class or a superclass declares it.
    pub fn region(&self, class: u32, name: u32) -> Option<u32>
        ensures { result ≡ region_of self.now class name }
    {
        let mut at = class;
        for _step in 0..self.len() {
            if let Some(id) = self.own_region(at, name) {
                return Some(id);
            }
            at = self.parent(at)?;
        }
        None
    }

    /// The region name's number, where the class itself declares it.
    fn own_region(&self, class: u32, name: u32) -> Option<u32>
        ensures { result ≡ own_region self.now class name }
    {
        self.region_numbers.get(class, name)
    }

    /// All region names, by their numbers.
    pub fn region_rows(&self) -> &[RegionRow]
        ensures { result.now ≡ regions_of self.now }
    {
        self.regions.as_slice()
    }

    /// Of each region name, by its number, whether it is declared atomic.
    pub fn atomic_names(&self) -> &[bool]
        ensures { result.now ≡ atomic_regions self.now }
    {
        self.atomic.as_slice()
    }

    /// Whether a class is the other one, or has it for a superclass, directly or further up.
    pub fn is_below(&self, class: u32, other: u32) -> bool
        ensures { result ≡ is_below self.now class other }
    {
        let mut at = class;
        for _step in 0..self.len() {
            if at == other {
                return true;
            }
            let Some(above) = self.parent(at) else {
                return false;
            };
            at = above;
        }
        false
    }

    /// The way through all classes, each entered after its superclass and left after all that extends it.
    pub fn way(&self, alloc: Global) -> Result<Items<Step>, NoMemory>
        ensures forest { IsForest (parents_of self.now) }
        ensures steps { IfOk result (λ steps. steps ≡ way_of (parents_of self.now)) }
    {
        let mut parents = Items::new(alloc);
        for row in self.rows.as_slice() {
            parents.push(row.parent)?;
        }
        way(alloc, parents.as_slice())
    }

    /// The number of the name `Main`, where the text has it.
    pub fn main_name(&self) -> Option<u32>
        ensures { result ≡ main_of self.now }
    {
        self.main_name
    }
}

impl Plain for ParamRow {
    fn copy(&self, _alloc: Global) -> Result<ParamRow, NoMemory> {
        Ok(*self)
    }

    fn same(&self, other: &ParamRow) -> bool {
        self.name == other.name && self.atomic == other.atomic
    }
}
