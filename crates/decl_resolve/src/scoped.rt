ghost use Rattle.std.specs.Prelude.{◌≡◌, ◌↔◌, ◌++◌, ◌∷◌, ◌-◌, ℕ, [], Some, length, take, IsTrue, IsSome, OnOk, OnErr};
ghost use Rattle.std.specs.BTreeMap.{get};
ghost use Rattle.std.specs.Option.{option_copied};
ghost use Rattle.std.specs.Ordering.{nat_cmp};
ghost use Rattle.decl_resolve.specs.Names.{last_place, plain_names, HasMoved, KnowHidden, ShowsLast};

use lang_base::{Items, NoMemory};
use std::alloc::Global;
use std::collections::BTreeMap;
use std::marker::Model;

/// Names in scope, each with a value, in the order in which they came. Of two equal names the later is meant.
/// A contract sees the names and the values.
pub struct Scoped<T> {
    kept: Kept<T>,
}

// By hand, so that letting one go is one call to what is proved of a caller.
impl<T: Drop> Drop for Scoped<T> {
    fn drop(self) {
        let Scoped { kept: _ } = self;
    }
}

/// The names and the values as they are kept, with the place of the last of each name.
#[derive(Drop)]
struct Kept<T> {
    names: Items<Named>,
    values: Items<T>,
    spots: BTreeMap<u32, usize>,

    ghost valued: { length values ≡ length names },
    ghost hidden: { KnowHidden names },
    ghost shown: { ShowsLast names spots },
}

#[derive(Clone, Copy, Debug, PartialEq, Eq)]
struct Named {
    name: u32,
    /// The place of the one before it with the same name.
    hidden: Option<usize>,
}

impl<T> Model for Scoped<T> {
    ghost use Rattle.decl_resolve.specs.Names.{Names, names_code, plain_names};

    ghost Value = { Names T };

    ghost coded = { names_code T.code };

    ghost view = { λ scoped. record { names = plain_names scoped.kept.names; values = scoped.kept.values } };
}

impl<T> Scoped<T> {
    ghost use Rattle.decl_resolve.specs.Scoped.{no_names, values_in, place_in, value_in};

    /// No names, which takes no memory.
    pub fn new(alloc: Global) -> Scoped<T>
        ensures { result ≡ no_names }
    {
        Scoped {
            kept: Kept {
                names: Items::new(alloc),
                values: Items::new(alloc),
                spots: BTreeMap::new(alloc),
            },
        }
    }

    pub fn len(&self) -> usize
        ensures { result ≡ length (values_in self.now) }
    {
        self.kept.values.len()
    }

    pub fn is_empty(&self) -> bool
        ensures { IsTrue result ↔ (values_in self.now ≡ []) }
    {
        self.kept.values.is_empty()
    }

    /// The values, in the order in which their names came.
    pub fn values(&self) -> &[T]
        ensures { result.now ≡ values_in self.now }
    {
        self.kept.values.as_slice()
    }

    /// The place among all names, from 0, of the last of that name.
    pub fn place(&self, name: u32) -> Option<usize>
        ensures { result ≡ place_in self.now name }
    {
        self.kept.place(name)
    }

    /// The value of the last of that name.
    pub fn get(&self, name: u32) -> Option<&T>
        ensures { option_copied result ≡ value_in self.now name }
    {
        self.kept.values.get(self.place(name)?)
    }
}

impl<T: Drop> Scoped<T> {
    ghost use Rattle.decl_resolve.specs.Scoped.{with_name, names_left};

    /// Puts a name in scope.
    pub fn enter(&mut self, name: u32, value: T) -> Result<(), NoMemory>
        ensures entered { OnOk result (self.new ≡ with_name self.old name value) }
        ensures same { OnErr result (self.new ≡ self.old) }
    {
        self.kept.enter(name, value)
    }

    /// Takes all names but the first `len` out of scope.
    pub fn leave(&mut self, len: usize)
        ensures { self.new ≡ names_left self.old len }
    {
        self.kept.leave(len);
    }
}

impl<T> Kept<T> {
    fn place(&self, name: u32) -> Option<usize>
        ensures { result ≡ last_place (plain_names self.now.names) name }
    {
        self.spots.get(&name).copied()
    }
}

impl<T: Drop> Kept<T> {
    fn enter(&mut self, name: u32, value: T) -> Result<(), NoMemory>
        ensures names { OnOk result (plain_names self.new.names ≡ plain_names self.old.names ++ name ∷ []) }
        ensures values { OnOk result (self.new.values ≡ self.old.values ++ value ∷ []) }
        ensures same_names { OnErr result (plain_names self.new.names ≡ plain_names self.old.names) }
        ensures same_values { OnErr result (self.new.values ≡ self.old.values) }
    {
        let hidden = self.place(name);
        let place = self.values.len();
        self.values.push(value)?;
        if self.names.push(Named { name, hidden }).is_err() {
            let _ = self.values.pop();
            return Err(NoMemory);
        }
        if put_spot(&mut self.spots, name, place).is_err() {
            let _ = self.values.pop();
            let _ = self.names.pop();
            return Err(NoMemory);
        }
        Ok(())
    }

    fn leave(&mut self, len: usize)
        ensures names { plain_names self.new.names ≡ take len (plain_names self.old.names) }
        ensures values { self.new.values ≡ take len self.old.values }
    {
        for _ in len..self.values.len() {
            self.leave_last();
        }
    }

    fn leave_last(&mut self)
        ensures names { plain_names self.new.names ≡ take (length (plain_names self.old.names) - 1) (plain_names self.old.names) }
        ensures values { self.new.values ≡ take (length self.old.values - 1) self.old.values }
    {
        let Some(last) = self.names.pop() else {
            return;
        };
        let _ = self.values.pop();
        move_spot(&mut self.spots, last.name, last.hidden);
    }
}

/// Puts a place under a name.
fn put_spot(spots: &mut BTreeMap<u32, usize>, name: u32, place: usize) -> Result<(), NoMemory>
    ensures put { OnOk result (HasMoved spots.old name (Some place) spots.new) }
    ensures same { OnErr result ((other : ℕ) → get nat_cmp spots.new other ≡ get nat_cmp spots.old other) }
{
    let _ = spots.insert(name, place)?;
    Ok(())
}

/// Puts another place under a name that has one, or none.
fn move_spot(spots: &mut BTreeMap<u32, usize>, name: u32, place: Option<usize>)
    ensures { IsSome (get nat_cmp spots.old name) → HasMoved spots.old name place spots.new }
{
    match place {
        None => {
            let _ = spots.remove(&name);
        }
        Some(place) => {
            if let Some(spot) = spots.get_mut(&name) {
                *spot = place;
            }
        }
    }
}
