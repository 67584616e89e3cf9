ghost use Rattle.std.specs.Prelude.{◌≡◌, ℕ, None, OnOk};
ghost use Rattle.decl_headers.specs.Numbers.{as_number, number_of, IsPut, owned_number, IsOwnedPut};

use indexmap::IndexMap;
use lang_base::NoMemory;
use std::alloc::Global;

/// Numbers under names.
#[derive(Drop)]
pub struct NameNumbers {
    map: IndexMap<u32, u32>,
}

/// A name that belongs to something, as a region name to its class.
#[derive(Clone, Copy, Debug, PartialEq, Eq, Hash)]
struct Owned {
    owner: u32,
    name: u32,
}

/// Numbers under names that belong to something.
#[derive(Drop)]
pub struct OwnedNumbers {
    map: IndexMap<Owned, u32>,
}

/// A position as a number. A text has fewer than 4294967296 of anything.
pub fn number_at(position: usize) -> u32
    ensures { result ≡ as_number position }
{
    u32::try_from(position).unwrap_or(u32::MAX)
}

impl NameNumbers {
    pub fn new(alloc: Global) -> NameNumbers
        ensures { (name : ℕ) → number_of result name ≡ None }
    {
        NameNumbers {
            map: IndexMap::new(alloc),
        }
    }

    pub fn get(&self, name: u32) -> Option<u32>
        ensures { result ≡ number_of self.now name }
    {
        self.map.get(&name).copied()
    }

    /// Puts a number under a name, in the place of one that stands there.
    pub fn set(&mut self, name: u32, number: u32) -> Result<(), NoMemory>
        ensures { OnOk result (IsPut self.old name number self.new) }
    {
        let _ = self.map.insert(name, number)?;
        Ok(())
    }
}

impl OwnedNumbers {
    pub fn new(alloc: Global) -> OwnedNumbers
        ensures { (owner : ℕ) (name : ℕ) → owned_number result owner name ≡ None }
    {
        OwnedNumbers {
            map: IndexMap::new(alloc),
        }
    }

    pub fn get(&self, owner: u32, name: u32) -> Option<u32>
        ensures { result ≡ owned_number self.now owner name }
    {
        self.map.get(&Owned { owner, name }).copied()
    }

    /// Puts a number under a name, in the place of one that stands there.
    pub fn set(&mut self, owner: u32, name: u32, number: u32) -> Result<(), NoMemory>
        ensures { OnOk result (IsOwnedPut self.old owner name number self.new) }
    {
        let _ = self.map.insert(Owned { owner, name }, number)?;
        Ok(())
    }
}
