ghost use Rattle.std.specs.Prelude.{◌≡◌, ◌≤◌, ◌<◌, ◌+◌, [], length, IfOk, OnOk};

use indexmap::IndexSet;
use lang_base::{Bytes, Items, NoMemory};
use std::alloc::Global;
use std::marker::Model;

/// The distinct names met so far, in order of first occurrence.
#[derive(Drop)]
pub struct Names<'a> {
    known: IndexSet<&'a [u8]>,
}

impl<'a> Model for Names<'a> {
    ghost use Rattle.std.specs.Prelude.{List, ℕ, map};

    ghost Value = { List (List ℕ) };

    ghost view = { λ names. map (λ k. k.now) names.known.keys };
}

impl<'a> Names<'a> {
    ghost use Rattle.std.specs.Prelude.{Some, slice_get, IfOk, OnOk};
    ghost use Rattle.syntax_tokens.specs.Says.{with_name};

    pub fn new(alloc: Global) -> Names<'a>
        ensures { result ≡ [] }
    {
        Names {
            known: IndexSet::new(alloc),
        }
    }

    /// The position of a name, which goes last where it is new.
    pub fn number(&mut self, name: &'a [u8]) -> Result<u32, NoMemory>
        requires { length self.old < 2097152 }
        ensures count { OnOk result (length self.new ≤ length self.old + 1) }
        ensures noted { OnOk result (self.new ≡ with_name self.old name.now) }
        ensures place { IfOk result (λ number. slice_get self.new number ≡ Some name.now) }
    {
        let (number, _new) = self.known.insert_full(name)?;
        Ok(number as u32)
    }

    /// The names, each in memory of its own.
    pub fn into_items(self, alloc: Global) -> Result<Items<Bytes>, NoMemory>
        ensures { IfOk result (λ names. names ≡ self.entry) }
    {
        let Names { known } = self;
        let mut names = Items::new(alloc);
        for name in known.as_slice() {
            names.push(Bytes::from_slice(alloc, *name)?)?;
        }
        Ok(names)
    }
}
