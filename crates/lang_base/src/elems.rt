ghost use Rattle.std.specs.Prelude.{◌≡◌, ◌↔◌, ◌<◌, ◌∷◌, ◌++◌, [], length, slice_set, IsTrue, IfOk, OnOk, OnErr};

use crate::memory::NoMemory;
use crate::plain::Plain;
use smallvec::SmallVec;
use std::alloc::Global;
use std::hash::{Hash, Hasher};
use std::marker::Model;

/// An index in a region path.
#[derive(Clone, Copy, Debug, PartialEq, Eq, Hash)]
pub enum Index {
    /// A whole number.
    Literal(i32),
    /// A local that keeps its value, by its slot.
    Variable(u32),
    /// The renamed copy of a loop variable: what the variable of that slot is in another iteration.
    Renamed(u32),
    /// The index name of an array type around, counted from the inside: 0 is the innermost. So types that differ
    /// in the spelling of index names alone are equal, and nothing that is put into a type is captured by one.
    Own(u32),
}

/// One element of a region path.
#[derive(Clone, Copy, Debug, PartialEq, Eq, Hash)]
pub enum Elem {
    /// A declared region name, by its number.
    Name(u32),
    /// One index, as in `[k]`.
    At(Index),
    /// The index `[?]`, which stands for any one index.
    Any,
    /// `*`, which stands for any sequence of elements.
    Star,
    /// A local region. In a text: the number of its declaration in its body, and 0. In a run: the number
    /// of the task that made it, and its count there, from 1.
    Local(u32, u32),
}

/// `*`, which a small vector puts into the places that hold nothing yet.
impl Default for Elem {
    fn default() -> Elem {
        Elem::Star
    }
}

/// The elements of a region path, short ones kept in place. A contract sees the list alone.
#[derive(Debug)]
pub struct Elems {
    items: SmallVec<Elem, 4>,
}

// By hand, so that letting one go is one call to what is proved of a caller.
impl Drop for Elems {
    fn drop(self) {
        let Elems { items: _ } = self;
    }
}

impl Model for Elems {
    ghost use Rattle.std.specs.Prelude.{List};
    ghost use Rattle.lang_base.specs.declared.elems.Elem.{Elem};

    ghost Value = { List Elem };

    ghost view = { λ e. e.items.items };
}

impl Elems {
    /// No elements, which takes no memory.
    pub fn new(alloc: Global) -> Elems
        ensures { result ≡ [] }
    {
        Elems {
            items: SmallVec::new(alloc),
        }
    }

    pub fn from_slice(alloc: Global, elems: &[Elem]) -> Result<Elems, NoMemory>
        ensures { IfOk result (λ e. e ≡ elems.now) }
    {
        Ok(Elems {
            items: SmallVec::from_slice(alloc, elems)?,
        })
    }

    pub fn as_slice(&self) -> &[Elem]
        ensures { result.now ≡ self.now }
    {
        self.items.as_slice()
    }

    pub fn len(&self) -> usize
        ensures { result ≡ length self.now }
    {
        self.items.len()
    }

    pub fn is_empty(&self) -> bool
        ensures { IsTrue result ↔ (self.now ≡ []) }
    {
        self.items.is_empty()
    }

    /// Puts an element last. When memory runs out, the elements are as they were.
    pub fn push(&mut self, elem: Elem) -> Result<(), NoMemory>
        ensures ok { OnOk result (self.new ≡ self.old ++ elem ∷ []) }
        ensures err { OnErr result (self.new ≡ self.old) }
    {
        self.items.push(elem)?;
        Ok(())
    }

    /// Puts elements after the last. When memory runs out, the elements are as they were.
    pub fn extend(&mut self, more: &[Elem]) -> Result<(), NoMemory>
        ensures ok { OnOk result (self.new ≡ self.old ++ more.now) }
        ensures err { OnErr result (self.new ≡ self.old) }
    {
        self.items.extend_from_slice(more)?;
        Ok(())
    }

    /// Puts an element in the place of another.
    pub fn set(&mut self, at: usize, elem: Elem)
        requires { at < length self.old }
        ensures { self.new ≡ slice_set self.old at elem }
    {
        self.items[at] = elem;
    }
}

// Compared and hashed as the list, which is all that a contract sees.
impl PartialEq for Elems {
    ghost use Rattle.lang_base.specs.Keys.{elems_eq, elems_eq_partial_equiv};

    ghost eq = { elems_eq };

    ghost laws = { elems_eq_partial_equiv };

    fn eq(&self, other: &Elems) -> bool {
        self.as_slice() == other.as_slice()
    }
}

impl Eq for Elems {
    ghost use Rattle.lang_base.specs.Keys.{elems_eq_equiv};

    ghost laws = { elems_eq_equiv };
}

impl Hash for Elems {
    ghost use Rattle.lang_base.specs.Keys.{elems_input, elems_alike};

    ghost hash_input = { elems_input };

    ghost respects_eq = { elems_alike };

    fn hash<H: Hasher>(&self, state: &mut H) {
        self.as_slice().hash(state);
    }
}

impl Plain for Elems {
    fn copy(&self, alloc: Global) -> Result<Elems, NoMemory> {
        Elems::from_slice(alloc, self.as_slice())
    }

    fn same(&self, other: &Elems) -> bool {
        self.as_slice() == other.as_slice()
    }
}
