ghost use Rattle.std.specs.Prelude.{◌≡◌, ◌-◌, ◌∷◌, ◌++◌, [], length, take, IfOk, OnOk, None};
ghost use Rattle.std.specs.Option.{option_copied};
ghost use Rattle.lang_typed.specs.Plain.{plain_expr};
ghost use Rattle.lang_typed.specs.Typing.{index_elem};
ghost use Rattle.body_infer.specs.Walked.{scope_of, last_of, is_constant_in, path_in, known_of};

use indexmap::IndexMap;
use lang_base::{Elem, Index, Items, NoMemory, Plain, Rpl};
use lang_typed::{Expr, ExprForm, Slot};
use std::alloc::Global;
use std::marker::Model;

/// What a walk knows of a slot.
#[derive(Drop)]
pub enum Known {
    /// Nothing that an effect depends on.
    Hidden,
    /// A local that keeps its value, and may stand in an index.
    Constant,
    /// A part of an array whose elements lie in this region path.
    Part(Rpl),
}

/// A slot that came into scope.
#[derive(Drop)]
pub struct Placed {
    pub slot: u64,
    pub known: Known,
}

/// A slot that came into scope, and where the one stands that it hides: the last before it under the same number.
#[derive(Drop)]
struct Entry {
    placed: Placed,
    hidden: Option<usize>,
}

/// What is in scope at a place of a body; what came last stands last. A contract sees the list, and not where a slot is
/// found in it.
#[derive(Drop)]
pub struct Scope {
    entries: Items<Entry>,
    /// Where the last entry of each slot stands. One that has left scope stands nowhere.
    places: IndexMap<u64, Option<usize>>,
}

impl Model for Scope {
    ghost use Rattle.std.specs.Prelude.{List};
    ghost use Rattle.body_infer.specs.declared.scope.Placed.{Placed};
    ghost use Rattle.body_infer.specs.Places.{placed_in, FindsPlaces};

    ghost Value = { List Placed };

    ghost view = { λ scope. placed_in scope.entries };

    ghost invariant = { λ scope. FindsPlaces scope.entries scope.places };
}

impl Scope {
    pub fn new(alloc: Global) -> Scope
        ensures { result ≡ [] }
    {
        Scope {
            entries: Items::new(alloc),
            places: IndexMap::new(alloc),
        }
    }

    pub fn len(&self) -> usize
        ensures { result ≡ length self.now }
    {
        self.entries.len()
    }

    pub fn put(&mut self, slot: u64, known: Known) -> Result<(), NoMemory>
        ensures { OnOk result (self.new ≡ self.old ++ (record { slot = slot; known = known }) ∷ []) }
    {
        // With room in the map, nothing can fail once the entry stands there.
        self.places.reserve(1)?;
        let place = self.entries.len();
        let hidden = self.places.get(&slot).copied().flatten();
        let placed = Placed { slot, known };
        self.entries.push(Entry { placed, hidden })?;
        let _ = self.places.insert(slot, Some(place))?;
        Ok(())
    }

    /// Forgets what came into scope after the first `len`.
    #[tactic(auto, using(crate::proofs::Places::leaving))]
    pub fn leave(&mut self, len: usize)
        ensures { self.new ≡ take len self.old }
    {
        while self.len() > len {
            self.forget_last();
        }
    }

    /// Forgets what came last into scope. What it hid is found again.
    fn forget_last(&mut self)
        ensures { self.new ≡ take (length self.old - 1) self.old }
    {
        let Some(last) = self.entries.pop() else {
            return;
        };
        let _ = self.places.insert(last.placed.slot, last.hidden);
    }

    /// What came last into scope under a slot.
    #[tactic(auto, using(crate::proofs::Places::finding))]
    fn find(&self, slot: u32) -> Option<&Known>
        ensures { option_copied result ≡ last_of slot None self.now }
    {
        let place = self.places.get(&(slot as u64)).copied().flatten()?;
        let entry = self.entries.get(place)?;
        Some(&entry.placed.known)
    }

    #[tactic(auto, using(crate::proofs::Reading::found_local))]
    fn is_constant(&self, slot: u32) -> bool
        ensures { result ≡ is_constant_in (scope_of self.now) slot }
    {
        matches!(self.find(slot), Some(Known::Constant))
    }

    /// How an index stands in a region path: a literal, a local that keeps its value, or else any index.
    #[tactic(auto, using(crate::proofs::Reading::found_local))]
    pub fn index(&self, index: &Expr) -> Elem
        ensures { result ≡ index_elem (scope_of self.now) (plain_expr index.now) }
    {
        match &index.form {
            ExprForm::Int(number) => Elem::At(Index::Literal(*number)),
            ExprForm::Local(slot) if self.is_constant(slot.number) => {
                Elem::At(Index::Variable(slot.number))
            }
            _ => Elem::Any,
        }
    }

    /// A copy of the region path of a part.
    #[tactic(auto, using(crate::proofs::Reading::found_local))]
    pub fn part_copy(&self, alloc: Global, slot: Slot) -> Result<Option<Rpl>, NoMemory>
        ensures { IfOk result (λ path. path ≡ path_in (scope_of self.now) slot.number) }
    {
        match self.find(slot.number) {
            Some(Known::Part(rpl)) => Ok(Some(rpl.copy(alloc)?)),
            _ => Ok(None),
        }
    }

    /// A copy of what is known of a slot.
    #[tactic(auto, using(crate::proofs::Reading::found_local))]
    pub fn known_copy(&self, alloc: Global, slot: Slot) -> Result<Known, NoMemory>
        ensures { IfOk result (λ known. known ≡ known_of (last_of slot.number None self.now)) }
    {
        match self.find(slot.number) {
            Some(Known::Part(rpl)) => Ok(Known::Part(rpl.copy(alloc)?)),
            Some(Known::Constant) => Ok(Known::Constant),
            _ => Ok(Known::Hidden),
        }
    }
}
