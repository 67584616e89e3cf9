ghost use Rattle.std.specs.Prelude.{◌≡◌, ◌++◌, ◌∷◌, [], List, cond, IfOk, OnOk};
ghost use Rattle.lang_base.specs.declared.elems.Elem.{Elem as Element};
ghost use Rattle.lang_base.specs.Keys.{elems_eq};
ghost use Rattle.region_interfere.specs.Groups.{key_of};
ghost use Rattle.region_interfere.specs.InGroups.{group_of, in_group, in_no_group};

use crate::key::{Key, key_of, same_head};
use indexmap::IndexMap;
use lang_base::{Effect, Elem, Head, Items, NoMemory, Plain};
use std::alloc::Global;
use std::marker::Model;

/// A list of effects, by groups: it gives those that an effect may meet. A contract sees how they are put into
/// groups, and the list.
#[derive(Debug, Drop)]
pub struct ByGroup<'a> {
    key: Key,
    effects: &'a [Effect],
    /// Copies of the effects that belong to a group, each group under the elements that they have in common.
    keyed: IndexMap<&'a [Elem], Items<Effect>>,
    /// Copies of those that belong to none.
    unkeyed: Items<Effect>,
}

impl<'a> Model for ByGroup<'a> {
    ghost use Rattle.std.specs.Prelude.{List};
    ghost use Rattle.lang_base.specs.declared.effect.Effect.{Effect};
    ghost use Rattle.region_interfere.specs.declared.key.Key.{Key};
    ghost use Rattle.region_interfere.specs.InGroups.{Sorted};

    ghost Value = { Key × List Effect };

    ghost view = { λ it. (it.key, it.effects.now) };

    ghost invariant = { λ it. Sorted it.key it.keyed it.unkeyed it.effects.now };
}

impl<'a> ByGroup<'a> {
    /// The effects by the first elements of the paths that have the head of most of them, or by the last elements
    /// of all, as fewer pairs are left to compare.
    pub fn new(alloc: Global, effects: &'a [Effect]) -> Result<ByGroup<'a>, NoMemory>
        ensures { IfOk result (λ made. made.1 ≡ effects.now) }
    {
        let head = majority_head(effects);
        let first = ByGroup::by(alloc, effects, Key::First(head))?;
        let last = ByGroup::by(alloc, effects, Key::Last)?;
        Ok(if last.pairs() < first.pairs() {
            last
        } else {
            first
        })
    }

    fn by(alloc: Global, effects: &'a [Effect], key: Key) -> Result<ByGroup<'a>, NoMemory>
        ensures { IfOk result (λ made. made.1 ≡ effects.now) }
    {
        let mut keyed = IndexMap::new(alloc);
        let mut unkeyed = Items::new(alloc);
        for e in effects {
            match key_of(key, e) {
                None => unkeyed.push(e.copy(alloc)?)?,
                Some(common) => put(alloc, &mut keyed, common, e.copy(alloc)?)?,
            }
        }
        Ok(ByGroup {
            key,
            effects,
            keyed,
            unkeyed,
        })
    }

    /// How many pairs there are of an effect of the list and one that it may meet.
    fn pairs(&self) -> usize {
        let mut pairs = 0usize;
        for e in self.effects {
            pairs = pairs
                .saturating_add(self.in_group(e).len())
                .saturating_add(self.in_no_group(e).len());
        }
        pairs
    }

    /// The effects of the same group as this one; all of them where this one belongs to none.
    pub fn in_group(&self, e: &Effect) -> &[Effect]
        ensures { result.now ≡ in_group self.now.0 (key_of self.now.0 e.now) self.now.1 }
    {
        match key_of(self.key, e) {
            None => self.effects,
            Some(common) => match self.keyed.get(common) {
                None => &[],
                Some(group) => group.as_slice(),
            },
        }
    }

    /// The effects that belong to no group; none where this one doesn't either, since it finds all in `in_group`.
    pub fn in_no_group(&self, e: &Effect) -> &[Effect]
        ensures { result.now ≡ in_no_group self.now.0 (key_of self.now.0 e.now) self.now.1 }
    {
        match key_of(self.key, e) {
            None => &[],
            Some(_) => self.unkeyed.as_slice(),
        }
    }
}

/// The head of more than half of the effects, if there is such a head.
fn majority_head(effects: &[Effect]) -> Head {
    let mut head = Head::Root;
    let mut lead = 0usize;
    for e in effects {
        if lead == 0 {
            head = e.rpl.head;
        }
        lead = if same_head(e.rpl.head, head) {
            lead.saturating_add(1)
        } else {
            lead.saturating_sub(1)
        };
    }
    head
}

/// Puts an effect last in the group of those with these elements in common.
fn put<'a>(
    alloc: Global,
    keyed: &mut IndexMap<&'a [Elem], Items<Effect>>,
    common: &'a [Elem],
    e: Effect,
) -> Result<(), NoMemory>
    ensures { OnOk result ((q : List Element) → group_of keyed.new q ≡ cond (elems_eq common.now q) (group_of keyed.old q ++ e ∷ []) (group_of keyed.old q)) }
{
    if let Some(group) = keyed.get_mut(common) {
        group.push(e)?;
        return Ok(());
    }
    let mut group = Items::new(alloc);
    group.push(e)?;
    let _ = keyed.insert(common, group)?;
    Ok(())
}
