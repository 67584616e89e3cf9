ghost use Rattle.std.specs.Prelude.{◌≡◌, ◌↔◌, [], true, length, IsTrue, IfOk, OnOk, OnErr};
ghost use Rattle.lang_base.specs.Effects.{same_effect, has_effect, some_covers, set_covers, added, gathered, all_marked, with_mark};
ghost use Rattle.region_effects.specs.Listed.{listed};

use crate::effect::covers;
use indexmap::IndexSet;
use lang_base::{Access, Effect, Items, NoMemory, Plain};
use std::alloc::Global;
use std::marker::Model;

/// Up to so many effects are looked through, which takes less than to hash them.
const FEW: usize = 8;

/// What an effect of one path can be: an access, marked or not.
const KINDS: [(Access, bool); 4] = [
    (Access::Write, false),
    (Access::Write, true),
    (Access::Read, false),
    (Access::Read, true),
];

/// The effects of a set: a list as long as they are few, as in most sets, since a hash table would take four blocks of
/// memory for the first of them.
#[derive(Debug)]
enum Effects {
    Few(Items<Effect>),
    Many(IndexSet<Effect>),
}

/// Distinct effects, in the order in which they were added. A contract sees the list.
#[derive(Debug)]
pub struct EffectSet {
    effects: Effects,
    alloc: Global,
}

// By hand, so that letting one go is one call to what is proved of a caller.
impl Drop for Effects {
    fn drop(self) {
        match self {
            Effects::Few(_) => {}
            Effects::Many(_) => {}
        }
    }
}

impl Drop for EffectSet {
    fn drop(self) {
        let EffectSet {
            effects: _,
            alloc: _,
        } = self;
    }
}

impl Model for EffectSet {
    ghost use Rattle.std.specs.Prelude.{List};
    ghost use Rattle.lang_base.specs.declared.effect.Effect.{Effect};
    ghost use Rattle.std.specs.List.{IsDistinct};
    ghost use Rattle.region_effects.specs.Listed.{listed, effect_eq};

    ghost Value = { List Effect };

    ghost view = { λ set. listed set.effects };

    ghost invariant = { λ set. IsDistinct effect_eq (listed set.effects) };
}

impl Effects {
    fn into_items(self, alloc: Global) -> Result<Items<Effect>, NoMemory>
        ensures { IfOk result (λ items. items ≡ listed self) }
    {
        let many = match self {
            Effects::Few(effects) => return Ok(effects),
            Effects::Many(effects) => effects,
        };
        let mut items = Items::new(alloc);
        for e in many {
            items.push(e)?;
        }
        Ok(items)
    }
}

impl EffectSet {
    /// No effects, which takes no memory.
    pub fn new(alloc: Global) -> EffectSet
        ensures { result ≡ [] }
    {
        EffectSet {
            effects: Effects::Few(Items::new(alloc)),
            alloc,
        }
    }

    pub fn as_slice(&self) -> &[Effect]
        ensures { result.now ≡ self.now }
    {
        match &self.effects {
            Effects::Few(effects) => effects.as_slice(),
            Effects::Many(effects) => effects.as_slice(),
        }
    }

    pub fn len(&self) -> usize
        ensures { result ≡ length self.now }
    {
        self.as_slice().len()
    }

    pub fn is_empty(&self) -> bool
        ensures { IsTrue result ↔ (self.now ≡ []) }
    {
        self.as_slice().is_empty()
    }

    /// Puts the effect last, unless it is there already. If memory runs out, the set is as it was.
    pub fn add(&mut self, e: Effect) -> Result<(), NoMemory>
        ensures ok { OnOk result (self.new ≡ added self.old e) }
        ensures err { OnErr result (self.new ≡ self.old) }
    {
        match &mut self.effects {
            Effects::Few(effects) => {
                if among(effects.as_slice(), &e) {
                    return Ok(());
                }
                if effects.len() < FEW {
                    effects.push(e)?;
                    return Ok(());
                }
            }
            Effects::Many(effects) => {
                effects.insert(e)?;
                return Ok(());
            }
        }
        self.add_to_many(e)
    }

    /// The same, where the effects are hashed from now on.
    fn add_to_many(&mut self, e: Effect) -> Result<(), NoMemory>
        ensures ok { OnOk result (self.new ≡ added self.old e) }
        ensures err { OnErr result (self.new ≡ self.old) }
    {
        let mut many = hashed(self.alloc, self.as_slice())?;
        many.insert(e)?;
        self.effects = Effects::Many(many);
        Ok(())
    }

    /// Whether the effect is in the set. It takes no memory.
    pub fn has(&self, e: &Effect) -> bool
        ensures { result ≡ has_effect self.now e.now }
    {
        match &self.effects {
            Effects::Few(effects) => among(effects.as_slice(), e),
            Effects::Many(effects) => effects.contains(e),
        }
    }

    /// Whether the set has this effect, or another of the same path that covers it: most are covered so. Another is
    /// looked up by a copy of the path, and without memory for that the answer is no.
    fn covers_beside(&self, f: &Effect) -> bool
        ensures { IsTrue result → IsTrue (some_covers self.now f.now) }
    {
        if self.has(f) {
            return true;
        }
        let Ok(mut other) = f.copy(self.alloc) else {
            return false;
        };
        for (access, atomic) in KINDS {
            other.access = access;
            other.atomic = atomic;
            if covers(&other, f) && self.has(&other) {
                return true;
            }
        }
        false
    }

    /// Whether some effect of the set covers this one. It takes no memory but for a copy of a path of many elements, and
    /// does without where there is none.
    pub fn covers_effect(&self, f: &Effect) -> bool
        ensures { result ≡ some_covers self.now f.now }
    {
        (self.len() > FEW && self.covers_beside(f)) || some_covers(self.as_slice(), f)
    }

    /// Whether each effect of the other set is covered by one of this. It takes memory as `covers_effect` does.
    pub fn set_covers(&self, other: &EffectSet) -> bool
        ensures { result ≡ set_covers self.now other.now }
    {
        for f in other.as_slice() {
            if !self.covers_effect(f) {
                return false;
            }
        }
        true
    }

    /// Adds another set's effects, one after another. If memory runs out, some of them may be there. An empty set takes the
    /// other one whole.
    pub fn take_all(&mut self, other: EffectSet) -> Result<(), NoMemory>
        ensures { OnOk result (self.new ≡ gathered self.old other) }
    {
        if self.is_empty() {
            // The proof knows from here that the effects are distinct.
            let _ = &other.effects;
            *self = other;
            return Ok(());
        }
        for e in other.into_items()?.into_vec() {
            self.add(e)?;
        }
        Ok(())
    }

    /// The effects themselves as a list. Few of them take no memory.
    pub fn into_items(self) -> Result<Items<Effect>, NoMemory>
        ensures { IfOk result (λ items. items ≡ self) }
    {
        let EffectSet { effects, alloc } = self;
        effects.into_items(alloc)
    }

    /// The same effects, each marked, each once and at its first place.
    pub fn marked(&self, alloc: Global) -> Result<EffectSet, NoMemory>
        ensures { IfOk result (λ set. set ≡ all_marked true self.now) }
    {
        let mut set = EffectSet::new(alloc);
        for e in self.as_slice() {
            set.add(marked(alloc, e)?)?;
        }
        Ok(set)
    }
}

impl Plain for EffectSet {
    fn copy(&self, alloc: Global) -> Result<EffectSet, NoMemory> {
        let effects = match &self.effects {
            Effects::Few(effects) => Effects::Few(effects.copy(alloc)?),
            Effects::Many(effects) => Effects::Many(hashed(alloc, effects.as_slice())?),
        };
        Ok(EffectSet { effects, alloc })
    }

    fn same(&self, other: &EffectSet) -> bool {
        self.as_slice() == other.as_slice()
    }
}

fn same(e: &Effect, f: &Effect) -> bool
    ensures { result ≡ same_effect e.now f.now }
{
    *e == *f
}

fn among(effects: &[Effect], e: &Effect) -> bool
    ensures { result ≡ has_effect effects.now e.now }
{
    for f in effects {
        if same(f, e) {
            return true;
        }
    }
    false
}

/// Copies of the effects, each once, hashed.
fn hashed(alloc: Global, effects: &[Effect]) -> Result<IndexSet<Effect>, NoMemory>
    ensures { IfOk result (λ set. set.keys ≡ gathered [] effects.now) }
{
    let mut set = IndexSet::new(alloc);
    for e in effects {
        set.insert(e.copy(alloc)?)?;
    }
    Ok(set)
}

fn some_covers(effects: &[Effect], f: &Effect) -> bool
    ensures { result ≡ some_covers effects.now f.now }
{
    for e in effects {
        if covers(e, f) {
            return true;
        }
    }
    false
}

fn marked(alloc: Global, e: &Effect) -> Result<Effect, NoMemory>
    ensures { IfOk result (λ made. made ≡ with_mark true e.now) }
{
    Ok(Effect {
        access: e.access,
        atomic: true,
        rpl: e.rpl.copy(alloc)?,
    })
}
