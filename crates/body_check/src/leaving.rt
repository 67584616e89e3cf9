ghost use Rattle.std.specs.Prelude.{◌≡◌, ◌↔◌, map, IsTrue};
ghost use Rattle.body_check.specs.Leaving.{left_elem, left_path, left_mark, begins_inside, left_effect, from_here};
ghost use Rattle.body_check.specs.Gathering.{all_left};

use body_exprs::Env;
use lang_base::{Effect, Elem, Index, Rpl};

/// What becomes of the marks of effects.
#[derive(Clone, Copy)]
pub enum Marks {
    Kept,
    Dropped,
    Set,
}

/// What goes out of scope at the end of a block, of a branch or of an iteration. Later declarations have greater
/// numbers.
#[derive(Clone, Copy)]
pub struct Leaving {
    /// The first slot of the locals that go out of scope.
    pub first_slot: u32,
    /// The number of the first local region that does.
    pub first_region: u32,
    pub marks: Marks,
}

impl Leaving {
    /// What is declared from here on goes out of scope.
    pub fn from_here(env: &Env, marks: Marks) -> Leaving
        ensures { result ≡ from_here env.now marks }
    {
        Leaving {
            first_slot: env.slots(),
            first_region: env.regions_declared(),
            marks,
        }
    }

    /// Whether all of these effects are left as they are.
    pub fn keeps_all(&self, effects: &[Effect]) -> bool
        ensures { IsTrue result ↔ (all_left self.now effects.now ≡ effects.now) }
    {
        for e in effects {
            if !self.keeps(e) {
                return false;
            }
        }
        true
    }

    fn keeps(&self, e: &Effect) -> bool
        ensures { IsTrue result ↔ (left_effect self.now e.now ≡ Some e.now) }
    {
        let elems = e.rpl.elems.as_slice();
        !self.begins_inside(elems) && self.mark(e.atomic) == e.atomic && self.keeps_path(elems)
    }

    fn keeps_path(&self, elems: &[Elem]) -> bool
        ensures { IsTrue result ↔ (map (left_elem self.now.first_slot) elems.now ≡ elems.now) }
    {
        for elem in elems {
            if self.left_elem(*elem) != *elem {
                return false;
            }
        }
        true
    }

    /// What is left of an effect after the scope: `[?]` for each index variable, and nothing of an effect on a
    /// local region.
    pub fn left_of(&self, e: Effect) -> Option<Effect>
        ensures { result ≡ left_effect self.now e }
    {
        if self.begins_inside(e.rpl.elems.as_slice()) {
            return None;
        }
        let mut e = e;
        e.atomic = self.mark(e.atomic);
        self.leave_path(&mut e.rpl);
        Some(e)
    }

    fn begins_inside(&self, elems: &[Elem]) -> bool
        ensures { result ≡ begins_inside self.now.first_region elems.now }
    {
        match elems.first() {
            Some(Elem::Local(region, _)) => *region >= self.first_region,
            _ => false,
        }
    }

    fn mark(&self, atomic: bool) -> bool
        ensures { result ≡ left_mark self.now.marks atomic }
    {
        match self.marks {
            Marks::Kept => atomic,
            Marks::Dropped => false,
            Marks::Set => true,
        }
    }

    fn leave_path(&self, rpl: &mut Rpl)
        ensures { rpl.new ≡ left_path self.now.first_slot rpl.old }
    {
        for at in 0..rpl.elems.len() {
            let elem = rpl.elems.as_slice()[at];
            rpl.elems.set(at, self.left_elem(elem));
        }
    }

    fn left_elem(&self, elem: Elem) -> Elem
        ensures { result ≡ left_elem self.now.first_slot elem }
    {
        match elem {
            Elem::At(Index::Variable(slot)) if slot >= self.first_slot => Elem::Any,
            other => other,
        }
    }
}
