ghost use Rattle.std.specs.Prelude.{◌≡◌, ◌∷◌, ◌++◌, ◌-◌, suc, cond, map, take, drop, reverse, option_map, IfOk};
ghost use Rattle.std.specs.Option.{option_copied};
ghost use Rattle.lang_base.specs.declared.value.Trap.TheVariants as trap;
ghost use Rattle.lang_base.specs.FirstValues.{constant_of};
ghost use Rattle.lang_base.specs.Types.{plain_type};
ghost use Rattle.lang_typed.specs.Plain.{plain_program, plain_member};
ghost use Rattle.lang_typed.specs.Scope.{row_at, constructor_of};
ghost use Rattle.lang_meaning.specs.Core.{run};
ghost use Rattle.lang_meaning.specs.Counts.{number, reference, slot_value};
ghost use Rattle.lang_meaning.specs.Elision.{in_order, sequential};
ghost use Rattle.lang_meaning.specs.Expressions.{entered, class_in, class_fields, first_of, made_array};
ghost use Rattle.lang_meaning.specs.Regions.{around, concrete, some_long};
ghost use Rattle.exec_frames.specs.Names.{plain_frame, plain_value, plain_region};
ghost use Rattle.exec_frames.specs.Classes.{plain_seen};
ghost use Rattle.exec_walker.specs.Walk.{beginning, falls, or_null, calls, enters, creates, creates_with, lands, row_member, without};
ghost use Rattle.exec_walker.specs.States.{Does, plain_level};

use crate::Halt;
use crate::level::Level;
use crate::waiting::{Awaited, Waiting};
use crate::walker::{Over, Walker};
use exec_frames::{
    Seen, call_values, class_entered, concrete, concrete_all, constructor_of, entered, is_long,
    number, reference, regions_above, some_long,
};
use lang_base::{FirstValue, Items, NoMemory, Place, Plain, Region, Rpl, Trap, Ty, Value};
use lang_typed::{Member, Program};
use std::alloc::Global;
use std::mem;

/// A call, as the program writes it.
#[derive(Clone, Copy, Drop)]
pub struct Call<'p> {
    pub place: Place,
    pub class: u32,
    pub row: u32,
    pub regions: &'p Items<Rpl>,
    pub actuals: usize,
}

impl<'p> Walker<'p> {
    /// A call, whose receiver stands below the actuals.
    pub fn call(&mut self, program: &'p Program, call: Call<'p>) -> Result<Option<Over>, Halt>
        ensures { Does (λ g ws w. or_null call.entry.place (reference (slot_value g.operands call.entry.actuals)) ws w (λ n. calls (plain_program program.now) g.left call.entry.place call.entry.class call.entry.row (map (concrete in_order (around g.frame)) call.entry.regions.now) n (reverse (take call.entry.actuals g.operands)) (without (suc call.entry.actuals) g) ws w)) self.old result self.new }
    {
        let receiver = self.level.operand(call.actuals);
        let Some(object) = reference(receiver) else {
            return self.fall(Trap::Null, call.place);
        };
        if self.level.frame.left == 0 {
            return self.fall(Trap::Stack, call.place);
        }
        let own = concrete_all(self.alloc, &self.level.frame, call.regions)?;
        if some_long(&own) {
            return self.fall(Trap::Stack, call.place);
        }
        let values = call_values(self.alloc, receiver, &self.level.operands, call.actuals)?;
        self.level.operands.drop_top(call.actuals);
        self.level.operands.drop_top(1);
        let seen = self.store.look_class(self.alloc, object)?;
        let seen = class_entered(self.alloc, program, call.class, seen);
        self.enter_row(program, seen, call.row, values, own)
    }

    /// The member in the row of a class is entered.
    fn enter_row(
        &mut self,
        program: &'p Program,
        seen: Seen,
        row: u32,
        values: Items<Value>,
        own: Items<Region>,
    ) -> Result<Option<Over>, Halt>
        ensures { Does (λ g ws w. enters (plain_program program.now) (g.frame.left - 1) (row_member (plain_program program.now) (row_at (plain_program program.now) seen.class row)) (plain_seen seen) (map plain_value values) (map plain_region own) g ws w) self.old result self.new }
    {
        let Some(member) = row_member(program, seen.class, row) else {
            return self.give(0, Value::Null);
        };
        let Seen { class, regions } = seen;
        let regions = regions_above(self.alloc, program, class, regions, member.class.number)?;
        let regions = appended(self.alloc, regions, &own)?;
        let level = self.body_of(member, values, regions)?;
        let caller = mem::replace(&mut self.level, level);
        self.wait(Waiting {
            level: caller,
            awaited: Awaited::Value,
        })
    }

    /// The body of a member, one call deeper than the one at work.
    fn body_of(
        &self,
        member: &'p Member,
        values: Items<Value>,
        regions: Items<Region>,
    ) -> Result<Level<'p>, NoMemory>
        ensures { IfOk result (λ g. plain_level g ≡ beginning (plain_member member.now).body (entered in_order (plain_member member.now) (map plain_value values) (map plain_region regions) (self.now.level.frame.left - 1)) (self.now.level.frame.left - 1)) }
    {
        let left = self.level.frame.left.saturating_sub(1);
        let frame = entered(self.alloc, member, values, regions, left)?;
        Level::beginning(self.alloc, member.body.as_slice(), frame)
    }

    /// A new object, whose actuals are on top.
    pub fn create(
        &mut self,
        program: &'p Program,
        place: Place,
        ty: &Ty,
        actuals: usize,
    ) -> Result<Option<Over>, Halt>
        ensures { Does (λ g ws w. (let own = map (concrete in_order (around g.frame)) (class_in (plain_type ty.now)).1 in cond (some_long own) (falls ws trap.Stack place w) (creates (plain_program program.now) g.left place (class_in (plain_type ty.now)).0 (constructor_of (plain_program program.now) (class_in (plain_type ty.now)).0) own (reverse (take actuals g.operands)) (without actuals g) ws w))) self.old result self.new }
    {
        let (class, own) = self.created_class(ty)?;
        if some_long(&own) {
            return self.fall(Trap::Stack, place);
        }
        match constructor_of(program, class) {
            Some(member) => self.construct(program, place, class, own, member, actuals),
            None => {
                let fields = first_values(self.alloc, program, class)?;
                let object = self
                    .store
                    .make_object(class, own, fields.as_slice(), false)?;
                self.give(actuals, object)
            }
        }
    }

    /// The class and the region arguments that the type of a creation says.
    fn created_class(&self, ty: &Ty) -> Result<(u32, Items<Region>), NoMemory>
        ensures class { IfOk result (λ c. c.0 ≡ (class_in (plain_type ty.now)).0) }
        ensures own { IfOk result (λ c. map plain_region c.1 ≡ map (concrete in_order (around (plain_frame self.now.level.frame))) (class_in (plain_type ty.now)).1) }
    {
        match ty {
            Ty::Class { class, args } => {
                let own = concrete_all(self.alloc, &self.level.frame, args)?;
                Ok((*class, own))
            }
            _ => Ok((0, Items::new(self.alloc))),
        }
    }

    /// A new object whose constructor is entered.
    fn construct(
        &mut self,
        program: &'p Program,
        place: Place,
        class: u32,
        own: Items<Region>,
        constructor: u32,
        actuals: usize,
    ) -> Result<Option<Over>, Halt>
        ensures { Does (λ g ws w. creates_with (plain_program program.now) g.left place class constructor (map plain_region own) (reverse (take actuals g.operands)) (without actuals g) ws w) self.old result self.new }
    {
        if self.level.frame.left == 0 {
            return self.fall(Trap::Stack, place);
        }
        let regions = own.copy(self.alloc)?;
        let fields = first_values(self.alloc, program, class)?;
        let object = self.store.make_object(class, own, fields.as_slice(), true)?;
        let values = call_values(self.alloc, object, &self.level.operands, actuals)?;
        self.level.operands.drop_top(actuals);
        let Some(member) = program.members.get(constructor as usize) else {
            return self.give(0, object);
        };
        let level = self.body_of(member, values, regions)?;
        let creator = mem::replace(&mut self.level, level);
        self.wait(Waiting {
            level: creator,
            awaited: Awaited::Object(object),
        })
    }

    /// A new array, whose length is on top.
    pub fn create_array(&mut self, place: Place, ty: &Ty) -> Result<Option<Over>, Halt>
        ensures { Does (λ g ws w. lands g (λ v. v ∷ drop 1 g.operands) ws (run sequential (made_array in_order place (plain_type ty.now) (number (slot_value g.operands 0)) g.frame) w)) self.old result self.new }
    {
        let Ty::Array { elem, rpl, .. } = ty else {
            return self.give(1, Value::Null);
        };
        let len = number(self.level.operand(0));
        if len < 0 {
            return self.fall(Trap::Size, place);
        }
        let region = concrete(self.alloc, &self.level.frame, rpl)?;
        if is_long(&region) {
            return self.fall(Trap::Stack, place);
        }
        let first = FirstValue::of(elem.get());
        let array = self.store.make_array(region, len as u32, first.value())?;
        self.give(1, array)
    }
}

/// The member in the row of a class.
fn row_member(program: &Program, class: u32, row: u32) -> Option<&Member>
    ensures { option_map plain_member (option_copied result) ≡ row_member (plain_program program.now) (row_at (plain_program program.now) class row) }
{
    let class = program.classes.get(class as usize)?;
    let member = class.rows.get(row as usize)?;
    program.members.get(member.number as usize)
}

/// What the fields of a class hold at first.
pub fn first_values(
    alloc: Global,
    program: &Program,
    class: u32,
) -> Result<Items<FirstValue>, NoMemory>
    ensures { IfOk result (λ held. map plain_value (map constant_of held) ≡ map (λ f. first_of f.ty) (class_fields (plain_program program.now) class)) }
{
    match program.classes.get(class as usize) {
        None => Ok(Items::new(alloc)),
        Some(row) => lang_typed::first_values(alloc, program, row),
    }
}

fn appended(
    alloc: Global,
    front: Items<Region>,
    back: &Items<Region>,
) -> Result<Items<Region>, NoMemory>
    ensures { IfOk result (λ all. all ≡ front ++ back.now) }
{
    let mut all = front;
    for region in back.as_slice() {
        all.push(region.copy(alloc)?)?;
    }
    Ok(all)
}
