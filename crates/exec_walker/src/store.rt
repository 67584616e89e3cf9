ghost use Rattle.std.specs.Prelude.{◌≡◌, ◌<◌, ◌≤◌, ◌^◌, IfOk, pos, length};
ghost use Rattle.lang_base.specs.declared.value.Value.TheVariants.{Int};
ghost use Rattle.lang_base.specs.declared.outcome.Limits.{Limits};
ghost use Rattle.lang_base.specs.FirstValues.{constant_of};
ghost use Rattle.exec_heap.specs.Heap.{object_at, values_of};
ghost use Rattle.lang_meaning.specs.Elision.{at_index};
ghost use Rattle.exec_walker.specs.Cells.{has_index, cell_set, length_of};

use crate::halt::Halt;
use exec_frames::Seen;
use exec_heap::Heap;
use lang_base::{Bytes, FirstValue, Items, NoMemory, Place, Plain, Region, Trap, Value};
use std::alloc::Global;

/// What the bodies share: the heap, what was printed up to the first trap, that trap, and the cost.
#[derive(Drop)]
pub struct Store {
    pub heap: Heap,
    pub output: Bytes,
    pub trap: Option<(Trap, Place)>,
    pub steps: u64,
    /// How many local regions were made.
    pub regions: u32,
    /// The most steps.
    pub limit: u64,
    ghost within: { steps ≤ limit },
    ghost few: { regions ≤ steps },
    ghost small: { limit < 2 ^ 32 },
}

impl Store {
    ghost use Rattle.std.specs.Prelude.{◌≡◌, ◌<◌, ◌≤◌, ◌^◌, pos, map, option_map, IfOk, cond, false};
    ghost use Rattle.lang_meaning.specs.Actions.{Read, Write, Look, New, Print};
    ghost use Rattle.lang_meaning.specs.Values.{An_object, An_array};
    ghost use Rattle.lang_meaning.specs.Values.{Int as Number};
    ghost use Rattle.lang_meaning.specs.Counts.{value_read, is_out, length_seen, class_seen, name_made};
    ghost use Rattle.lang_meaning.specs.Elision.{answer, after, one_step, LocalRegion};
    ghost use Rattle.lang_meaning.specs.Elision.{Store as Elided};
    ghost use Rattle.exec_frames.specs.Names.{plain_value, plain_region};
    ghost use Rattle.exec_frames.specs.Classes.{plain_seen};
    ghost use Rattle.exec_walker.specs.Stores.{fallen};
    ghost use Rattle.exec_walker.specs.Halts.{After};
    ghost use Rattle.exec_walker.specs.Stores.{Holds, counted, ticked, with_region};

    /// Counts a step.
    pub fn count(&mut self) -> Result<(), Halt>
        ensures { (L : Limits) (w : Elided) → Holds L self.old w → After L result (Holds L self.new) (one_step w) }
    {
        if self.steps == self.limit {
            return Err(Halt::Limited);
        }
        self.steps += 1;
        Ok(())
    }

    /// Counts the steps of a creation: a second one, where a constructor is entered.
    fn count_creation(&mut self, constructor: bool) -> Result<(), Halt>
        ensures { (L : Limits) (w : Elided) → Holds L self.old w → After L result (Holds L self.new) (counted (cond constructor 2 1) w) }
    {
        let steps = if constructor { 2 } else { 1 };
        if self.limit - self.steps < steps {
            return Err(Halt::Limited);
        }
        self.steps += steps;
        Ok(())
    }

    /// A tick, which costs a step.
    pub fn tick(&mut self) -> Result<(), Halt>
        ensures { (L : Limits) (w : Elided) → Holds L self.old w → After L result (Holds L self.new) (ticked w) }
    {
        if self.steps == self.limit {
            return Err(Halt::Limited);
        }
        self.steps += 1;
        Ok(())
    }

    /// The number of a new local region, which costs a tick.
    pub fn make_region(&mut self) -> Result<u32, Halt>
        ensures store { (L : Limits) (w : Elided) → Holds L self.old w → After L result (Holds L self.new) (with_region w) }
        ensures number { IfOk result (λ r. (L : Limits) (w : Elided) → Holds L self.old w → r ≡ w.regions) }
    {
        if self.steps == self.limit {
            return Err(Halt::Limited);
        }
        let number = self.regions;
        self.steps += 1;
        self.regions += 1;
        Ok(number)
    }

    /// Notes a trap; the first one stays.
    pub fn note(&mut self, trap: Trap, place: Place)
        ensures { (L : Limits) (w : Elided) → Holds L self.old w → Holds L self.new (fallen trap place w) }
    {
        if self.trap.is_none() {
            self.trap = Some((trap, place));
        }
    }

    /// Reads the value at an index, which costs a step; None where it is out of bounds. Under a number that nothing has
    /// stands null.
    pub fn read(&mut self, object: u32, index: i64) -> Result<Option<Value>, Halt>
        ensures store { (L : Limits) (w : Elided) → Holds L self.old w → After L result (Holds L self.new) (after (Read object index) w) }
        ensures value { IfOk result (λ v. (L : Limits) (w : Elided) → Holds L self.old w → option_map plain_value v ≡ value_read {M = LocalRegion} (answer w.heap (Read object index))) }
    {
        self.count()?;
        if object >= self.heap.count() {
            return Ok(Some(Value::Null));
        }
        Ok(cell_at(&self.heap, object, index))
    }

    /// Writes a value at an index, which costs a step, and answers whether the index is out of bounds.
    pub fn write(&mut self, object: u32, index: i64, value: Value) -> Result<bool, Halt>
        ensures store { (L : Limits) (w : Elided) → Holds L self.old w → After L result (Holds L self.new) (after (Write object index (plain_value value)) w) }
        ensures out { IfOk result (λ b. (L : Limits) (w : Elided) → Holds L self.old w → b ≡ is_out {M = LocalRegion} (answer w.heap (Write object index (plain_value value)))) }
    {
        self.count()?;
        if object >= self.heap.count() {
            return Ok(false);
        }
        Ok(!set_cell(&mut self.heap, object, index, value))
    }

    /// The length of an array, and 0 of anything else. The look costs a step.
    pub fn look_length(&mut self, object: u32) -> Result<Value, Halt>
        ensures store { (L : Limits) (w : Elided) → Holds L self.old w → After L result (Holds L self.new) (after (Look object) w) }
        ensures len { IfOk result (λ v. (L : Limits) (w : Elided) → Holds L self.old w → plain_value v ≡ Number (pos (length_seen {M = LocalRegion} (answer w.heap (Look object))))) }
    {
        self.count()?;
        if object >= self.heap.count() {
            return Ok(Value::Int(0));
        }
        Ok(array_length(&self.heap, object))
    }

    /// The class of an object, and its region arguments; None of anything else. The look costs a step.
    pub fn look_class(&mut self, alloc: Global, object: u32) -> Result<Option<Seen>, Halt>
        ensures store { (L : Limits) (w : Elided) → Holds L self.old w → After L result (Holds L self.new) (after (Look object) w) }
        ensures seen { IfOk result (λ s. (L : Limits) (w : Elided) → Holds L self.old w → option_map plain_seen s ≡ class_seen (answer w.heap (Look object))) }
    {
        self.count()?;
        if object >= self.heap.count() {
            return Ok(None);
        }
        match self.heap.class(object) {
            None => Ok(None),
            Some(class) => {
                let regions = copied(alloc, self.heap.regions(object))?;
                Ok(Some(Seen { class, regions }))
            }
        }
    }

    /// A new object with these field values. It costs a step, and where its class declares a constructor a second one.
    pub fn make_object(
        &mut self,
        class: u32,
        regions: Items<Region>,
        fields: &[FirstValue],
        constructor: bool,
    ) -> Result<Value, Halt>
        ensures store { (L : Limits) (w : Elided) → Holds L self.old w → After L result (Holds L self.new) (after (New (An_object class (map plain_region regions) (map plain_value (map constant_of fields.now))) constructor) w) }
        ensures name { IfOk result (λ v. (L : Limits) (w : Elided) → Holds L self.old w → plain_value v ≡ name_made {M = LocalRegion} (answer w.heap (New (An_object class (map plain_region regions) (map plain_value (map constant_of fields.now))) constructor))) }
    {
        self.count_creation(constructor)?;
        Ok(Value::Obj(self.heap.new_object(class, fields, regions)?))
    }

    /// A new array, which costs a step.
    pub fn make_array(&mut self, region: Region, len: u32, first: Value) -> Result<Value, Halt>
        ensures store { (L : Limits) (w : Elided) → Holds L self.old w → After L result (Holds L self.new) (after (New (An_array (plain_region region) len (plain_value first)) false) w) }
        ensures name { IfOk result (λ v. (L : Limits) (w : Elided) → Holds L self.old w → plain_value v ≡ name_made {M = LocalRegion} (answer w.heap (New (An_array (plain_region region) len (plain_value first)) false))) }
    {
        self.count_creation(false)?;
        Ok(Value::Obj(self.heap.new_array(len, first, region)?))
    }

    /// Prints a line. After a trap it costs, and is not kept.
    pub fn print(&mut self, line: &[u8]) -> Result<(), Halt>
        ensures { (L : Limits) (w : Elided) → Holds L self.old w → After L result (Holds L self.new) (after (Print line.now) w) }
    {
        self.count()?;
        if self.heap.charge(line.len() as u64).is_err() {
            return Err(Halt::Limited);
        }
        if self.trap.is_none() {
            self.output.extend(line)?;
        }
        Ok(())
    }
}

/// The value at an index of an object; None where it is out of bounds.
fn cell_at(heap: &Heap, object: u32, index: i64) -> Option<Value>
    requires { object < length heap.now.objects }
    ensures { result ≡ at_index (values_of (object_at heap.now object)) index }
{
    if index < 0 || index >= i64::from(heap.length(object)) {
        return None;
    }
    heap.read(object, index as u32)
}

/// Writes a value at an index of an object, and answers whether the index is within bounds.
fn set_cell(heap: &mut Heap, object: u32, index: i64, value: Value) -> bool
    requires { object < length heap.old.objects }
    ensures within { result ≡ has_index (object_at heap.old object) index }
    ensures after { heap.new ≡ cell_set heap.old object index value }
{
    if index < 0 || index >= i64::from(heap.length(object)) {
        return false;
    }
    heap.write(object, index as u32, value)
}

/// The length of an array, where the heap's lengths are small; 0 of an object.
fn array_length(heap: &Heap, object: u32) -> Value
    requires { object < length heap.now.objects }
    ensures { length (values_of (object_at heap.now object)) ≤ 16777216 → result ≡ Int (pos (length_of (object_at heap.now object))) }
{
    if heap.class(object).is_some() {
        return Value::Int(0);
    }
    Value::Int(i32::try_from(heap.length(object)).unwrap_or(i32::MAX))
}

/// The same regions.
fn copied(alloc: Global, regions: &[Region]) -> Result<Items<Region>, NoMemory>
    ensures { IfOk result (λ copies. copies ≡ regions.now) }
{
    let mut copies = Items::new(alloc);
    for region in regions {
        copies.push(region.copy(alloc)?)?;
    }
    Ok(copies)
}
