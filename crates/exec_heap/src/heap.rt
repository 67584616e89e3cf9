ghost use Rattle.std.specs.Prelude.{◌≡◌, ◌↔◌, ◌<◌, ◌≤◌, ◌+◌, ◌∷◌, ◌++◌, [], length, map, replicate, slice_get, IsTrue, IfOk, OnOk, OnErr, IsErr, Err, false, vec_len};
ghost use Rattle.std.specs.Vec.{VecUnchanged, vec_capacity};
ghost use Rattle.lang_base.specs.FirstValues.{constant_of};
ghost use Rattle.exec_heap.specs.Rows.{Placed};

use crate::header::{Header, Kind};
use crate::rows::Rows;
use crate::stop::{HeapFull, HeapStop};
use lang_base::{FirstValue, Items, NoMemory, Region, Value};
use std::alloc::Global;
use std::marker::Model;

/// The objects and arrays of a run, with the cells used and their limit.
#[derive(Drop)]
pub struct Heap {
    /// The values of all objects, in their order.
    cells: Vec<Value>,
    headers: Vec<Header>,
    rows: Rows,
    used: u64,
    limit: u64,
    alloc: Global,
}

impl Model for Heap {
    ghost use Rattle.exec_heap.specs.Heap.{Contents};
    ghost use Rattle.exec_heap.specs.Flat.{objects_in, IsFlat};

    ghost Value = { Contents };

    ghost view = { λ heap. record { objects = objects_in heap.rows heap.headers.items heap.cells.items; used = heap.used; limit = heap.limit } };

    ghost invariant = { λ heap. IsFlat heap.cells.items heap.headers.items heap.rows heap.used heap.limit };
}

impl Heap {
    ghost use Rattle.exec_heap.specs.Heap.{instance, array, values_of, class_of, regions_of, object_at, cost, IsOver, charged, with_object, written};

    /// A heap without objects that may have so many cells. It takes no memory.
    pub fn new(alloc: Global, limit: u64) -> Heap
        requires { limit ≤ 16777216 }
        ensures { result ≡ record { objects = []; used = 0; limit = limit } }
    {
        Heap {
            cells: Vec::new(alloc),
            headers: Vec::new(alloc),
            rows: Rows::new(alloc),
            used: 0,
            limit,
            alloc,
        }
    }

    /// How many objects and arrays were made.
    pub fn count(&self) -> u32
        ensures { result ≡ length self.now.objects }
    {
        self.headers.len() as u32
    }

    /// The cells used so far.
    pub fn cells(&self) -> u64
        ensures used { result ≡ self.now.used }
        ensures within { self.now.used ≤ self.now.limit }
    {
        self.used
    }

    /// Whether so many cells more are within the limit.
    pub fn has_room(&self, cells: u64) -> bool
        ensures { IsTrue result ↔ (self.now.used + cells ≤ self.now.limit) }
    {
        cells <= self.limit - self.used
    }

    /// Counts cells for something that is no object. It takes no memory.
    pub fn charge(&mut self, cells: u64) -> Result<(), HeapFull>
        ensures full { IsErr result ↔ IsOver self.old cells }
        ensures ok { OnOk result (self.new ≡ charged self.old cells) }
        ensures err { OnErr result (self.new ≡ self.old) }
    {
        if self.limit - self.used < cells {
            return Err(HeapFull);
        }
        self.used += cells;
        Ok(())
    }

    /// Makes an object of a class with its regions and with what its fields hold at first, and answers its number. Full comes
    /// exactly where its cells would be over the limit.
    pub fn new_object(
        &mut self,
        class: u32,
        fields: &[FirstValue],
        regions: Items<Region>,
    ) -> Result<u32, HeapStop>
        ensures full { (result ≡ Err HeapStop.Full) ↔ IsOver self.old (cost (instance class regions (map constant_of fields.now))) }
        ensures number { IfOk result (λ object. object ≡ length self.old.objects) }
        ensures made { OnOk result (self.new ≡ with_object self.old (instance class regions (map constant_of fields.now))) }
        ensures err { OnErr result (self.new ≡ self.old) }
    {
        let asked = 1 + fields.len() as u64;
        if self.limit - self.used < asked {
            return Err(HeapStop::Full);
        }
        let object = self.headers.len() as u32;
        let header = Header {
            kind: Kind::Instance(class),
            start: self.cells.len() as u32,
            len: fields.len() as u32,
            row: prepare(
                &mut self.cells,
                &mut self.headers,
                &mut self.rows,
                fields.len(),
                regions,
            )?,
        };
        hold_first(&mut self.cells, fields);
        self.headers.push(header)?;
        self.used += asked;
        Ok(object)
    }

    /// Makes an array with so many elements, all of them `first`, and with the pattern of its region. It answers the
    /// array's number. Full comes exactly where its cells would be over the limit.
    pub fn new_array(&mut self, len: u32, first: Value, pattern: Region) -> Result<u32, HeapStop>
        ensures full { (result ≡ Err HeapStop.Full) ↔ IsOver self.old (cost (array pattern (replicate len first))) }
        ensures number { IfOk result (λ object. object ≡ length self.old.objects) }
        ensures made { OnOk result (self.new ≡ with_object self.old (array pattern (replicate len first))) }
        ensures err { OnErr result (self.new ≡ self.old) }
    {
        let asked = 1 + u64::from(len);
        if self.limit - self.used < asked {
            return Err(HeapStop::Full);
        }
        let regions = one_region(self.alloc, pattern)?;
        let object = self.headers.len() as u32;
        let start = self.cells.len();
        let header = Header {
            kind: Kind::Array,
            start: start as u32,
            len,
            row: prepare(
                &mut self.cells,
                &mut self.headers,
                &mut self.rows,
                len as usize,
                regions,
            )?,
        };
        self.cells.resize(start + len as usize, first)?;
        self.headers.push(header)?;
        self.used += asked;
        Ok(object)
    }

    /// The class of an object, or None for an array.
    pub fn class(&self, object: u32) -> Option<u32>
        requires { object < length self.now.objects }
        ensures { result ≡ class_of (object_at self.now object) }
    {
        match self.headers[object as usize].kind {
            Kind::Instance(class) => Some(class),
            Kind::Array => None,
        }
    }

    /// How many fields an object has, or elements an array.
    pub fn length(&self, object: u32) -> u32
        requires { object < length self.now.objects }
        ensures { result ≡ length (values_of (object_at self.now object)) }
    {
        self.headers[object as usize].len
    }

    /// The regions of an object, or the one pattern of an array.
    pub fn regions(&self, object: u32) -> &[Region]
        requires { object < length self.now.objects }
        ensures { result.now ≡ regions_of (object_at self.now object) }
    {
        self.rows.get(self.headers[object as usize].row)
    }

    /// Reads the value at an index of an object, or answers None where the index is out of bounds.
    pub fn read(&self, object: u32, index: u32) -> Option<Value>
        requires { object < length self.now.objects }
        ensures { result ≡ slice_get (values_of (object_at self.now object)) index }
    {
        let header = self.headers[object as usize];
        if index < header.len {
            Some(self.cells[header.start as usize + index as usize])
        } else {
            None
        }
    }

    /// Writes the value at an index of an object, and answers whether the index is within bounds.
    pub fn write(&mut self, object: u32, index: u32, value: Value) -> bool
        requires { object < length self.old.objects }
        ensures within { IsTrue result ↔ (index < length (values_of (object_at self.old object))) }
        ensures done { IsTrue result → self.new ≡ written self.old object index value }
        ensures refused { result ≡ false → self.new ≡ self.old }
    {
        let header = self.headers[object as usize];
        if index >= header.len {
            return false;
        }
        self.cells[header.start as usize + index as usize] = value;
        true
    }
}

/// Makes room for one header more and for so many values, and answers the row of these regions. What comes after it
/// can't run out of memory.
fn prepare(
    cells: &mut Vec<Value>,
    headers: &mut Vec<Header>,
    rows: &mut Rows,
    values: usize,
    regions: Items<Region>,
) -> Result<u32, NoMemory>
    requires { length rows.old < 4294967295 }
    ensures ok { IfOk result (λ row. Placed rows.old regions row rows.new) }
    ensures err { OnErr result (rows.new ≡ rows.old) }
    ensures cells { VecUnchanged cells.old cells.new }
    ensures headers { VecUnchanged headers.old headers.new }
    ensures cells_room { OnOk result (vec_len cells.new + values ≤ vec_capacity cells.new) }
    ensures header_room { OnOk result (vec_len headers.new < vec_capacity headers.new) }
{
    cells.reserve(values)?;
    headers.reserve(1)?;
    rows.place(regions)
}

/// Puts what fields hold at first behind the cells, which have room for it.
fn hold_first(cells: &mut Vec<Value>, fields: &[FirstValue])
    requires { vec_len cells.old + length fields.now ≤ vec_capacity cells.old }
    ensures { cells.new.items ≡ cells.old.items ++ map constant_of fields.now }
{
    for first in fields {
        if cells.push(first.value()).is_err() {
            unreachable!()
        }
    }
}

fn one_region(alloc: Global, region: Region) -> Result<Items<Region>, NoMemory>
    ensures { IfOk result (λ regions. regions ≡ region ∷ []) }
{
    let mut regions = Items::new(alloc);
    regions.push(region)?;
    Ok(regions)
}
