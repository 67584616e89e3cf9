ghost use Rattle.std.specs.Prelude.{◌≡◌, ◌++◌, [], codes, length, option_map, slice_index_or, IfOk, OnOk};
ghost use Rattle.std.specs.Fmt.{signed_decimal};
ghost use Rattle.lang_typed.specs.Names.{names_of};
ghost use Rattle.lang_typed.specs.Plain.{plain_program};
ghost use Rattle.lang_typed.specs.Scope.{parent_of};
ghost use Rattle.tool_trace.specs.events.Names.{field_at, field_name, name_of, spelling_of, spot_text, thing_name, upwards, value_text};

use crate::events::thing::Thing;
use body_infer::class_name;
use lang_base::{Bytes, Items, NoMemory, Value};
use lang_typed::Program;
use std::alloc::Global;

/// Puts a value after a text: an object or an array by its name.
pub fn value(
    alloc: Global,
    program: &Program,
    things: &[Thing],
    value: Value,
    out: &mut Bytes,
) -> Result<(), NoMemory>
    ensures { OnOk result (out.new ≡ out.old ++ value_text (names_of program.now) things.now value) }
{
    match value {
        Value::Int(value) => out.extend(format!(in alloc; "{value}")?.as_bytes()),
        Value::Bool(true) => out.extend(b"true"),
        Value::Bool(false) => out.extend(b"false"),
        Value::Null => out.extend(b"null"),
        Value::Obj(number) => name(alloc, program, things, number, out),
    }
}

/// The name of an object or an array: what it is, and its number.
pub fn name(
    alloc: Global,
    program: &Program,
    things: &[Thing],
    number: u32,
    out: &mut Bytes,
) -> Result<(), NoMemory>
    ensures { OnOk result (out.new ≡ out.old ++ name_of (names_of program.now) things.now number) }
{
    if let Some(thing) = things.get(number as usize) {
        thing_name(program, *thing, out)?;
    }
    out.extend(format!(in alloc; "#{number}")?.as_bytes())
}

fn thing_name(program: &Program, thing: Thing, out: &mut Bytes) -> Result<(), NoMemory>
    ensures { OnOk result (out.new ≡ out.old ++ thing_name (names_of program.now) thing) }
{
    match thing {
        Thing::Object(class) => out.extend(class_name(program, class)),
        Thing::Array(elements) => {
            out.extend(elements.name())?;
            out.extend(b"[]")
        }
    }
}

/// A field of an object by its name, and an element of an array by its index.
pub fn spot(
    alloc: Global,
    program: &Program,
    fields: &[Items<Bytes>],
    things: &[Thing],
    number: u32,
    index: i64,
    out: &mut Bytes,
) -> Result<(), NoMemory>
    ensures { OnOk result (out.new ≡ out.old ++ spot_text (spelling_of program.now fields.now) things.now number index) }
{
    name(alloc, program, things, number, out)?;
    match things.get(number as usize) {
        Some(Thing::Object(class)) => {
            out.extend(b".")?;
            field_at(alloc, program, fields, *class, index, out)
        }
        Some(Thing::Array(_)) => element(alloc, index, out),
        None => element(alloc, index, out),
    }
}

/// An element of an array, by its index.
fn element(alloc: Global, index: i64, out: &mut Bytes) -> Result<(), NoMemory>
    ensures { OnOk result (out.new ≡ out.old ++ (codes "[" ++ signed_decimal index ++ codes "]")) }
{
    out.extend(format!(in alloc; "[{index}]")?.as_bytes())
}

/// Puts the name of a field of a class by its index after a text.
fn field_at(
    alloc: Global,
    program: &Program,
    fields: &[Items<Bytes>],
    class: u32,
    index: i64,
    out: &mut Bytes,
) -> Result<(), NoMemory>
    ensures { OnOk result (out.new ≡ out.old ++ field_at (spelling_of program.now fields.now) class index) }
{
    if index < 0 {
        return Ok(());
    }
    field(alloc, program, fields, class, index as usize, out)
}

/// The same by its slot. The fields of the superclass come before those that the class declares itself.
fn field(
    alloc: Global,
    program: &Program,
    fields: &[Items<Bytes>],
    class: u32,
    slot: usize,
    out: &mut Bytes,
) -> Result<(), NoMemory>
    ensures { OnOk result (out.new ≡ out.old ++ field_name (spelling_of program.now fields.now) class slot) }
{
    let mut left = upwards(alloc, program, class)?;
    let mut slot = slot;
    while let Some(at) = left.pop() {
        let own = own_names(fields, at);
        if slot < own.len() {
            return out.extend(name_at(own, slot));
        }
        slot -= own.len();
    }
    Ok(())
}

/// A class and those above it, the nearest first.
fn upwards(alloc: Global, program: &Program, class: u32) -> Result<Items<u32>, NoMemory>
    ensures { IfOk result (λ all. all ≡ upwards (plain_program program.now) (length program.now.classes) class) }
{
    let mut all = Items::new(alloc);
    let mut at = class;
    for _step in 0..program.classes.len() {
        all.push(at)?;
        let Some(above) = parent(program, at) else {
            return Ok(all);
        };
        at = above;
    }
    Ok(all)
}

fn parent(program: &Program, class: u32) -> Option<u32>
    ensures { result ≡ option_map (λ p. p.class) (parent_of (plain_program program.now) class) }
{
    let class = program.classes.get(class as usize)?;
    match &class.parent {
        Some(parent) => Some(parent.class.number),
        None => None,
    }
}

/// The names of the fields that a class declares itself.
fn own_names(fields: &[Items<Bytes>], class: u32) -> &[Bytes]
    ensures { result.now ≡ slice_index_or fields.now class [] }
{
    match fields.get(class as usize) {
        Some(own) => own.as_slice(),
        None => &[],
    }
}

fn name_at(names: &[Bytes], at: usize) -> &[u8]
    ensures { result.now ≡ slice_index_or names.now at [] }
{
    match names.get(at) {
        Some(name) => name.as_slice(),
        None => b"",
    }
}
