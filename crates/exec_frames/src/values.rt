ghost use Rattle.std.specs.Prelude.{◌≡◌, ◌<◌, ◌^◌, pos, map, slice_set};
ghost use Rattle.std.specs.Int.{w32, int_wrapping_add};
ghost use Rattle.lang_meaning.specs.Counts.{number, truth, reference, how_many, slot_value};
ghost use Rattle.exec_frames.specs.Names.{plain_value};

use lang_base::{Items, Value};

/// The number that a value counts as.
pub fn number(value: Value) -> i32
    ensures { result ≡ number (plain_value value) }
{
    match value {
        Value::Int(n) => n,
        Value::Bool(_) | Value::Null | Value::Obj(_) => 0,
    }
}

/// The truth that it counts as.
pub fn truth(value: Value) -> bool
    ensures { result ≡ truth (plain_value value) }
{
    match value {
        Value::Bool(b) => b,
        Value::Int(_) | Value::Null | Value::Obj(_) => false,
    }
}

/// The object or array that it names, or None where it counts as null.
pub fn reference(value: Value) -> Option<u32>
    ensures { result ≡ reference (plain_value value) }
{
    match value {
        Value::Obj(n) => Some(n),
        Value::Int(_) | Value::Bool(_) | Value::Null => None,
    }
}

/// How many iterations a count makes.
pub fn how_many(count: i32) -> usize
    ensures count { result ≡ how_many count }
    ensures few { result < 2 ^ 31 }
{
    if count < 0 {
        return 0;
    }
    count as usize
}

/// The same, as a number that a value holds.
pub fn counted(count: i32) -> i32
    ensures { result ≡ pos (how_many count) }
{
    count.max(0)
}

/// A number and so many more.
pub fn plus(number: i32, more: usize) -> i32
    requires { more < 2 ^ 31 }
    ensures { result ≡ int_wrapping_add w32 number (pos more) }
{
    number.wrapping_add(more as i32)
}

/// The value of a slot.
pub fn slot(values: &Items<Value>, at: usize) -> Value
    ensures { plain_value result ≡ slot_value (map plain_value values.now) at }
{
    match values.get(at) {
        Some(value) => *value,
        None => Value::Null,
    }
}

/// Puts a value into a slot, where there is one.
pub fn set_slot(values: &mut Items<Value>, at: usize, value: Value)
    ensures { map plain_value values.new ≡ slice_set (map plain_value values.old) at (plain_value value) }
{
    if at < values.len() {
        values.set(at, value);
    }
}
