ghost use Rattle.std.specs.Prelude.{◌≡◌, ◌<◌, ◌≤◌, ◌+◌, ◌*◌, ◌/◌, ◌^◌, map, option_map, slice_set};
ghost use Rattle.lang_meaning.specs.Counts.{slot_value, part_place, part_first, part_length, part_taken};
ghost use Rattle.exec_frames.specs.Names.{plain_value};

use crate::values::{number, set_slot, slot};
use lang_base::{Items, Value};

/// The value of a slot that stands so many after another.
#[tactic(auto, using(crate::proofs::Lists::past_there))]
pub fn slot_after(values: &Items<Value>, first: usize, more: usize) -> Value
    ensures { plain_value result ≡ slot_value (map plain_value values.now) (first + more) }
{
    let len = values.len();
    if first >= len || more >= len - first {
        return Value::Null;
    }
    slot(values, first + more)
}

/// Puts a value into a slot that stands so many after another, where there is one.
pub fn set_slot_after(values: &mut Items<Value>, first: usize, more: usize, value: Value)
    ensures { map plain_value values.new ≡ slice_set (map plain_value values.old) (first + more) (plain_value value) }
{
    let len = values.len();
    if first < len && more < len - first {
        set_slot(values, first + more, value);
    }
}

/// The place in the array of an index of a part; None outside of the part.
pub fn part_place(values: &Items<Value>, part: usize, index: i32) -> Option<i32>
    ensures { result ≡ part_place part index (map plain_value values.now) }
{
    let len = number(slot_after(values, part, 2));
    if index < 0 || index >= len {
        return None;
    }
    Some(number(slot_after(values, part, 1)).wrapping_add(index))
}

/// Takes the part of the branch that runs: its first place and its length come in the place of those of the whole.
pub fn take_part(values: &mut Items<Value>, part: usize)
    ensures { map plain_value values.new ≡ part_taken part (map plain_value values.old) }
{
    let (first, len) = own_part(values, part);
    set_slot_after(values, part, 1, Value::Int(first));
    set_slot_after(values, part, 2, Value::Int(len));
}

/// The first place and the length of that part.
fn own_part(values: &Items<Value>, part: usize) -> (i32, i32)
    ensures first { result.0 ≡ part_first part (map plain_value values.now) }
    ensures len { result.1 ≡ part_length part (map plain_value values.now) }
{
    let first = number(slot_after(values, part, 1));
    let len = number(slot_after(values, part, 2));
    let parts = number(slot_after(values, part, 3));
    let at = number(slot_after(values, part, 4));
    if len < 0 || at < 0 || at >= parts {
        return (0, 0);
    }
    let begin = part_begin(len as u32, parts as u32, at as u32);
    let end = part_begin(len as u32, parts as u32, at as u32 + 1);
    (
        first.wrapping_add(begin as i32),
        end.saturating_sub(begin) as i32,
    )
}

/// Where a part of a length begins.
fn part_begin(len: u32, parts: u32, at: u32) -> u32
    requires within { at ≤ parts }
    requires some { 0 < parts }
    ensures begin { result ≡ at * len / parts }
    ensures few { result ≤ len }
{
    (u64::from(at) * u64::from(len) / u64::from(parts)) as u32
}
