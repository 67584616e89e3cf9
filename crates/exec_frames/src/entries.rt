ghost use Rattle.std.specs.Prelude.{◌≡◌, ◌∷◌, map, take, reverse, IfOk};
ghost use Rattle.lang_typed.specs.Plain.{plain_member};
ghost use Rattle.lang_meaning.specs.Counts.{padded};
ghost use Rattle.lang_meaning.specs.Elision.{in_order};
ghost use Rattle.lang_meaning.specs.Expressions.{entered};
ghost use Rattle.lang_meaning.specs.Regions.{unmade_from};
ghost use Rattle.exec_frames.specs.Names.{Reading, names_by, locals_by, region_by, frame_by, plain_frame, plain_value, plain_region};

use crate::frame::Frame;
use crate::stack::Stack;
use lang_base::{Items, NoMemory, Region, Value};
use lang_typed::Member;
use std::alloc::Global;

/// The values with which a member is entered: its receiver, and so many actuals on top of a stack, the lowest first.
pub fn call_values(
    alloc: Global,
    receiver: Value,
    stack: &Stack<Value>,
    actuals: usize,
) -> Result<Items<Value>, NoMemory>
    ensures { IfOk result (λ values. map plain_value values ≡ plain_value receiver ∷ reverse (take actuals (map plain_value stack.now))) }
{
    let mut values = Items::new(alloc);
    values.push(receiver)?;
    let many = actuals.min(stack.len());
    for at in 0..many {
        let Some(value) = stack.get(many - 1 - at) else {
            unreachable!()
        };
        values.push(*value)?;
    }
    Ok(values)
}

/// The frame with which a member is entered: its first slots have these values.
pub fn entered(
    alloc: Global,
    member: &Member,
    values: Items<Value>,
    regions: Items<Region>,
    left: u32,
) -> Result<Frame, NoMemory>
    ensures { IfOk result (λ f. plain_frame f ≡ entered in_order (plain_member member.now) (map plain_value values) (map plain_region regions) left) }
{
    let sizes = (member.slots, member.local_regions);
    fresh_frame(alloc, sizes, values, regions, left)
}

/// A frame of so many slots, of which the first have these values, and of so many local regions, which aren't made yet.
pub fn fresh_frame(
    alloc: Global,
    sizes: (u32, u32),
    values: Items<Value>,
    regions: Items<Region>,
    left: u32,
) -> Result<Frame, NoMemory>
    ghost reading: { Reading }
    ensures { IfOk result (λ f. frame_by reading f ≡ record { values = padded sizes.0 (map plain_value values); regions = map (region_by reading) regions; locals = unmade_from (names_by reading) 0 sizes.1; left = left }) }
{
    Ok(Frame {
        values: padded(values, sizes.0)?,
        regions,
        locals: unmade(alloc, sizes.1)?,
        left,
    })
}

/// So many slots, of which the first have these values.
fn padded(values: Items<Value>, slots: u32) -> Result<Items<Value>, NoMemory>
    ensures { IfOk result (λ vs. map plain_value vs ≡ padded slots (map plain_value values)) }
{
    let mut padded = values;
    padded.truncate(slots as usize);
    for at in padded.len()..slots as usize {
        padded.push(Value::Null)?;
    }
    Ok(padded)
}

/// Local regions that aren't made yet.
fn unmade(alloc: Global, many: u32) -> Result<Items<(u32, u32)>, NoMemory>
    ghost reading: { Reading }
    ensures { IfOk result (λ locals. locals_by reading locals ≡ unmade_from (names_by reading) 0 many) }
{
    let mut locals = Items::new(alloc);
    for declaration in 0..many {
        locals.push((declaration, 0))?;
    }
    Ok(locals)
}
