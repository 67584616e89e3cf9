ghost use Rattle.std.specs.Prelude.{◌≡◌, ◌++◌, [], length, map, slice_get, IfOk, OnOk};
ghost use Rattle.std.specs.Option.{option_map_or};
ghost use Rattle.lang_base.specs.FirstValues.{first_value};
ghost use Rattle.lang_base.specs.Types.{plain_type};
ghost use Rattle.lang_typed.specs.Inherited.{superclasses};
ghost use Rattle.lang_typed.specs.Plain.{plain_class};

use crate::program::{Class, Field, Program};
use lang_base::{FirstValue, Items, NoMemory};
use std::alloc::Global;

/// The superclasses of a class, the nearest first.
pub fn superclasses(alloc: Global, program: &Program, class: &Class) -> Result<Items<u32>, NoMemory>
    ensures { IfOk result (λ all. all ≡ superclasses program.now.classes (length program.now.classes) class.now.parent) }
{
    let mut all = Items::new(alloc);
    let mut below = class;
    for _step in 0..program.classes.len() {
        let Some(parent) = &below.parent else {
            return Ok(all);
        };
        let Some(above) = program.classes.get(parent.class.number as usize) else {
            return Ok(all);
        };
        all.push(parent.class.number)?;
        below = above;
    }
    Ok(all)
}

/// What all fields of a class hold before they are assigned.
pub fn first_values(
    alloc: Global,
    program: &Program,
    class: &Class,
) -> Result<Items<FirstValue>, NoMemory>
    ensures { IfOk result (λ values. values ≡ map (λ f. first_value f.ty) (plain_class program.now.classes class.now).fields) }
{
    let mut values = Items::new(alloc);
    let mut left = superclasses(alloc, program, class)?;
    while let Some(at) = left.pop() {
        add_own(program, at, &mut values)?;
    }
    add_values(class.fields.as_slice(), &mut values)?;
    Ok(values)
}

/// Adds the first values of the fields that a class declares itself.
fn add_own(program: &Program, class: u32, values: &mut Items<FirstValue>) -> Result<(), NoMemory>
    ensures { OnOk result (values.new ≡ values.old ++ option_map_or (λ c. map (λ f. first_value (plain_type f.ty)) c.fields) (slice_get program.now.classes class) []) }
{
    match program.classes.get(class as usize) {
        None => Ok(()),
        Some(row) => add_values(row.fields.as_slice(), values),
    }
}

fn add_values(fields: &[Field], values: &mut Items<FirstValue>) -> Result<(), NoMemory>
    ensures { OnOk result (values.new ≡ values.old ++ map (λ f. first_value (plain_type f.ty)) fields.now) }
{
    for field in fields {
        values.push(FirstValue::of(&field.ty))?;
    }
    Ok(())
}
