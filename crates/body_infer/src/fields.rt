ghost use Rattle.std.specs.Prelude.{◌≡◌, option_map, slice_get, IfOk};
ghost use Rattle.std.specs.Option.{option_map_or};
ghost use Rattle.lang_typed.specs.Plain.{plain_class, plain_program, plain_field, plain_parent, field_with};
ghost use Rattle.lang_typed.specs.Scope.{field_at};
ghost use Rattle.body_infer.specs.Sought.{plain_sought, sought_in};

use crate::classes::class_at;
use lang_base::{Items, NoMemory, Plain};
use lang_typed::{Class, ClassId, Field, FieldSlot, Program, superclasses};
use region_paths::subst;
use region_types::subst_type;
use std::alloc::Global;

/// A field that is looked for by its slot, from the class at the top down.
#[derive(Drop)]
pub struct Sought {
    pub found: Option<Field>,
    /// How many fields stand before it from here on, where it isn't found yet.
    pub further: usize,
}

/// The field in a slot of a class, as the class sees it.
#[tactic(auto, using(crate::proofs::Reading::reading))]
pub fn field_at(
    alloc: Global,
    program: &Program,
    class: ClassId,
    field: FieldSlot,
) -> Result<Option<Field>, NoMemory>
    ensures { IfOk result (λ found. option_map plain_field found ≡ field_at (plain_program program.now) class.number field.number) }
{
    match class_at(program, class.number) {
        None => Ok(None),
        Some(row) => field_of(alloc, program, row, field.number as usize),
    }
}

fn field_of(
    alloc: Global,
    program: &Program,
    row: &Class,
    slot: usize,
) -> Result<Option<Field>, NoMemory>
    ensures { IfOk result (λ found. option_map plain_field found ≡ slice_get (plain_class program.now.classes row.now).fields slot) }
{
    let mut sought = Sought {
        found: None,
        further: slot,
    };
    let mut left = superclasses(alloc, program, row)?;
    while let Some(at) = left.pop() {
        sought = sought_at(alloc, program, at, sought)?;
    }
    let made = sought_in(alloc, row, sought)?;
    let Sought { found, .. } = made;
    Ok(found)
}

fn sought_at(
    alloc: Global,
    program: &Program,
    class: u32,
    sought: Sought,
) -> Result<Sought, NoMemory>
    ensures { IfOk result (λ made. plain_sought made ≡ option_map_or (λ c. sought_in c (plain_sought sought)) (slice_get program.now.classes class) (plain_sought sought)) }
{
    match program.classes.get(class as usize) {
        None => Ok(sought),
        Some(row) => sought_in(alloc, row, sought),
    }
}

/// What is known of the field in a class, where this is known in its superclass.
fn sought_in(alloc: Global, row: &Class, sought: Sought) -> Result<Sought, NoMemory>
    ensures { IfOk result (λ made. plain_sought made ≡ sought_in row.now (plain_sought sought)) }
{
    let Sought { found, further } = sought;
    let left = further.saturating_sub(row.fields.len());
    match found {
        None => Ok(Sought {
            found: own_field(alloc, row, further)?,
            further: left,
        }),
        Some(field) => Ok(Sought {
            found: handed_down(alloc, row, &field)?,
            further: left,
        }),
    }
}

/// A field that a class declares itself, by its position among these.
fn own_field(alloc: Global, row: &Class, at: usize) -> Result<Option<Field>, NoMemory>
    ensures { IfOk result (λ made. option_map plain_field made ≡ option_map plain_field (slice_get row.now.fields at)) }
{
    match row.fields.get(at) {
        None => Ok(None),
        Some(field) => {
            let ty = field.ty.copy(alloc)?;
            let region = field.region.copy(alloc)?;
            Ok(Some(Field { ty, region }))
        }
    }
}

/// A field of the superclass, with its region arguments put in.
fn handed_down(alloc: Global, row: &Class, field: &Field) -> Result<Option<Field>, NoMemory>
    ensures { IfOk result (λ made. option_map plain_field made ≡ option_map (λ p. field_with p.args (plain_field field.now)) (option_map plain_parent row.now.parent)) }
{
    match &row.parent {
        None => Ok(None),
        Some(parent) => {
            let ty = subst_type(alloc, &field.ty, parent.args.as_slice())?;
            let region = subst(alloc, &field.region, parent.args.as_slice())?;
            Ok(Some(Field { ty, region }))
        }
    }
}
