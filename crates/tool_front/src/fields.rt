ghost use Rattle.std.specs.Prelude.{◌≡◌, [], map, slice_index_or, IfOk};
ghost use Rattle.syntax_means.specs.Declares.{own_fields, spelled};
ghost use Rattle.tool_front.specs.Judging.{field_names_in};

use lang_base::{Bytes, Items, NoMemory, Plain};
use std::alloc::Global;
use syntax_tree::{Class, Member, Program};

/// Of each class the names of the fields that it declares itself.
pub fn field_names(alloc: Global, tree: &Program) -> Result<Items<Items<Bytes>>, NoMemory>
    ensures { IfOk result (λ fields. fields ≡ field_names_in tree.now) }
{
    let mut fields = Items::new(alloc);
    for class in tree.classes.as_slice() {
        fields.push(own_names(alloc, tree, class)?)?;
    }
    Ok(fields)
}

/// The names of the fields that a class declares.
fn own_names(alloc: Global, tree: &Program, class: &Class) -> Result<Items<Bytes>, NoMemory>
    ensures { IfOk result (λ own. own ≡ map (λ field. spelled tree.now field.name) (own_fields class.now)) }
{
    let mut own = Items::new(alloc);
    for member in class.members.as_slice() {
        match member {
            Member::Field(field) => own.push(spelled(alloc, tree, field.name)?)?,
            Member::Regions { .. } | Member::Method(_) => {}
        }
    }
    Ok(own)
}

fn spelled(alloc: Global, tree: &Program, name: u32) -> Result<Bytes, NoMemory>
    ensures { IfOk result (λ text. text ≡ spelled tree.now name) }
{
    name_at(alloc, tree.names.as_slice(), name)
}

fn name_at(alloc: Global, names: &[Bytes], name: u32) -> Result<Bytes, NoMemory>
    ensures { IfOk result (λ text. text ≡ slice_index_or names.now name []) }
{
    match names.get(name as usize) {
        Some(text) => text.copy(alloc),
        None => Ok(Bytes::new(alloc)),
    }
}
