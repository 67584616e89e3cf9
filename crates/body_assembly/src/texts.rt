ghost use Rattle.std.specs.Prelude.{◌≡◌, map, IfOk};
ghost use Rattle.body_assembly.specs.Named.{params_named, text_of};

use decl_headers::ParamRow;
use lang_base::{Bytes, Items, NoMemory, Plain};
use lang_typed::RegionParam;
use std::alloc::Global;

/// The text of a name.
pub fn text(alloc: Global, names: &[Bytes], name: u32) -> Result<Bytes, NoMemory>
    ensures { IfOk result (λ text. text ≡ text_of names.now name) }
{
    match names.get(name as usize) {
        None => Ok(Bytes::new(alloc)),
        Some(text) => text.copy(alloc),
    }
}

/// Region parameters.
pub fn params(
    alloc: Global,
    names: &[Bytes],
    rows: &[ParamRow],
) -> Result<Items<RegionParam>, NoMemory>
    ensures atomic { IfOk result (λ made. map (λ param. param.atomic) made ≡ map (λ row. row.atomic) rows.now) }
    ensures named { IfOk result (λ made. map (λ param. param.text) made ≡ params_named names.now rows.now) }
{
    let mut made = Items::new(alloc);
    for row in rows {
        let text = text(alloc, names, row.name)?;
        let atomic = row.atomic;
        made.push(RegionParam { text, atomic })?;
    }
    Ok(made)
}

/// An equal list.
pub fn copies<T: Plain>(alloc: Global, all: &[T]) -> Result<Items<T>, NoMemory>
    ensures { IfOk result (λ made. made ≡ all.now) }
{
    let mut made = Items::new(alloc);
    for item in all {
        made.push(item.copy(alloc)?)?;
    }
    Ok(made)
}
