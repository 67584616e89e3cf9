ghost use Rattle.std.specs.Prelude.{◌≡◌, map, slice_index_or, IfOk};
ghost use Rattle.lang_meaning.specs.Values.{Local};
ghost use Rattle.lang_meaning.specs.Regions.{around, concrete, head_region, part_of, index_part, is_long, some_long};
ghost use Rattle.exec_frames.specs.Names.{Reading, LocalOf, names_by, unmade_by, locals_by, plain_index, part_by, region_by, frame_by, plain_value};

use crate::frame::Frame;
use crate::values::{number, slot};
use lang_base::{Elem, Elems, Head, Index, Items, NoMemory, Plain, Region, Rpl};
use std::alloc::Global;

/// The most elements of a region argument, and of the region of a created array.
const MOST_PARTS: usize = 500;

/// The region that a path stands for in a frame.
pub fn concrete(alloc: Global, frame: &Frame, path: &Rpl) -> Result<Region, NoMemory>
    ghost reading: { Reading }
    ensures { IfOk result (λ region. region_by reading region ≡ concrete (names_by reading) (around (frame_by reading frame.now)) path.now) }
{
    let mut elems = head_elems(alloc, &frame.regions, path.head)?;
    for elem in path.elems.as_slice() {
        elems.push(part(frame, *elem))?;
    }
    Ok(Region { elems })
}

/// The elements of the region of a parameter, and none where it has none.
#[tactic(auto, using(crate::proofs::Lists::none_there))]
fn head_elems(alloc: Global, regions: &Items<Region>, head: Head) -> Result<Elems, NoMemory>
    ghost reading: { Reading }
    ensures { IfOk result (λ elems. map (part_by reading) elems ≡ head_region (map (region_by reading) regions.now) head) }
{
    let Head::Param(parameter) = head else {
        return Ok(Elems::new(alloc));
    };
    match regions.get(parameter as usize) {
        Some(region) => region.elems.copy(alloc),
        None => Ok(Elems::new(alloc)),
    }
}

/// What an element stands for in a frame.
fn part(frame: &Frame, elem: Elem) -> Elem
    ghost reading: { Reading }
    ensures { part_by reading result ≡ part_of (names_by reading) (around (frame_by reading frame.now)) elem }
{
    match elem {
        Elem::Name(name) => Elem::Name(name),
        Elem::At(index) => Elem::At(index_in(frame, index)),
        Elem::Any => Elem::Any,
        Elem::Star => Elem::Star,
        Elem::Local(declaration, _) => local(frame, declaration),
    }
}

/// What an index stands for in a frame.
fn index_in(frame: &Frame, index: Index) -> Index
    ghost reading: { Reading }
    ensures { plain_index {M = LocalOf reading} result ≡ index_part (map plain_value frame.now.values) index }
{
    match index {
        Index::Literal(n) => Index::Literal(n),
        Index::Variable(x) => Index::Literal(number(slot(&frame.values, x as usize))),
        Index::Renamed(x) => Index::Literal(number(slot(&frame.values, x as usize))),
        Index::Own(depth) => Index::Own(depth),
    }
}

/// The local region of a declaration.
#[tactic(auto, using(crate::proofs::Locals::none_local, crate::proofs::Locals::some_local))]
fn local(frame: &Frame, declaration: u32) -> Elem
    ghost reading: { Reading }
    ensures { part_by reading result ≡ Local (slice_index_or (locals_by reading frame.now.locals) declaration (unmade_by reading declaration)) }
{
    match frame.locals.get(declaration as usize) {
        Some(made) => Elem::Local(made.0, made.1),
        None => Elem::Local(declaration, 0),
    }
}

/// The regions of paths.
pub fn concrete_all(
    alloc: Global,
    frame: &Frame,
    paths: &Items<Rpl>,
) -> Result<Items<Region>, NoMemory>
    ghost reading: { Reading }
    ensures { IfOk result (λ regions. map (region_by reading) regions ≡ map (concrete (names_by reading) (around (frame_by reading frame.now))) paths.now) }
{
    let mut regions = Items::new(alloc);
    for path in paths.as_slice() {
        regions.push(concrete(alloc, frame, path)?)?;
    }
    Ok(regions)
}

/// Whether a region has more elements than may be.
pub fn is_long(region: &Region) -> bool
    ghost reading: { Reading }
    ensures { result ≡ is_long (region_by reading region.now) }
{
    region.elems.len() > MOST_PARTS
}

/// Whether one of the regions has.
pub fn some_long(regions: &Items<Region>) -> bool
    ghost reading: { Reading }
    ensures { result ≡ some_long (map (region_by reading) regions.now) }
{
    for region in regions.as_slice() {
        if is_long(region) {
            return true;
        }
    }
    false
}
