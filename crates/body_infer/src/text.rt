ghost use Rattle.std.specs.Prelude.{◌≡◌, ◌++◌, codes, map, slice_index_or, IfOk, OnOk};
ghost use Rattle.std.specs.Fmt.{signed_decimal};
ghost use Rattle.lang_typed.specs.Names.{named_member, names_of};
ghost use Rattle.lang_typed.specs.Plain.{plain_program, plain_member};
ghost use Rattle.body_infer.specs.Kept.{program_kept, summary_kept};
ghost use Rattle.body_infer.specs.Lines.{all_params, class_name, class_params, elem_text, head_text, item_text, items_of, line_of, lines_of, listed, mark_text, path_text, region_text, summary_text};

use crate::kept::Kept;
use crate::walk::{Keeping, summary_kept};
use lang_base::{Access, Bytes, Effect, Elem, Head, Index, Items, NoMemory, Plain, Rpl};
use lang_typed::{Member, Program, RegionParam};
use region_effects::EffectSet;
use std::alloc::Global;

/// A line for each method and constructor, in the order of the text: its class and name, and what is kept of its summary.
pub fn lines(alloc: Global, program: &Program, kept: &Keeping) -> Result<Bytes, NoMemory>
    ensures { IfOk result (λ text. text ≡ lines_of (program_kept kept.now (plain_program program.now)) (names_of program.now)) }
{
    let mut out = Bytes::new(alloc);
    for (member, kept) in program.members.as_slice().iter().zip(kept.as_slice()) {
        line(alloc, program, member, kept, &mut out)?;
    }
    Ok(out)
}

fn line(
    alloc: Global,
    program: &Program,
    member: &Member,
    kept: &Items<Kept>,
    out: &mut Bytes,
) -> Result<(), NoMemory>
    ensures { let left = record (plain_member member.now) { summary = summary_kept kept.now member.now.summary } in OnOk result (out.new ≡ out.old ++ line_of (names_of program.now) left (named_member member.now)) }
{
    out.extend(class_name(program, member.class.number))?;
    out.extend(b".")?;
    out.extend(member.name.as_slice())?;
    let items = summary_kept(alloc, kept, &member.summary)?;
    let of_class = class_params(program, member.class.number);
    summary(
        alloc,
        program,
        of_class,
        member.params.as_slice(),
        &items,
        out,
    )?;
    out.extend(b"\n")
}

/// What is read and written, by paths over the region parameters of a class and, after these, others.
pub fn summary(
    alloc: Global,
    program: &Program,
    of_class: &[RegionParam],
    own: &[RegionParam],
    items: &Items<Effect>,
    out: &mut Bytes,
) -> Result<(), NoMemory>
    ensures { OnOk result (out.new ≡ out.old ++ summary_text (names_of program.now) (all_params of_class.now own.now) items.now) }
{
    if items.is_empty() {
        return out.extend(b" pure");
    }
    let reads = items_of(alloc, Access::Read, items)?;
    let writes = items_of(alloc, Access::Write, items)?;
    list(alloc, program, of_class, own, b" reads ", &reads, out)?;
    list(alloc, program, of_class, own, b" writes ", &writes, out)
}

/// The items of one access, in their order, each once.
fn items_of(alloc: Global, access: Access, items: &Items<Effect>) -> Result<EffectSet, NoMemory>
    ensures { IfOk result (λ all. all ≡ items_of access items.now) }
{
    let mut all = EffectSet::new(alloc);
    for item in items.as_slice() {
        if item.access == access {
            all.add(item.copy(alloc)?)?;
        }
    }
    Ok(all)
}

/// Items after their word, where there are any.
fn list(
    alloc: Global,
    program: &Program,
    of_class: &[RegionParam],
    own: &[RegionParam],
    word: &[u8],
    items: &EffectSet,
    out: &mut Bytes,
) -> Result<(), NoMemory>
    ensures { OnOk result (out.new ≡ out.old ++ listed word.now (map (item_text (names_of program.now) (all_params of_class.now own.now)) items.now)) }
{
    let mut between = word;
    for item in items.as_slice() {
        out.extend(between)?;
        tell_item(alloc, program, of_class, own, item, out)?;
        between = b", ";
    }
    Ok(())
}

fn tell_item(
    alloc: Global,
    program: &Program,
    of_class: &[RegionParam],
    own: &[RegionParam],
    item: &Effect,
    out: &mut Bytes,
) -> Result<(), NoMemory>
    ensures { OnOk result (out.new ≡ out.old ++ item_text (names_of program.now) (all_params of_class.now own.now) item.now) }
{
    out.extend(mark(item.atomic))?;
    path(alloc, program, of_class, own, &item.rpl, out)
}

fn mark(atomic: bool) -> &'static [u8]
    ensures { result.now ≡ mark_text atomic }
{
    if atomic { b"atomic " } else { b"" }
}

fn path(
    alloc: Global,
    program: &Program,
    of_class: &[RegionParam],
    own: &[RegionParam],
    rpl: &Rpl,
    out: &mut Bytes,
) -> Result<(), NoMemory>
    ensures { OnOk result (out.new ≡ out.old ++ path_text (names_of program.now) (all_params of_class.now own.now) rpl.now) }
{
    out.extend(head(of_class, own, rpl.head))?;
    for elem in rpl.elems.as_slice() {
        out.extend(b":")?;
        element(alloc, program, *elem, out)?;
    }
    Ok(())
}

fn head<'a>(of_class: &'a [RegionParam], own: &'a [RegionParam], head: Head) -> &'a [u8]
    ensures { result.now ≡ head_text (all_params of_class.now own.now) head }
{
    match head {
        Head::Root => b"Root",
        Head::Param(number) => param_name(of_class, own, number as usize),
    }
}

/// The name of a region parameter: those of the class come first, and then the others.
fn param_name<'a>(of_class: &'a [RegionParam], own: &'a [RegionParam], number: usize) -> &'a [u8]
    ensures { result.now ≡ slice_index_or (all_params of_class.now own.now) number (codes "?") }
{
    match of_class.get(number) {
        Some(param) => param.text.as_slice(),
        None => match own.get(number - of_class.len()) {
            Some(param) => param.text.as_slice(),
            None => b"?",
        },
    }
}

fn class_params(program: &Program, class: u32) -> &[RegionParam]
    ensures { map (λ param. param.text) result.now ≡ class_params (names_of program.now) class }
{
    match program.classes.get(class as usize) {
        Some(class) => class.params.as_slice(),
        None => &[],
    }
}

/// The name of a class, and none where there is no class of this number.
pub fn class_name(program: &Program, class: u32) -> &[u8]
    ensures { result.now ≡ class_name (names_of program.now) class }
{
    match program.classes.get(class as usize) {
        Some(class) => class.name.as_slice(),
        None => b"",
    }
}

fn element(alloc: Global, program: &Program, elem: Elem, out: &mut Bytes) -> Result<(), NoMemory>
    ensures { OnOk result (out.new ≡ out.old ++ elem_text (names_of program.now) elem) }
{
    match elem {
        Elem::Name(number) => name(program, number, out),
        Elem::At(Index::Literal(value)) => index(alloc, value, out),
        Elem::Star => out.extend(b"*"),
        Elem::Local(..) => out.extend(b"local"),
        _ => out.extend(b"[?]"),
    }
}

/// A region name, with the class that declares it.
fn name(program: &Program, number: u32, out: &mut Bytes) -> Result<(), NoMemory>
    ensures { OnOk result (out.new ≡ out.old ++ region_text (names_of program.now) number) }
{
    let Some(region) = program.region_names.get(number as usize) else {
        return Ok(());
    };
    out.extend(class_name(program, region.class.number))?;
    out.extend(b".")?;
    out.extend(region.text.as_slice())
}

/// An index that is a number.
fn index(alloc: Global, value: i32, out: &mut Bytes) -> Result<(), NoMemory>
    ensures { OnOk result (out.new ≡ out.old ++ (codes "[" ++ signed_decimal value ++ codes "]")) }
{
    out.extend(format!(in alloc; "[{value}]")?.as_bytes())
}
