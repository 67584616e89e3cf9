ghost use Rattle.std.specs.Prelude.{◌≡◌, ℕ, map, codes, length, slice_index_or, None, Some, Ok, Err, IfOk, IfErr, OnOk};
ghost use Rattle.lang_base.specs.Refused.{IfRefused};
ghost use Rattle.decl_headers.specs.Around.{reported_on_way};
ghost use Rattle.decl_headers.specs.Faults.{all_noted};
ghost use Rattle.decl_headers.specs.First.{first_faults, parents_in, class_named};
ghost use Rattle.decl_headers.specs.Gathered.{param_row, header_row, header_rows, name_number, all_regions, check_headers};
ghost use Rattle.decl_headers.specs.Numbering.{counted_rows};
ghost use Rattle.decl_headers.specs.Numbers.{number_of};
ghost use Rattle.decl_headers.specs.Passes.{first_of};
ghost use Rattle.decl_headers.specs.Second.{AreCounted};
ghost use Rattle.decl_headers.specs.Way.{IsCounted, way_of};

use crate::faults::Faults;
use crate::fields::count_fields;
use crate::forest::{Step, way};
use crate::header::{Header, Headers, ParamRow};
use crate::members::check_members;
use crate::numbers::{NameNumbers, number_at};
use crate::regions::all_regions;
use crate::supers::{check_cycles, check_extended, find_parents, number_classes};
use lang_base::{Bytes, Items, NoMemory, Stop};
use std::alloc::Global;
use syntax_tree::{Class, ParamTree, Program};

/// The headers of a program's classes. It refuses two classes of one name, a superclass that isn't there, a class
/// that is its own superclass and a class that extends one with a constructor; and then two members, region
/// parameters or formals of one kind and one name, inherited ones included, and a constructor that isn't named as
/// its class. Of these two groups the first comes first, and in a group the fault with the least place.
pub fn headers(alloc: Global, program: &Program) -> Result<Headers, Stop>
    requires { AreCounted (length program.now.names) program.now.classes }
    ensures made { IfOk result (λ headers. check_headers program.now ≡ Ok headers) }
    ensures refused { IfErr result (λ stop. IfRefused stop (λ fault. check_headers program.now ≡ Err fault)) }
{
    let linked = link_classes(alloc, program.classes.as_slice())?;
    of_linked(alloc, program, linked)
}

/// The classes by name, and the superclass of each.
#[derive(Drop)]
struct Linked {
    numbers: NameNumbers,
    parents: Items<Option<u32>>,
}

/// Looks at the classes alone, or tells the first fault there.
fn link_classes(alloc: Global, classes: &[Class]) -> Result<Linked, Stop>
    ensures accepted { IfOk result (λ linked. first_of (first_faults classes.now) ≡ None) }
    ensures named { IfOk result (λ linked. (name : ℕ) → number_of linked.numbers name ≡ class_named classes.now name) }
    ensures parents { IfOk result (λ linked. linked.parents ≡ parents_in classes.now) }
    ensures fault { IfErr result (λ stop. IfRefused stop (λ fault. first_of (first_faults classes.now) ≡ Some fault)) }
{
    let mut faults = Faults::by_place();
    let linked = look_at_classes(alloc, classes, &mut faults)?;
    faults.settle()?;
    Ok(linked)
}

/// Notes each fault of the classes alone.
fn look_at_classes(
    alloc: Global,
    classes: &[Class],
    faults: &mut Faults,
) -> Result<Linked, NoMemory>
    ensures noted { OnOk result (faults.new ≡ all_noted faults.old (first_faults classes.now)) }
    ensures named { IfOk result (λ linked. (name : ℕ) → number_of linked.numbers name ≡ class_named classes.now name) }
    ensures parents { IfOk result (λ linked. linked.parents ≡ parents_in classes.now) }
{
    let numbers = number_classes(alloc, classes, faults)?;
    let parents = find_parents(alloc, classes, &numbers, faults)?;
    check_cycles(alloc, classes, parents.as_slice(), faults)?;
    check_extended(alloc, classes, parents.as_slice(), faults)?;
    Ok(Linked { numbers, parents })
}

/// Looks at the members of the classes, or tells the first fault there.
fn look_at_members(
    alloc: Global,
    classes: &[Class],
    names: usize,
    steps: &[Step],
) -> Result<(), Stop>
    ensures accepted { OnOk result (reported_on_way names classes.now steps.now ≡ None) }
    ensures fault { IfErr result (λ stop. IfRefused stop (λ fault. reported_on_way names classes.now steps.now ≡ Some fault)) }
{
    let mut faults = Faults::by_place();
    check_members(alloc, classes, names, steps, &mut faults)?;
    faults.settle()
}

/// The headers, or the first fault of members.
fn of_linked(alloc: Global, program: &Program, linked: Linked) -> Result<Headers, Stop>
    requires counted { IsCounted program.now.classes }
    requires first { first_of (first_faults program.now.classes) ≡ None }
    requires parents { linked.parents ≡ parents_in program.now.classes }
    requires named { (name : ℕ) → number_of linked.numbers name ≡ class_named program.now.classes name }
    ensures made { IfOk result (λ headers. headers ≡ record { rows = counted_rows program.now.classes (parents_in program.now.classes) (way_of (parents_in program.now.classes)); regions = all_regions 0 program.now.classes; main = name_number program.now.names (codes "Main") }) }
    ensures accepted { OnOk result (reported_on_way (length program.now.names) program.now.classes (way_of (parents_in program.now.classes)) ≡ None) }
    ensures fault { IfErr result (λ stop. IfRefused stop (λ fault. reported_on_way (length program.now.names) program.now.classes (way_of (parents_in program.now.classes)) ≡ Some fault)) }
{
    let Linked { numbers, parents } = linked;
    let classes = program.classes.as_slice();
    let steps = way(alloc, parents.as_slice())?;
    look_at_members(alloc, classes, program.names.len(), steps.as_slice())?;
    let rows = count_rows(alloc, classes, parents.as_slice(), steps.as_slice())?;
    let regions = all_regions(alloc, classes)?;
    let main_name = name_of(program.names.as_slice(), b"Main".as_slice());
    Ok(Headers::of_rows(alloc, rows, regions, numbers, main_name)?)
}

/// Region parameters as rows.
pub fn param_rows(alloc: Global, params: &[ParamTree]) -> Result<Items<ParamRow>, NoMemory>
    ensures { IfOk result (λ rows. rows ≡ map param_row params.now) }
{
    let mut rows = Items::new(alloc);
    for param in params {
        rows.push(ParamRow {
            name: param.name,
            atomic: param.atomic,
        })?;
    }
    Ok(rows)
}

/// The rows with the numbers of fields. The steps go through all classes.
fn count_rows(
    alloc: Global,
    classes: &[Class],
    parents: &[Option<u32>],
    steps: &[Step],
) -> Result<Items<Header>, NoMemory>
    ensures { IfOk result (λ rows. rows ≡ counted_rows classes.now parents.now steps.now) }
{
    let counts = count_fields(alloc, classes, parents, steps)?;
    rows(alloc, classes, parents, counts.as_slice())
}

fn rows(
    alloc: Global,
    classes: &[Class],
    parents: &[Option<u32>],
    counts: &[u32],
) -> Result<Items<Header>, NoMemory>
    ensures { IfOk result (λ rows. rows ≡ header_rows parents.now (λ at. slice_index_or counts.now at 0) 0 classes.now) }
{
    let mut rows = Items::new(alloc);
    for (at, class) in classes.iter().enumerate() {
        rows.push(row(alloc, class, parents, counts, at)?)?;
    }
    Ok(rows)
}

fn row(
    alloc: Global,
    class: &Class,
    parents: &[Option<u32>],
    counts: &[u32],
    at: usize,
) -> Result<Header, NoMemory>
    ensures { IfOk result (λ row. row ≡ header_row parents.now (λ number. slice_index_or counts.now number 0) at class.now) }
{
    Ok(Header {
        name: class.name,
        place: class.place,
        parent: parents.get(at).copied().flatten(),
        params: param_rows(alloc, class.params.list.as_slice())?,
        fields: counts.get(at).copied().unwrap_or(0),
    })
}

/// The number of a name, where the text has it.
fn name_of(names: &[Bytes], text: &[u8]) -> Option<u32>
    ensures { result ≡ name_number names.now text.now }
{
    for (at, name) in names.iter().enumerate() {
        if name.as_slice() == text {
            return Some(number_at(at));
        }
    }
    None
}
