ghost use Rattle.std.specs.Prelude.{◌≡◌, ◌++◌, [], map, not, true, false, IfOk, OnOk};
ghost use Rattle.lang_typed.specs.Plain.{plain_source};
ghost use Rattle.lang_typed.specs.Effects.{begins_in, mapped, marked, own_after, outside_variable};
ghost use Rattle.body_infer.specs.Walked.{all_done, done_of, outside_elem, outside, outside_all, handed_to};

use crate::numbers::Numbers;
use crate::own::Own;
use lang_base::{Elem, Elems, Index, Items, NoMemory, Rpl};
use lang_typed::{PartSource, Slot};
use std::alloc::Global;

/// What came into scope at a place of a body and isn't in scope outside of it.
#[derive(Drop)]
pub struct Opened {
    pub variables: Numbers,
    pub regions: Numbers,
}

impl Opened {
    pub fn new(alloc: Global) -> Opened
        ensures { result ≡ record { variables = []; regions = [] } }
    {
        Opened {
            variables: Numbers::new(alloc),
            regions: Numbers::new(alloc),
        }
    }

    /// Adds what was opened after this.
    pub fn add(&mut self, more: Opened) -> Result<(), NoMemory>
        ensures variables { OnOk result (self.new.variables ≡ self.old.variables ++ more.variables) }
        ensures regions { OnOk result (self.new.regions ≡ self.old.regions ++ more.regions) }
    {
        let Opened { variables, regions } = more;
        self.variables.append(variables)?;
        self.regions.append(regions)
    }
}

/// Adds some items at the end of others.
pub fn append<T: Drop>(more: Items<T>, all: &mut Items<T>) -> Result<(), NoMemory>
    ensures { OnOk result (all.new ≡ all.old ++ more) }
{
    for item in more.into_vec() {
        all.push(item)?;
    }
    Ok(())
}

/// Adds what a part of a body does, as it is seen outside the scope of what was opened: an index variable of it is any index, and
/// nobody sees an access to its local regions.
#[tactic(auto, using(crate::proofs::Reading::joined))]
pub fn leave(
    alloc: Global,
    opened: &Opened,
    inner: Items<Own>,
    out: &mut Items<Own>,
) -> Result<(), NoMemory>
    ensures { OnOk result (all_done out.new ≡ all_done out.old ++ outside_all opened.now.variables opened.now.regions (all_done inner)) }
{
    for own in inner.into_vec() {
        if is_seen(opened, &own.effect.rpl) {
            out.push(outside(alloc, opened, own)?)?;
        }
    }
    Ok(())
}

#[tactic(auto, using(crate::proofs::Finding::any_swapped))]
fn is_seen(opened: &Opened, rpl: &Rpl) -> bool
    ensures { result ≡ not (begins_in opened.now.regions rpl.now.elems) }
{
    match rpl.elems.as_slice() {
        [Elem::Local(number, _), ..] => !opened.regions.has(*number as u64),
        _ => true,
    }
}

fn outside(alloc: Global, opened: &Opened, own: Own) -> Result<Own, NoMemory>
    ensures { IfOk result (λ made. done_of made ≡ mapped (outside opened.now.variables) (done_of own)) }
{
    let Own { mut effect, part } = own;
    effect.rpl.elems = outside_elems(alloc, opened, &effect.rpl.elems)?;
    Ok(Own { effect, part })
}

fn outside_elems(alloc: Global, opened: &Opened, elems: &Elems) -> Result<Elems, NoMemory>
    ensures { IfOk result (λ made. made ≡ map (outside_elem opened.now.variables) elems.now) }
{
    let mut all = Elems::new(alloc);
    for elem in elems.as_slice() {
        all.push(outside_elem(opened, *elem))?;
    }
    Ok(all)
}

fn outside_elem(opened: &Opened, elem: Elem) -> Elem
    ensures { result ≡ outside_elem opened.now.variables elem }
{
    match elem {
        Elem::At(Index::Variable(slot)) => outside_variable(opened, slot),
        Elem::At(Index::Literal(_))
        | Elem::At(Index::Renamed(_))
        | Elem::At(Index::Own(_))
        | Elem::Name(_)
        | Elem::Any
        | Elem::Star
        | Elem::Local(_, _) => elem,
    }
}

fn outside_variable(opened: &Opened, slot: u32) -> Elem
    ensures { result ≡ outside_elem opened.now.variables (Elem.At (Index.Variable slot)) }
{
    if opened.variables.has(slot as u64) {
        Elem::Any
    } else {
        Elem::At(Index::Variable(slot))
    }
}

/// Adds what a loop's body does, as it is seen outside the scope of the loop's variable.
#[tactic(auto, using(crate::proofs::Outside::outside_one))]
pub fn leave_variable(
    alloc: Global,
    variable: u64,
    inner: Items<Own>,
    out: &mut Items<Own>,
) -> Result<(), NoMemory>
    ensures { OnOk result (all_done out.new ≡ all_done out.old ++ outside_variable variable (all_done inner)) }
{
    let mut opened = Opened::new(alloc);
    opened.variables.push(variable)?;
    leave(alloc, &opened, inner, out)
}

/// Adds what an atomic block does: it is marked, but for what is done through a part.
pub fn leave_block(inner: Items<Own>, out: &mut Items<Own>) -> Result<(), NoMemory>
    ensures { OnOk result (all_done out.new ≡ all_done out.old ++ map (marked true) (all_done inner)) }
{
    add_marked(inner, true, out)
}

/// Adds what a deterministic construct does, which has no marks.
pub fn leave_branches(inner: Items<Own>, out: &mut Items<Own>) -> Result<(), NoMemory>
    ensures { OnOk result (all_done out.new ≡ all_done out.old ++ map (marked false) (all_done inner)) }
{
    add_marked(inner, false, out)
}

#[tactic(auto, using(crate::proofs::Reading::joined))]
fn add_marked(inner: Items<Own>, mark: bool, out: &mut Items<Own>) -> Result<(), NoMemory>
    ensures { OnOk result (all_done out.new ≡ all_done out.old ++ map (marked mark) (all_done inner)) }
{
    for own in inner.into_vec() {
        out.push(marked(own, mark))?;
    }
    Ok(())
}

fn marked(own: Own, mark: bool) -> Own
    ensures { done_of result ≡ marked mark (done_of own) }
{
    let Own { mut effect, part } = own;
    match part {
        Some(slot) => Own {
            effect,
            part: Some(slot),
        },
        None => {
            effect.atomic = mark;
            Own { effect, part: None }
        }
    }
}

/// What a part was used for is done to the array after a construct over parts, or to the part that was cut.
pub fn handed_on(own: Own, part: Slot, source: &PartSource) -> Own
    ensures { done_of result ≡ own_after part.number (plain_source source.now) (done_of own) }
{
    let Own {
        effect,
        part: through,
    } = own;
    match through {
        None => Own { effect, part: None },
        Some(slot) if slot.number == part.number => Own {
            effect,
            part: handed_to(source),
        },
        Some(slot) => Own {
            effect,
            part: Some(slot),
        },
    }
}

fn handed_to(source: &PartSource) -> Option<Slot>
    ensures { result ≡ handed_to source.now }
{
    match source {
        PartSource::Array(_) => None,
        PartSource::Part(outer) => Some(*outer),
    }
}
