ghost use Rattle.std.specs.Prelude.{◌≡◌, ◌<◌, ◌≤◌, ◌^◌, [], IfOk};
ghost use Rattle.lang_typed.specs.Plain.{plain_program};
ghost use Rattle.lang_base.specs.declared.outcome.Ending.TheVariants.{Limited};
ghost use Rattle.std.specs.Prelude.{suc};
ghost use Rattle.lang_meaning.specs.Elision.{in_order, root_task};
ghost use Rattle.lang_meaning.specs.Outcomes.{Came};
ghost use Rattle.exec_frames.specs.Names.{plain_frame};
ghost use Rattle.exec_walker.specs.Stores.{Holds};
ghost use Rattle.exec_walker.specs.Walk.{root_level};
ghost use Rattle.exec_walker.specs.Outcome.{IsElided, Begun, Walked, nothing};
ghost use Rattle.exec_walker.specs.States.{plain_level, plain_over};
ghost use Rattle.lang_meaning.specs.Reported.{reported, reported_ending};

use crate::calls::first_values;
use crate::laws::law_walk;
use crate::level::Level;
use crate::walker::{Over, Walker};
use crate::{Halt, Store};
use exec_frames::{Frame, Stack, entered, number};
use exec_heap::Heap;
use lang_base::{Bytes, Ending, Items, Limits, NoMemory, Outcome, Value};
use lang_typed::Program;
use std::alloc::Global;

/// How many calls deeper `main` may go.
const MOST_CALLS: u32 = 499;

/// The outcome of the serial elision of a program on the argument of `main`, within limits.
pub fn elide(
    alloc: Global,
    program: &Program,
    argument: i32,
    limits: Limits,
) -> Result<Outcome, NoMemory>
    requires steps { limits.steps < 2 ^ 32 }
    requires cells { limits.cells ≤ 16777216 }
    ensures { IfOk result (IsElided (plain_program program.now) argument limits) }
{
    match walked(alloc, program, argument, limits) {
        Ok(outcome) => Ok(outcome),
        Err(Halt::Limited) => Ok(limited(alloc, limits)),
        Err(Halt::NoMemory) => Err(NoMemory),
    }
}

/// The outcome of a walk that is over within the limits.
fn walked(alloc: Global, program: &Program, argument: i32, limits: Limits) -> Result<Outcome, Halt>
    requires steps { limits.steps < 2 ^ 32 }
    requires cells { limits.cells ≤ 16777216 }
    ensures { Walked (plain_program program.now) argument limits result }
{
    law_walk();
    let mut walker = begun(alloc, program, argument, limits)?;
    loop {
        if let Some(over) = walker.to_next_cost(program)? {
            return Ok(outcome(walker, over));
        }
    }
}

/// The walk at its start: `main` entered on the first object.
fn begun<'p>(
    alloc: Global,
    program: &'p Program,
    argument: i32,
    limits: Limits,
) -> Result<Walker<'p>, Halt>
    requires steps { limits.steps < 2 ^ 32 }
    requires cells { limits.cells ≤ 16777216 }
    ensures { Begun (plain_program program.now) argument limits result }
{
    let mut store = empty_store(alloc, limits);
    let class = program.main_class.number;
    let fields = first_values(alloc, program, class)?;
    store.make_object(class, Items::new(alloc), fields.as_slice(), false)?;
    Ok(Walker {
        alloc,
        level: main_level(alloc, program, argument)?,
        waiting: Stack::new(alloc),
        store,
    })
}

/// A store in which nothing was made yet.
fn empty_store(alloc: Global, limits: Limits) -> Store
    requires steps { limits.steps < 2 ^ 32 }
    requires cells { limits.cells ≤ 16777216 }
    ensures { Holds limits result (nothing (suc limits.steps)) }
{
    Store {
        heap: Heap::new(alloc, limits.cells),
        output: Bytes::new(alloc),
        trap: None,
        steps: 0,
        regions: 0,
        limit: limits.steps,
    }
}

/// The body of `main`, on the first object.
fn main_level<'p>(alloc: Global, program: &'p Program, argument: i32) -> Result<Level<'p>, NoMemory>
    ensures { IfOk result (λ g. plain_level g ≡ root_level (root_task in_order (plain_program program.now) 0 argument)) }
{
    let Some(member) = program.members.get(program.main_member.number as usize) else {
        return Level::beginning(alloc, &[], empty_frame(alloc));
    };
    let mut values = Items::new(alloc);
    values.push(Value::Obj(0))?;
    values.push(Value::Int(argument))?;
    let frame = entered(alloc, member, values, Items::new(alloc), MOST_CALLS)?;
    Level::beginning(alloc, member.body.as_slice(), frame)
}

/// The frame of a `main` that is missing.
fn empty_frame(alloc: Global) -> Frame
    ensures { plain_frame result ≡ record { values = []; regions = []; locals = []; left = 499 } }
{
    Frame {
        values: Items::new(alloc),
        regions: Items::new(alloc),
        locals: Items::new(alloc),
        left: MOST_CALLS,
    }
}

/// The outcome of a walk that is over.
fn outcome(walker: Walker, over: Over) -> Outcome
    ensures { result ≡ reported (Came (plain_over over) walker.entry.store.output walker.entry.store.steps walker.entry.store.heap.used) }
{
    let Walker { store, .. } = walker;
    let steps = store.steps;
    let cells = store.heap.cells();
    Outcome {
        ending: reported_ending(over),
        out: store.output,
        steps,
        cells,
    }
}

fn reported_ending(over: Over) -> Ending
    ensures { result ≡ reported_ending (plain_over over) }
{
    match over {
        Over::Returned(value) => Ending::Done(number(value)),
        Over::Trapped(trap, place) => Ending::Trapped(trap, place),
    }
}

fn limited(alloc: Global, limits: Limits) -> Outcome
    ensures { result ≡ record { ending = Limited; out = []; steps = limits.steps; cells = limits.cells } }
{
    Outcome {
        ending: Ending::Limited,
        out: Bytes::new(alloc),
        steps: limits.steps,
        cells: limits.cells,
    }
}
