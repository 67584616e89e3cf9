ghost use Rattle.std.specs.Prelude.{◌≡◌, ◌∷◌, ◌++◌, ℕ, suc, map, drop, Some, option_map, IfOk, OnOk, OnErr};
ghost use Rattle.lang_base.specs.declared.place.Place.{Place};
ghost use Rattle.lang_meaning.specs.Counts.{class_seen};
ghost use Rattle.lang_meaning.specs.Regions.{around, concrete};
ghost use Rattle.code_instrs.specs.Machine.{called, created};
ghost use Rattle.code_instrs.specs.Plain.{plain_code, plain_method, member_in, method_at, call_site, new_site};
ghost use Rattle.exec_task.specs.Answers.{LeadsTo, below_top, first_at, method_start};
ghost use Rattle.exec_frames.specs.Names.{plain_value};
ghost use Rattle.exec_task.specs.Names.{names_of, plain_region};
ghost use Rattle.exec_task.specs.Steps.{HasNext};
ghost use Rattle.exec_task.specs.Tasks.{plain_level, plain_frame, plain_start, plain_answer, plain_seen, state_in};

use crate::action::Answer;
use crate::answers::name_made;
use crate::classes::{CodeClasses, constructor_of};
use crate::frames::frame_of;
use crate::task::{Level, Standing, Start};
use code_instrs::{Code, MethodCode};
use exec_frames::{
    Frame, Seen, Stack, call_values, class_entered, concrete, concrete_all, regions_above,
};
use lang_base::{Items, NoMemory, Region, Rpl, Value};
use std::alloc::Global;

/// What a look at a receiver is answered.
fn class_seen(answer: Answer) -> Option<Seen>
    ensures { option_map plain_seen result ≡ class_seen (plain_answer answer) }
{
    match answer {
        Answer::Class { class, regions } => Some(Seen { class, regions }),
        _ => None,
    }
}

/// A row of methods of a class.
fn method_at(code: &Code, class: u32, row: u32) -> Option<MethodCode>
    ensures { option_map plain_method result ≡ method_at (plain_code code.now) class row }
{
    let member = code.classes.get(class as usize)?.methods.get(row as usize)?;
    Some(member_of(code, *member))
}

/// A member, by its number; where there is none, the first body, of the first class.
fn member_of(code: &Code, member: u32) -> MethodCode
    ensures { plain_method result ≡ member_in code.now.members member }
{
    match code.members.get(member as usize) {
        Some(found) => *found,
        None => MethodCode { owner: 0, body: 0 },
    }
}

/// The regions of the class, and then the row's own.
fn with_own(
    alloc: Global,
    frame: &Frame,
    regions: Items<Region>,
    own: &Items<Rpl>,
) -> Result<Items<Region>, NoMemory>
    ensures { IfOk result (λ rs. map plain_region rs ≡ map plain_region regions ++ map (concrete (names_of 0) (around (plain_frame frame.now))) own.now) }
{
    let mut regions = regions;
    for path in own.as_slice() {
        regions.push(concrete(alloc, frame, path)?)?;
    }
    Ok(regions)
}

/// Into a body, from a level that goes on at the next instruction without so many values and the one below.
fn enter_body(
    alloc: Global,
    level: &mut Level,
    callers: &mut Stack<Level>,
    above: usize,
    start: Start,
) -> Result<(), NoMemory>
    requires { HasNext level.old }
    ensures ok { OnOk result ((plain_level level.new ≡ first_at (plain_start start)) × (map plain_level callers.new ≡ record (plain_level level.old) { at = suc level.old.at; stack = drop (suc above) (plain_level level.old).stack } ∷ map plain_level callers.old)) }
    ensures err { OnErr result ((level.new ≡ level.old) × (callers.new ≡ callers.old)) }
{
    if callers.push(first(alloc, start)).is_err() {
        return Err(NoMemory);
    }
    level.pass_receiver(above);
    callers.swap_top(level);
    Ok(())
}

/// A body at its beginning.
fn first(alloc: Global, start: Start) -> Level
    ensures { plain_level result ≡ first_at (plain_start start) }
{
    Level {
        body: start.body,
        at: 0,
        frame: start.frame,
        stack: Stack::new(alloc),
    }
}

/// Into the constructor of what was made, which stays on the stack in the place of so many values.
fn enter_constructor(
    alloc: Global,
    level: &mut Level,
    callers: &mut Stack<Level>,
    taken: usize,
    made: Value,
    start: Start,
) -> Result<(), NoMemory>
    requires { HasNext level.old }
    ensures ok { OnOk result ((plain_level level.new ≡ first_at (plain_start start)) × (map plain_level callers.new ≡ record (plain_level level.old) { at = suc level.old.at; stack = plain_value made ∷ below_top taken (plain_level level.old) } ∷ map plain_level callers.old)) }
    ensures err { OnErr result ((level.new ≡ level.old) × (callers.new ≡ callers.old)) }
{
    if callers.push(first(alloc, start)).is_err() {
        return Err(NoMemory);
    }
    if level.pass_with(taken, made).is_err() {
        callers.drop_top(1);
        return Err(NoMemory);
    }
    callers.swap_top(level);
    Ok(())
}

/// After the look at the receiver of a call of a row of a class.
pub fn after_call(
    alloc: Global,
    code: &Code,
    level: &mut Level,
    callers: &mut Stack<Level>,
    call: &CallSite<'_>,
    answer: Answer,
) -> Result<Standing, NoMemory>
    requires { HasNext level.old }
    ensures ok { IfOk result (λ s. (task : ℕ) (place : Place) → LeadsTo (called (names_of task) (plain_code code.now) place (Some (call_site call.now.class call.now.row call.now.formals call.now.regions.now)) (plain_level level.old) (map plain_level callers.old)) (plain_answer answer) (state_in s level.new callers.new)) }
    ensures err { OnErr result ((level.new ≡ level.old) × (callers.new ≡ callers.old)) }
{
    let Some(receiver) = level.stack.get(call.formals) else {
        return Ok(Standing::Nowhere);
    };
    let seen = class_entered(alloc, &CodeClasses { code }, call.class, class_seen(answer));
    let Some(method) = method_at(code, seen.class, call.row) else {
        return Ok(Standing::Nowhere);
    };
    let values = call_values(alloc, *receiver, &level.stack, call.formals)?;
    let start = method_start(
        alloc,
        code,
        method,
        seen,
        values,
        &level.frame,
        call.regions,
    )?;
    enter_body(alloc, level, callers, call.formals, start)?;
    Ok(Standing::At)
}

/// How a row is entered.
fn method_start(
    alloc: Global,
    code: &Code,
    method: MethodCode,
    seen: Seen,
    values: Items<Value>,
    caller: &Frame,
    own: &Items<Rpl>,
) -> Result<Start, NoMemory>
    ensures { IfOk result (λ start. plain_start start ≡ method_start (plain_code code.now) (plain_method method) (plain_seen seen) (map plain_value values) (plain_frame caller.now) own.now) }
{
    let regions = regions_above(
        alloc,
        &CodeClasses { code },
        seen.class,
        seen.regions,
        method.owner,
    )?;
    let regions = with_own(alloc, caller, regions, own)?;
    let frame = frame_of(
        alloc,
        code,
        method.body,
        values,
        regions,
        caller.left.saturating_sub(1),
    )?;
    Ok(Start {
        body: method.body,
        frame,
    })
}

/// A call, as its site says.
#[derive(Drop)]
pub struct CallSite<'a> {
    pub class: u32,
    pub row: u32,
    pub formals: usize,
    pub regions: &'a Items<Rpl>,
}

/// After the making of an object of a class, of so many values, with these regions.
pub fn after_creation(
    alloc: Global,
    code: &Code,
    level: &mut Level,
    callers: &mut Stack<Level>,
    class: u32,
    formals: usize,
    regions: &Items<Rpl>,
    answer: &Answer,
) -> Result<Standing, NoMemory>
    requires { HasNext level.old }
    ensures ok { IfOk result (λ s. (task : ℕ) (place : Place) → LeadsTo (created (names_of task) (plain_code code.now) place (Some (new_site class formals regions.now)) (plain_level level.old) (map plain_level callers.old)) (plain_answer answer.now) (state_in s level.new callers.new)) }
    ensures err { OnErr result ((level.new ≡ level.old) × (callers.new ≡ callers.old)) }
{
    let Some(body) = constructor_of(code, class) else {
        return level.after_making(formals, answer);
    };
    let made = name_made(answer);
    let values = call_values(alloc, made, &level.stack, formals)?;
    let regions = concrete_all(alloc, &level.frame, regions)?;
    let left = level.frame.left.saturating_sub(1);
    let frame = frame_of(alloc, code, body, values, regions, left)?;
    enter_constructor(alloc, level, callers, formals, made, Start { body, frame })?;
    Ok(Standing::At)
}
