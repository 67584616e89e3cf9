ghost use Rattle.std.specs.Prelude.{◌≡◌, ◌++◌, ◌-◌, codes, flat_map, length, take, OnOk};
ghost use Rattle.std.specs.Fmt.{decimal};
ghost use Rattle.lang_typed.specs.Names.{names_of};
ghost use Rattle.tool_trace.specs.events.Names.{elements_name, spelling_of};
ghost use Rattle.tool_trace.specs.events.Text.{action_text, answer_text, byte_text, ending_text, forking_text, own_text};

use crate::events::naming::{name, spot, value};
use crate::events::thing::{Elements, Thing};
use crate::events::walk::Walk;
use body_infer::{class_name, summary};
use exec_task::{Action, Answer, Ending, Own};
use lang_base::{Bytes, Items, NoMemory};
use lang_typed::{Forking, Program};
use std::alloc::Global;

/// Puts what a task does after a text.
pub fn act(
    alloc: Global,
    program: &Program,
    fields: &[Items<Bytes>],
    walk: &Walk,
    action: &Action,
    out: &mut Bytes,
) -> Result<(), NoMemory>
    ensures { OnOk result (out.new ≡ out.old ++ action_text (spelling_of program.now fields.now) walk.now action.now) }
{
    match action {
        Action::Do(own) => act_alone(alloc, program, fields, walk.things.as_slice(), own, out),
        Action::Fork { forking, branches } => fork(alloc, *forking, *branches, out),
        Action::Begin { .. } => begin(alloc, walk.begun, out),
        Action::Join => out.extend(b"join"),
        Action::End(ending) => end(alloc, program, walk, ending, out),
    }
}

/// Puts what a task does by itself after a text.
fn act_alone(
    alloc: Global,
    program: &Program,
    fields: &[Items<Bytes>],
    things: &[Thing],
    own: &Own,
    out: &mut Bytes,
) -> Result<(), NoMemory>
    ensures { OnOk result (out.new ≡ out.old ++ own_text (spelling_of program.now fields.now) things.now own.now) }
{
    match own {
        Own::Rest => out.extend(b"rest"),
        Own::Read { object, index } => {
            out.extend(b"read ")?;
            spot(alloc, program, fields, things, *object, *index, out)
        }
        Own::Write {
            object,
            index,
            value: written,
        } => {
            out.extend(b"write ")?;
            spot(alloc, program, fields, things, *object, *index, out)?;
            out.extend(b" = ")?;
            value(alloc, program, things, *written, out)
        }
        Own::Look { object } => {
            out.extend(b"look ")?;
            name(alloc, program, things, *object, out)
        }
        Own::NewObject { class, .. } => {
            out.extend(b"new ")?;
            out.extend(class_name(program, *class))
        }
        Own::NewArray { len, first, .. } => new_array(alloc, *len, Elements::of(*first), out),
        Own::Print(bytes) => printed(bytes, out),
        Own::Enter(effects) => {
            out.extend(b"enter")?;
            summary(alloc, program, &[], &[], effects, out)
        }
        Own::Exit => out.extend(b"exit"),
    }
}

fn new_array(alloc: Global, len: u32, elements: Elements, out: &mut Bytes) -> Result<(), NoMemory>
    ensures { OnOk result (out.new ≡ out.old ++ (codes "new " ++ elements_name elements ++ codes "[" ++ decimal len ++ codes "]")) }
{
    out.extend(b"new ")?;
    out.extend(elements.name())?;
    out.extend(format!(in alloc; "[{len}]")?.as_bytes())
}

/// What is printed, without the end of its line.
fn printed(bytes: &Bytes, out: &mut Bytes) -> Result<(), NoMemory>
    ensures { OnOk result (out.new ≡ out.old ++ (codes "print " ++ flat_map byte_text (take (length bytes.now - 1) bytes.now))) }
{
    out.extend(b"print ")?;
    let bytes = bytes.as_slice();
    on_one_line(&bytes[..bytes.len().saturating_sub(1)], out)
}

fn on_one_line(bytes: &[u8], out: &mut Bytes) -> Result<(), NoMemory>
    ensures { OnOk result (out.new ≡ out.old ++ flat_map byte_text bytes.now) }
{
    for byte in bytes {
        put(*byte, out)?;
    }
    Ok(())
}

fn put(byte: u8, out: &mut Bytes) -> Result<(), NoMemory>
    ensures { OnOk result (out.new ≡ out.old ++ byte_text byte) }
{
    match byte {
        b'\n' => out.extend(b"\\n"),
        b'\\' => out.extend(b"\\\\"),
        other => out.push(other),
    }
}

fn fork(alloc: Global, forking: Forking, branches: usize, out: &mut Bytes) -> Result<(), NoMemory>
    ensures { OnOk result (out.new ≡ out.old ++ (forking_text forking ++ decimal branches)) }
{
    match forking {
        Forking::Deterministic => out.extend(b"fork ")?,
        Forking::Nondeterministic => out.extend(b"fork_nd ")?,
    }
    out.extend(format!(in alloc; "{branches}")?.as_bytes())
}

fn begin(alloc: Global, task: u64, out: &mut Bytes) -> Result<(), NoMemory>
    ensures { OnOk result (out.new ≡ out.old ++ (codes "begin " ++ decimal task)) }
{
    out.extend(format!(in alloc; "begin {task}")?.as_bytes())
}

/// How a task ends.
fn end(
    alloc: Global,
    program: &Program,
    walk: &Walk,
    ending: &Ending,
    out: &mut Bytes,
) -> Result<(), NoMemory>
    ensures { OnOk result (out.new ≡ out.old ++ ending_text (names_of program.now) walk.now ending.now) }
{
    match ending {
        Ending::Returned(returned) => {
            out.extend(b"end ")?;
            value(alloc, program, walk.things.as_slice(), *returned, out)
        }
        Ending::Assigned(_) => out.extend(b"end"),
        Ending::Trapped(trap, place) => {
            let (trap, place) = (*trap, *place);
            out.extend(format!(in alloc; "end trap {trap} {place}")?.as_bytes())
        }
    }
}

/// Puts what a task is answered after a text.
pub fn answer(
    alloc: Global,
    program: &Program,
    walk: &Walk,
    answer: &Answer,
    out: &mut Bytes,
) -> Result<(), NoMemory>
    ensures { OnOk result (out.new ≡ out.old ++ answer_text (names_of program.now) walk.now answer.now) }
{
    match answer {
        Answer::Got(got) => {
            out.extend(b" = ")?;
            value(alloc, program, walk.things.as_slice(), *got, out)
        }
        Answer::Length(len) => {
            let len = *len;
            out.extend(format!(in alloc; " = {len}")?.as_bytes())
        }
        Answer::Out => out.extend(b" out"),
        Answer::Made(number) => {
            let number = *number;
            out.extend(format!(in alloc; "#{number}")?.as_bytes())
        }
        _ => Ok(()),
    }
}
