ghost use Rattle.std.specs.Prelude.{◌≡◌, ◌++◌, IfOk, OnOk};
ghost use Rattle.code_listing.specs.Listing.{instr_line, instr_lines, title_line, body_text, listing_of};

use crate::line::Line;
use code_instrs::{Body, Code, Instr, Title};
use lang_base::{Bytes, NoMemory};
use std::alloc::Global;

/// The listing of the code.
pub fn listing(alloc: Global, code: &Code) -> Result<Bytes, NoMemory>
    ensures { IfOk result (λ text. text ≡ listing_of code.now) }
{
    let mut text = Bytes::new(alloc);
    for body in code.bodies.as_slice() {
        tell_body(alloc, &mut text, body)?;
    }
    Ok(text)
}

/// A body: its title, and its instructions.
fn tell_body(alloc: Global, text: &mut Bytes, body: &Body) -> Result<(), NoMemory>
    ensures { OnOk result (text.new ≡ text.old ++ body_text body.now) }
{
    tell_title(alloc, text, &body.title)?;
    tell_instrs(alloc, text, body.instrs.as_slice())
}

fn tell_title(alloc: Global, text: &mut Bytes, title: &Title) -> Result<(), NoMemory>
    ensures { OnOk result (text.new ≡ text.old ++ title_line title.now) }
{
    match title {
        Title::Member(name) => {
            text.extend(b"method ")?;
            text.extend(name.as_slice())?;
            text.push(b'\n')
        }
        Title::Branch(site, number) => {
            text.extend(format!(in alloc; "branch {site} {number}\n")?.as_bytes())
        }
    }
}

/// The instructions of a body, from position 0.
fn tell_instrs(alloc: Global, text: &mut Bytes, instrs: &[Instr]) -> Result<(), NoMemory>
    ensures { OnOk result (text.new ≡ text.old ++ instr_lines 0 instrs.now) }
{
    for (at, instr) in instrs.iter().enumerate() {
        let line = Line { at, instr: *instr };
        tell_line(alloc, text, line)?;
    }
    Ok(())
}

fn tell_line(alloc: Global, text: &mut Bytes, line: Line) -> Result<(), NoMemory>
    ensures { OnOk result (text.new ≡ text.old ++ instr_line line.at line.instr) }
{
    text.extend(format!(in alloc; "{line}\n")?.as_bytes())
}
