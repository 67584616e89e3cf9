use crate::listing;
use code_instrs::{Body, Code, Instr, Title};
use lang_base::{BinaryOp, Bytes, Items, NoMemory};
use std::alloc::Global;
use std::test::Fail;

fn body(alloc: Global, title: Title, listed: &[Instr]) -> Result<Body, NoMemory> {
    let mut instrs = Items::new(alloc);
    for instr in listed {
        instrs.push(*instr)?;
    }
    Ok(Body {
        title,
        instrs,
        places: Items::new(alloc),
        slots: 0,
        locals: 0,
    })
}

fn code_of(alloc: Global, bodies: Items<Body>) -> Code {
    Code {
        classes: Items::new(alloc),
        members: Items::new(alloc),
        bodies,
        sites: Items::new(alloc),
        texts: Items::new(alloc),
        main_class: 0,
        main_body: 0,
    }
}

fn member(alloc: Global, name: &str) -> Result<Title, NoMemory> {
    Ok(Title::Member(Bytes::from_slice(alloc, name.as_bytes())?))
}

/// `main` with a `cobegin` of two prints.
fn two_prints(alloc: Global) -> Result<Code, NoMemory> {
    let mut bodies = Items::new(alloc);
    let main = [Instr::Fork(0), Instr::Join, Instr::Int(0), Instr::Return];
    let first = [Instr::Int(1), Instr::Print, Instr::End];
    let second = [Instr::Int(2), Instr::Print, Instr::End];
    bodies.push(body(alloc, member(alloc, "Main.main")?, main.as_slice())?)?;
    bodies.push(body(alloc, Title::Branch(0, 0), first.as_slice())?)?;
    bodies.push(body(alloc, Title::Branch(0, 1), second.as_slice())?)?;
    Ok(code_of(alloc, bodies))
}

/// A loop, with positions of one digit and of two.
fn counting(alloc: Global) -> Result<Code, NoMemory> {
    let mut bodies = Items::new(alloc);
    let main = [
        Instr::Load(1),
        Instr::Int(-7),
        Instr::Binary(BinaryOp::Greater),
        Instr::Unless(10),
        Instr::Turn,
        Instr::Load(1),
        Instr::Int(1),
        Instr::Binary(BinaryOp::Subtract),
        Instr::Store(1),
        Instr::Jump(0),
        Instr::Bool(true),
        Instr::InParts(12),
        Instr::PutElem,
    ];
    bodies.push(body(alloc, member(alloc, "Main.main")?, main.as_slice())?)?;
    Ok(code_of(alloc, bodies))
}

const TWO_PRINTS: &str = "\
method Main.main
   0 fork 0
   1 join
   2 int 0
   3 return
branch 0 0
   0 int 1
   1 print
   2 end
branch 0 1
   0 int 2
   1 print
   2 end
";

const COUNTING: &str = "\
method Main.main
   0 load 1
   1 int -7
   2 gt
   3 unless 10
   4 turn
   5 load 1
   6 int 1
   7 sub
   8 store 1
   9 jump 0
  10 bool true
  11 inparts 12
  12 putelem
";

#[test]
fn bodies_are_reported_line_by_line(rt: HostRuntime) -> Result<(), Fail> {
    let alloc = rt.alloc();
    let reported = [
        (two_prints(alloc)?, TWO_PRINTS),
        (counting(alloc)?, COUNTING),
    ];
    for (code, text) in &reported {
        assert!(rt; listing(alloc, code)?.as_slice() == text.as_bytes());
    }
    Ok(())
}
