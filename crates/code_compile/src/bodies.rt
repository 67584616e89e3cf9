ghost use Rattle.std.specs.Option.{option_copied};
ghost use Rattle.std.specs.Prelude.{◌≡◌, ◌<◌, ◌∷◌, OnOk, IfOk, [], map, length};
ghost use Rattle.lang_typed.specs.Plain.{plain_member, plain_stmt, stmts_of};
ghost use Rattle.lang_typed.specs.Statements.{completes, all_complete};
ghost use Rattle.code_instrs.specs.Plain.{plain_body, plain_title, lines_of};
ghost use Rattle.code_scheme.specs.Scheme.{closes};
ghost use Rattle.code_scheme.specs.Whole.{branch_piece_of, place_of, member_piece, member_output};
ghost use Rattle.code_compile.specs.Emitted.{emitted_of, Emits, plain_line};
ghost use Rattle.code_compile.specs.Bodies.{Finished, BranchDone, body_from};
ghost use Rattle.code_compile.specs.Titles.{Follow, HasPlaces, member_title, name_of};

use crate::emitter::Emitter;
use crate::line::Line;
use crate::sites::is_void;
use crate::stmts::{stmt, stmts};
use crate::titles::member_title;
use code_instrs::{Body, Instr, Title};
use lang_base::{Items, NoMemory, Place};
use lang_typed::{Class, Member, Stmt, StmtForm};
use std::alloc::Global;

/// The place of what no place of the text stands for.
const NO_PLACE: Place = Place { line: 0, col: 0 };

/// Emits the body of a member, and after it those of its branches, in the order of the queue.
pub fn member<'p>(
    alloc: Global,
    out: &mut Emitter<'p>,
    bodies: &mut Items<Body>,
    owner: Option<&Class>,
    member: &'p Member,
) -> Result<(), NoMemory>
    requires { (emitted_of out.old).piece.lines ≡ [] }
    ensures lines { OnOk result ((emitted_of out.new).piece.lines ≡ []) }
    ensures made { OnOk result (Finished (emitted_of out.old) bodies.old (λ k. member_output k (plain_member member.now)) (emitted_of out.new) bodies.new) }
    ensures titled { OnOk result (Follow bodies.old bodies.new (member_title (name_of (option_copied owner.entry)) member.now.name ∷ [])) }
{
    out.begin_member(bodies.len())?;
    member_lines(alloc, out, member)?;
    let title = member_title(alloc, owner, member)?;
    bodies.push(body(alloc, &out.take_lines(alloc), title, member)?)?;
    let mut next = 0;
    while next < out.branches.len() {
        branch(alloc, out, bodies, member, next)?;
        next += 1;
    }
    Ok(())
}

/// The body of the branch at a place of the queue.
fn branch<'p>(
    alloc: Global,
    out: &mut Emitter<'p>,
    bodies: &mut Items<Body>,
    member: &'p Member,
    at: usize,
) -> Result<(), NoMemory>
    requires lines { (emitted_of out.old).piece.lines ≡ [] }
    requires there { at < length (emitted_of out.old).piece.branches }
    ensures made { OnOk result (BranchDone (emitted_of out.old) bodies.old (plain_member member.now) at (emitted_of out.new) bodies.new) }
    ensures titled { OnOk result (Follow bodies.old bodies.new []) }
{
    let pending = &out.branches.as_slice()[at];
    let title = Title::Branch(pending.site, pending.number);
    let (takes, stmt) = (pending.takes, pending.stmt);
    branch_lines(alloc, out, takes, stmt)?;
    bodies.push(body(alloc, &out.take_lines(alloc), title, member)?)
}

/// The lines of a member. A body that gives no value leaves where it completes.
fn member_lines<'p>(
    alloc: Global,
    out: &mut Emitter<'p>,
    member: &'p Member,
) -> Result<(), NoMemory>
    requires { (emitted_of out.old).piece.lines ≡ [] }
    ensures { OnOk result (Emits (emitted_of out.old) (λ k p. member_piece k (plain_member member.now)) (emitted_of out.new)) }
{
    stmts(alloc, out, &member.body)?;
    if closes(member) {
        return out.line(NO_PLACE, Instr::Leave);
    }
    Ok(())
}

/// The lines of a branch, which takes its part of an array first, where it has one.
fn branch_lines<'p>(
    alloc: Global,
    out: &mut Emitter<'p>,
    takes: Option<usize>,
    body: &'p Stmt,
) -> Result<(), NoMemory>
    requires { (emitted_of out.old).piece.lines ≡ [] }
    ensures { OnOk result (Emits (emitted_of out.old) (λ k p. branch_piece_of k (place_of (plain_stmt body.now)) (plain_stmt body.now) takes) (emitted_of out.new)) }
{
    match takes {
        None => {
            stmt(alloc, out, body)?;
            out.line(body.place, Instr::End)
        }
        Some(part) => {
            out.line(body.place, Instr::Part(part))?;
            stmt(alloc, out, body)?;
            out.line(body.place, Instr::End)
        }
    }
}

/// A body of these lines, in frames like those of the member.
fn body(alloc: Global, lines: &Items<Line>, title: Title, member: &Member) -> Result<Body, NoMemory>
    ensures made { IfOk result (λ made. plain_body made ≡ body_from (plain_title title) (map plain_line lines.now) (plain_member member.now)) }
    ensures titled { IfOk result (λ made. made.title ≡ title) }
    ensures placed { IfOk result HasPlaces }
{
    let (instrs, places) = split(alloc, lines)?;
    Ok(Body {
        title,
        instrs,
        places,
        slots: member.slots,
        locals: member.local_regions,
    })
}

/// The instructions of lines, and their places.
fn split(alloc: Global, lines: &Items<Line>) -> Result<(Items<Instr>, Items<Place>), NoMemory>
    ensures lines { IfOk result (λ made. lines_of made.0 made.1 ≡ map plain_line lines.now) }
    ensures even { IfOk result (λ made. length made.0 ≡ length made.1) }
{
    let mut instrs = Items::new(alloc);
    let mut places = Items::new(alloc);
    for line in lines.as_slice() {
        instrs.push(line.instr)?;
        places.push(line.place)?;
    }
    Ok((instrs, places))
}

/// Whether the body of a member leaves at its end.
fn closes(member: &Member) -> bool
    ensures { result ≡ closes (plain_member member.now) }
{
    is_void(&member.result) && all_complete(&member.body)
}

/// Whether all statements complete.
#[cycle(completes)]
fn all_complete(all: &Items<Stmt>) -> bool
    ensures { result ≡ all_complete (stmts_of (map plain_stmt all.now)) }
{
    for s in all.as_slice() {
        if !completes(s) {
            return false;
        }
    }
    true
}

#[cycle(completes)]
fn completes(s: &Stmt) -> bool
    ensures { result ≡ completes (plain_stmt s.now) }
{
    match &s.form {
        StmtForm::Return(_) => false,
        StmtForm::Block(all) => all_complete(all),
        StmtForm::If { then, other, .. } => match other {
            None => true,
            Some(other) => completes(then.get()) || completes(other.get()),
        },
        _ => true,
    }
}
