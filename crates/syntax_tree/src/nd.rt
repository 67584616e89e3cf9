ghost use Rattle.std.specs.Prelude.{◌≡◌, map};
ghost use Rattle.std.specs.List.{list_any};
ghost use Rattle.syntax_tree.specs.Nd.{holds_nd, some_holds_nd, member_holds_nd, program_uses_nd};
ghost use Rattle.syntax_tree.specs.Plain.{plain_stmt, plain_stmts};

use crate::class::{Class, Member, Program};
use crate::stmt::{Stmt, StmtKind};

/// Whether the text of a program holds a `cobegin_nd` or a `foreach_nd`.
pub fn uses_nd(program: &Program) -> bool
    ensures { result ≡ program_uses_nd program.now }
{
    program.classes.as_slice().iter().any(class_holds_nd)
}

fn class_holds_nd(class: &Class) -> bool
    ensures { result ≡ list_any member_holds_nd class.now.members }
{
    class.members.as_slice().iter().any(member_holds_nd)
}

fn member_holds_nd(member: &Member) -> bool
    ensures { result ≡ member_holds_nd member.now }
{
    match member {
        Member::Regions { .. } | Member::Field(_) => false,
        Member::Method(method) => some_holds_nd(method.body.as_slice()),
    }
}

/// As deep as the statement is nested, which the language bounds.
#[cycle(nd)]
fn stmt_holds_nd(stmt: &Stmt) -> bool
    ensures { result ≡ holds_nd (plain_stmt stmt.now) }
{
    match &stmt.kind {
        StmtKind::Block(all) | StmtKind::Atomic(all) => some_holds_nd(all.as_slice()),
        StmtKind::If { then, other, .. } => {
            let in_other = match other {
                Some(other) => stmt_holds_nd(other.get()),
                None => false,
            };
            stmt_holds_nd(then.get()) || in_other
        }
        StmtKind::While { body, .. } | StmtKind::ForeachParts { body, .. } => {
            stmt_holds_nd(body.get())
        }
        StmtKind::Cobegin { nd, branches } => *nd || some_holds_nd(branches.as_slice()),
        StmtKind::Foreach { nd, body, .. } => *nd || stmt_holds_nd(body.get()),
        _ => false,
    }
}

#[cycle(nd)]
fn some_holds_nd(stmts: &[Stmt]) -> bool
    ensures { result ≡ some_holds_nd (plain_stmts (map plain_stmt stmts.now)) }
{
    for stmt in stmts {
        if stmt_holds_nd(stmt) {
            return true;
        }
    }
    false
}
