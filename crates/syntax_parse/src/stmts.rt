ghost use Rattle.std.specs.Prelude.{◌≡◌, true, false, ◌≤◌, ◌+◌, ◌<◌, map, OnOk, IfOk, IfErr, [], ◌∷◌};
ghost use Rattle.syntax_exprs.specs.Counted.{Completed, Reading, StopsAt};
ghost use Rattle.syntax_grammar.specs.Expecting.{Part, next_is, next_of, one, part};
ghost use Rattle.syntax_exprs.specs.Targets.{IsTarget, begins_assignment, begins_declaration, holds_others, rest_of, stmt_begins};
ghost use Rattle.syntax_grammar.specs.Words.{is_any, is_assign, is_atomic, is_close_bracket, is_close_paren, is_comma, is_foreach_parts, is_if, is_name, is_open_paren, is_print, is_region, is_return, is_semicolon, is_while};
ghost use Rattle.syntax_exprs.specs.Progress.{Closes, Keeps, Reads};
ghost use Rattle.syntax_grammar.specs.Taking.{Many, Next};
ghost use Rattle.syntax_grammar.specs.Statements.{DerivesBlock, DerivesCondition, DerivesRange, DerivesStmt, DerivesValue, cobegin_word, foreach_word};
ghost use Rattle.syntax_grammar.specs.Reading.{DerivesPrinted, DerivesStmtTree, plain_stmt_kind};
ghost use Rattle.syntax_tree.specs.Plain.{plain_expr, plain_stmt, plain_stmts, statement};

use lang_base::{Boxed, Bytes, Items, Place, Stop};
use std::alloc::Global;
use syntax_exprs::{Cursor, expr, names, target, ty};
use syntax_tokens::{Keyword, Symbol, Terminal};
use syntax_tree::{Expr, ExprKind, Named, Stmt, StmtKind};

/// A statement of this kind at a place.
fn made(place: Place, kind: StmtKind) -> Stmt
    ensures { plain_stmt result ≡ statement place (plain_stmt_kind kind) }
{
    Stmt { place, kind }
}

/// `Stmt`
#[tactic(auto, using(crate::proofs::parts::StmtParts::stmt_refused))]
#[cycle(stmts)]
fn stmt(alloc: Global, cursor: &mut Cursor) -> Result<Stmt, Stop>
    ensures moves { OnOk result (Reads cursor.old cursor.new) }
    ensures reads { OnOk result (Reading (part Part.stmt ∷ []) cursor.old cursor.new) }
    ensures stops { IfErr result (λ stop. StopsAt (part Part.stmt ∷ []) cursor.old stop) }
    ensures derives { IfOk result (λ s. DerivesStmt cursor.old.rest.now cursor.new.rest.now (plain_stmt s)) }
{
    let outer = cursor.joined;
    cursor.joined = 0;
    let stmt = begun(alloc, cursor);
    cursor.joined = outer;
    stmt
}

/// A statement by what it begins with, where nothing is joined yet.
///
/// A function fills the room of all its arms at each call, so each form of a statement has a function of its own.
#[cycle(stmts)]
fn begun(alloc: Global, cursor: &mut Cursor) -> Result<Stmt, Stop>
    requires { cursor.old.joined ≡ 0 }
    ensures moves { OnOk result (Reads cursor.old cursor.new) }
    ensures reads { OnOk result (Completed (stmt_begins cursor.old.rest.now) cursor.old cursor.new) }
    ensures stops { IfErr result (λ stop. StopsAt (stmt_begins cursor.old.rest.now) cursor.old stop) }
    ensures derives { IfOk result (λ s. DerivesStmt cursor.old.rest.now cursor.new.rest.now (plain_stmt s)) }
{
    match cursor.next() {
        Some(Terminal::Symbol(Symbol::OpenBrace)) => braced(alloc, cursor),
        Some(Terminal::Keyword(Keyword::If)) => choice(alloc, cursor),
        Some(Terminal::Keyword(Keyword::While)) => while_loop(alloc, cursor),
        Some(Terminal::Keyword(Keyword::Cobegin)) => cobegin(alloc, cursor, false),
        Some(Terminal::Keyword(Keyword::CobeginNd)) => cobegin(alloc, cursor, true),
        Some(Terminal::Keyword(Keyword::Foreach)) => foreach(alloc, cursor, false),
        Some(Terminal::Keyword(Keyword::ForeachNd)) => foreach(alloc, cursor, true),
        Some(Terminal::Keyword(Keyword::ForeachParts)) => foreach_parts(alloc, cursor),
        Some(Terminal::Keyword(Keyword::Atomic)) => atomic(alloc, cursor),
        _ => simple(alloc, cursor),
    }
}

/// `Block`, as a statement.
#[tactic(auto, using(crate::proofs::Stating::made_block))]
#[cycle(stmts)]
fn braced(alloc: Global, cursor: &mut Cursor) -> Result<Stmt, Stop>
    ensures moves { OnOk result (Reads cursor.old cursor.new) }
    ensures reads { OnOk result (Reading (part Part.block ∷ []) cursor.old cursor.new) }
    ensures stops { IfErr result (λ stop. StopsAt (part Part.block ∷ []) cursor.old stop) }
    ensures derives { IfOk result (λ s. DerivesStmt cursor.old.rest.now cursor.new.rest.now (plain_stmt s)) }
{
    let place = cursor.place();
    let all = block(alloc, cursor)?;
    Ok(made(place, StmtKind::Block(all)))
}

/// `Block = "{" { Stmt } "}"`
#[tactic(auto, using(crate::proofs::Stating::block_braces, crate::proofs::parts::StmtParts::of_block))]
#[cycle(stmts)]
pub fn block(alloc: Global, cursor: &mut Cursor) -> Result<Items<Stmt>, Stop>
    ensures moves { OnOk result (Reads cursor.old cursor.new) }
    ensures reads { OnOk result (Reading (part Part.block ∷ []) cursor.old cursor.new) }
    ensures stops { IfErr result (λ stop. StopsAt (part Part.block ∷ []) cursor.old stop) }
    ensures derives { IfOk result (λ all. DerivesBlock cursor.old.rest.now cursor.new.rest.now (plain_stmts (map plain_stmt all))) }
{
    cursor.open(Symbol::OpenBrace)?;
    let all = stmts(alloc, cursor)?;
    cursor.close(Symbol::CloseBrace)?;
    Ok(all)
}

/// `{ Stmt }`, up to the `}`
#[tactic(auto, using(crate::proofs::Stating::first_stmts, crate::proofs::Stating::more_stmts, crate::proofs::parts::StmtParts::of_stmts))]
#[cycle(stmts)]
fn stmts(alloc: Global, cursor: &mut Cursor) -> Result<Items<Stmt>, Stop>
    ensures moves { OnOk result (Keeps cursor.old cursor.new) }
    ensures reads { OnOk result (Reading (part Part.stmts ∷ []) cursor.old cursor.new) }
    ensures stops { IfErr result (λ stop. StopsAt (part Part.stmts ∷ []) cursor.old stop) }
    ensures derives { IfOk result (λ all. Many DerivesStmtTree cursor.old.rest.now cursor.new.rest.now all) }
{
    let mut all = Items::new(alloc);
    while !cursor.is_symbol(Symbol::CloseBrace) {
        all.push(stmt(alloc, cursor)?)?;
    }
    Ok(all)
}

/// A body of another statement, which is a level deeper where it has no braces.
#[tactic(auto, using(crate::proofs::parts::StmtParts::of_body))]
#[cycle(stmts)]
fn body(alloc: Global, cursor: &mut Cursor) -> Result<Boxed<Stmt>, Stop>
    requires { cursor.old.level ≤ 32 }
    ensures moves { OnOk result (Reads cursor.old cursor.new) }
    ensures reads { OnOk result (Reading (part Part.body ∷ []) cursor.old cursor.new) }
    ensures stops { IfErr result (λ stop. StopsAt (part Part.body ∷ []) cursor.old stop) }
    ensures derives { IfOk result (λ s. DerivesStmt cursor.old.rest.now cursor.new.rest.now (plain_stmt s)) }
{
    if cursor.is_symbol(Symbol::OpenBrace) {
        return Ok(Boxed::new(alloc, stmt(alloc, cursor)?)?);
    }
    cursor.level += 1;
    let body = Boxed::new(alloc, stmt(alloc, cursor)?)?;
    cursor.level -= 1;
    Ok(body)
}

/// `"if" "(" Expr ")" Stmt [ "else" Stmt ]`
#[tactic(auto, using(crate::proofs::Stating::made_if, crate::proofs::Stating::made_else, crate::proofs::parts::StmtParts::of_choice))]
#[cycle(stmts)]
fn choice(alloc: Global, cursor: &mut Cursor) -> Result<Stmt, Stop>
    ensures moves { OnOk result (Reads cursor.old cursor.new) }
    ensures reads { OnOk result (Reading (one is_if ∷ part Part.condition ∷ part Part.body ∷ part Part.else_if ∷ []) cursor.old cursor.new) }
    ensures stops { IfErr result (λ stop. StopsAt (one is_if ∷ part Part.condition ∷ part Part.body ∷ part Part.else_if ∷ []) cursor.old stop) }
    ensures derives { IfOk result (λ s. DerivesStmt cursor.old.rest.now cursor.new.rest.now (plain_stmt s)) }
{
    let place = cursor.keyword(Keyword::If)?;
    let test = condition(alloc, cursor)?;
    let then = body(alloc, cursor)?;
    if !cursor.keyword_if(Keyword::Else)? {
        let other = None;
        return Ok(made(place, StmtKind::If { test, then, other }));
    }
    let other = Some(body(alloc, cursor)?);
    Ok(made(place, StmtKind::If { test, then, other }))
}

/// `"while" "(" Expr ")" Stmt`
#[tactic(auto, using(crate::proofs::Stating::made_while, crate::proofs::parts::StmtParts::in_order))]
#[cycle(stmts)]
fn while_loop(alloc: Global, cursor: &mut Cursor) -> Result<Stmt, Stop>
    ensures moves { OnOk result (Reads cursor.old cursor.new) }
    ensures reads { OnOk result (Reading (one is_while ∷ part Part.condition ∷ part Part.body ∷ []) cursor.old cursor.new) }
    ensures stops { IfErr result (λ stop. StopsAt (one is_while ∷ part Part.condition ∷ part Part.body ∷ []) cursor.old stop) }
    ensures derives { IfOk result (λ s. DerivesStmt cursor.old.rest.now cursor.new.rest.now (plain_stmt s)) }
{
    let place = cursor.keyword(Keyword::While)?;
    let test = condition(alloc, cursor)?;
    let body = body(alloc, cursor)?;
    Ok(made(place, StmtKind::While { test, body }))
}

/// `"(" Expr ")"`
#[tactic(auto, using(crate::proofs::Stating::made_condition, crate::proofs::parts::StmtParts::of_condition))]
fn condition(alloc: Global, cursor: &mut Cursor) -> Result<Expr, Stop>
    ensures moves { OnOk result (Reads cursor.old cursor.new) }
    ensures reads { OnOk result (Reading (part Part.condition ∷ []) cursor.old cursor.new) }
    ensures stops { IfErr result (λ stop. StopsAt (part Part.condition ∷ []) cursor.old stop) }
    ensures derives { IfOk result (λ e. DerivesCondition cursor.old.rest.now cursor.new.rest.now (plain_expr e)) }
{
    cursor.open(Symbol::OpenParen)?;
    let test = expr(alloc, cursor)?;
    cursor.close(Symbol::CloseParen)?;
    Ok(test)
}

/// `( "cobegin" | "cobegin_nd" ) Block`
#[tactic(auto, using(crate::proofs::parts::StmtParts::of_seen))]
#[cycle(stmts)]
fn cobegin(alloc: Global, cursor: &mut Cursor, nd: bool) -> Result<Stmt, Stop>
    requires { Next (Terminal.Keyword (cobegin_word nd)) cursor.old.rest.now }
    ensures moves { OnOk result (Reads cursor.old cursor.new) }
    ensures reads { OnOk result (Reading (one is_any ∷ part Part.block ∷ []) cursor.old cursor.new) }
    ensures stops { IfErr result (λ stop. StopsAt (one is_any ∷ part Part.block ∷ []) cursor.old stop) }
    ensures derives { IfOk result (λ s. DerivesStmt cursor.old.rest.now cursor.new.rest.now (plain_stmt s)) }
{
    let place = cursor.place();
    cursor.accept()?;
    let branches = block(alloc, cursor)?;
    Ok(made(place, StmtKind::Cobegin { nd, branches }))
}

/// `"atomic" Block`
#[tactic(auto, using(crate::proofs::Stating::made_atomic, crate::proofs::parts::StmtParts::in_order))]
#[cycle(stmts)]
fn atomic(alloc: Global, cursor: &mut Cursor) -> Result<Stmt, Stop>
    ensures moves { OnOk result (Reads cursor.old cursor.new) }
    ensures reads { OnOk result (Reading (one is_atomic ∷ part Part.block ∷ []) cursor.old cursor.new) }
    ensures stops { IfErr result (λ stop. StopsAt (one is_atomic ∷ part Part.block ∷ []) cursor.old stop) }
    ensures derives { IfOk result (λ s. DerivesStmt cursor.old.rest.now cursor.new.rest.now (plain_stmt s)) }
{
    let place = cursor.keyword(Keyword::Atomic)?;
    let body = block(alloc, cursor)?;
    Ok(made(place, StmtKind::Atomic(body)))
}

/// `( "foreach" | "foreach_nd" ) "(" "int" Name "in" Expr "," Expr ")" Stmt`
#[tactic(auto, using(crate::proofs::parts::StmtParts::of_seen))]
#[cycle(stmts)]
fn foreach(alloc: Global, cursor: &mut Cursor, nd: bool) -> Result<Stmt, Stop>
    requires { Next (Terminal.Keyword (foreach_word nd)) cursor.old.rest.now }
    ensures moves { OnOk result (Reads cursor.old cursor.new) }
    ensures reads { OnOk result (Reading (one is_any ∷ one is_open_paren ∷ part Part.range ∷ part Part.body ∷ []) cursor.old cursor.new) }
    ensures stops { IfErr result (λ stop. StopsAt (one is_any ∷ one is_open_paren ∷ part Part.range ∷ part Part.body ∷ []) cursor.old stop) }
    ensures derives { IfOk result (λ s. DerivesStmt cursor.old.rest.now cursor.new.rest.now (plain_stmt s)) }
{
    let place = cursor.place();
    cursor.accept()?;
    cursor.open(Symbol::OpenParen)?;
    let range = range(alloc, cursor)?;
    let body = body(alloc, cursor)?;
    let kind = StmtKind::Foreach {
        nd,
        var: range.var,
        start: range.first,
        count: range.second,
        body,
    };
    Ok(made(place, kind))
}

/// `"foreach_parts" "(" Name "," "int" Name "in" Expr "," Expr ")" Stmt`
#[tactic(auto, using(crate::proofs::parts::StmtParts::in_order))]
#[cycle(stmts)]
fn foreach_parts(alloc: Global, cursor: &mut Cursor) -> Result<Stmt, Stop>
    ensures moves { OnOk result (Reads cursor.old cursor.new) }
    ensures reads { OnOk result (Reading (one is_foreach_parts ∷ one is_open_paren ∷ one is_name ∷ one is_comma ∷ part Part.range ∷ part Part.body ∷ []) cursor.old cursor.new) }
    ensures stops { IfErr result (λ stop. StopsAt (one is_foreach_parts ∷ one is_open_paren ∷ one is_name ∷ one is_comma ∷ part Part.range ∷ part Part.body ∷ []) cursor.old stop) }
    ensures derives { IfOk result (λ s. DerivesStmt cursor.old.rest.now cursor.new.rest.now (plain_stmt s)) }
{
    let place = cursor.keyword(Keyword::ForeachParts)?;
    cursor.open(Symbol::OpenParen)?;
    let view = cursor.name()?;
    cursor.symbol(Symbol::Comma)?;
    let range = range(alloc, cursor)?;
    let body = body(alloc, cursor)?;
    let kind = StmtKind::ForeachParts {
        view,
        var: range.var,
        array: range.first,
        count: range.second,
        body,
    };
    Ok(made(place, kind))
}

/// What a foreach goes over.
#[derive(Drop)]
struct Span {
    var: Named,
    first: Expr,
    second: Expr,
}

/// `"int" Name "in" Expr "," Expr ")"`
#[tactic(auto, using(crate::proofs::parts::StmtParts::of_range))]
fn range(alloc: Global, cursor: &mut Cursor) -> Result<Span, Stop>
    requires { 1 ≤ cursor.old.level }
    ensures moves { OnOk result (Closes cursor.old cursor.new) }
    ensures reads { OnOk result (Reading (part Part.range ∷ []) cursor.old cursor.new) }
    ensures stops { IfErr result (λ stop. StopsAt (part Part.range ∷ []) cursor.old stop) }
    ensures derives { IfOk result (λ span. DerivesRange cursor.old.rest.now cursor.new.rest.now span.var (plain_expr span.first) (plain_expr span.second)) }
{
    cursor.keyword(Keyword::Int)?;
    let var = cursor.name()?;
    cursor.keyword(Keyword::In)?;
    let first = expr(alloc, cursor)?;
    cursor.symbol(Symbol::Comma)?;
    let second = expr(alloc, cursor)?;
    cursor.close(Symbol::CloseParen)?;
    Ok(Span { var, first, second })
}

/// A statement that holds no other one.
#[tactic(auto, using(crate::proofs::Performing::is_target))]
fn simple(alloc: Global, cursor: &mut Cursor) -> Result<Stmt, Stop>
    requires alone { next_is holds_others (next_of cursor.old.rest.now) ≡ false }
    requires anew { cursor.old.joined ≡ 0 }
    ensures moves { OnOk result (Reads cursor.old cursor.new) }
    ensures reads { OnOk result (Completed (stmt_begins cursor.old.rest.now) cursor.old cursor.new) }
    ensures stops { IfErr result (λ stop. StopsAt (stmt_begins cursor.old.rest.now) cursor.old stop) }
    ensures derives { IfOk result (λ s. DerivesStmt cursor.old.rest.now cursor.new.rest.now (plain_stmt s)) }
{
    match cursor.next() {
        Some(Terminal::Keyword(Keyword::Return)) => returned(alloc, cursor),
        Some(Terminal::Keyword(Keyword::Print)) => printed(alloc, cursor),
        Some(Terminal::Keyword(Keyword::Region)) => regions(alloc, cursor),
        _ if declares(cursor) => declaration(alloc, cursor),
        _ if assigns(cursor) => assignment(alloc, cursor),
        _ => performed(alloc, cursor),
    }
}

/// `"return" [ Expr ] ";"`
#[tactic(auto, using(crate::proofs::Stating::return_alone, crate::proofs::Stating::return_with, crate::proofs::parts::StmtParts::of_return))]
fn returned(alloc: Global, cursor: &mut Cursor) -> Result<Stmt, Stop>
    ensures moves { OnOk result (Reads cursor.old cursor.new) }
    ensures reads { OnOk result (Reading (one is_return ∷ part Part.return_rest ∷ []) cursor.old cursor.new) }
    ensures stops { IfErr result (λ stop. StopsAt (one is_return ∷ part Part.return_rest ∷ []) cursor.old stop) }
    ensures derives { IfOk result (λ s. DerivesStmt cursor.old.rest.now cursor.new.rest.now (plain_stmt s)) }
{
    let place = cursor.keyword(Keyword::Return)?;
    if cursor.symbol_if(Symbol::Semicolon)? {
        return Ok(made(place, StmtKind::Return(None)));
    }
    let value = value(alloc, cursor)?;
    Ok(made(place, StmtKind::Return(Some(value))))
}

/// `"print" "(" ( Expr | Text ) ")" ";"`
#[tactic(auto, using(crate::proofs::parts::StmtParts::in_order))]
fn printed(alloc: Global, cursor: &mut Cursor) -> Result<Stmt, Stop>
    ensures moves { OnOk result (Reads cursor.old cursor.new) }
    ensures reads { OnOk result (Reading (one is_print ∷ one is_open_paren ∷ part Part.shown ∷ one is_close_paren ∷ one is_semicolon ∷ []) cursor.old cursor.new) }
    ensures stops { IfErr result (λ stop. StopsAt (one is_print ∷ one is_open_paren ∷ part Part.shown ∷ one is_close_paren ∷ one is_semicolon ∷ []) cursor.old stop) }
    ensures derives { IfOk result (λ s. DerivesStmt cursor.old.rest.now cursor.new.rest.now (plain_stmt s)) }
{
    let place = cursor.keyword(Keyword::Print)?;
    cursor.open(Symbol::OpenParen)?;
    let kind = shown(alloc, cursor)?;
    cursor.close(Symbol::CloseParen)?;
    cursor.symbol(Symbol::Semicolon)?;
    Ok(made(place, kind))
}

/// `Expr | Text`
#[tactic(auto, using(crate::proofs::Stating::shown_value, crate::proofs::Stating::shown_text, crate::proofs::parts::StmtParts::of_shown))]
fn shown(alloc: Global, cursor: &mut Cursor) -> Result<StmtKind, Stop>
    ensures moves { OnOk result (Reads cursor.old cursor.new) }
    ensures reads { OnOk result (Reading (part Part.shown ∷ []) cursor.old cursor.new) }
    ensures stops { IfErr result (λ stop. StopsAt (part Part.shown ∷ []) cursor.old stop) }
    ensures derives { IfOk result (λ kind. DerivesPrinted cursor.old.rest.now cursor.new.rest.now (plain_stmt_kind kind)) }
{
    if let Some(Terminal::Text(text)) = cursor.next() {
        let bytes = Bytes::from_slice(alloc, text.as_slice())?;
        cursor.accept()?;
        return Ok(StmtKind::PrintText(bytes));
    }
    Ok(StmtKind::Print(expr(alloc, cursor)?))
}

/// `"region" Name { "," Name } ";"`
#[tactic(auto, using(crate::proofs::Stating::made_regions, crate::proofs::parts::StmtParts::in_order))]
fn regions(alloc: Global, cursor: &mut Cursor) -> Result<Stmt, Stop>
    ensures moves { OnOk result (Reads cursor.old cursor.new) }
    ensures reads { OnOk result (Reading (one is_region ∷ part Part.names ∷ one is_semicolon ∷ []) cursor.old cursor.new) }
    ensures stops { IfErr result (λ stop. StopsAt (one is_region ∷ part Part.names ∷ one is_semicolon ∷ []) cursor.old stop) }
    ensures derives { IfOk result (λ s. DerivesStmt cursor.old.rest.now cursor.new.rest.now (plain_stmt s)) }
{
    let place = cursor.keyword(Keyword::Region)?;
    let names = names(alloc, cursor)?;
    cursor.symbol(Symbol::Semicolon)?;
    Ok(made(place, StmtKind::Region { names }))
}

/// Whether the statement is a declaration: it begins with `int`, `boolean`, `final`, or a name followed by a
/// name, by `<`, or by `[` and `]`.
fn declares(cursor: &Cursor) -> bool
    ensures { result ≡ begins_declaration cursor.now.rest.now }
{
    match cursor.next() {
        Some(Terminal::Keyword(Keyword::Int | Keyword::Boolean | Keyword::Final)) => true,
        Some(Terminal::Name(_)) => match cursor.second() {
            Some(Terminal::Name(_)) => true,
            Some(Terminal::Symbol(Symbol::Less)) => true,
            Some(Terminal::Symbol(Symbol::OpenBracket)) => closes_third(cursor),
            _ => false,
        },
        _ => false,
    }
}

fn closes_third(cursor: &Cursor) -> bool
    ensures { result ≡ next_is is_close_bracket (next_of (rest_of (rest_of cursor.now.rest.now))) }
{
    match cursor.third() {
        Some(Terminal::Symbol(Symbol::CloseBracket)) => true,
        _ => false,
    }
}

/// `[ "final" ] Type Name "=" Expr ";"`
fn declaration(alloc: Global, cursor: &mut Cursor) -> Result<Stmt, Stop>
    requires declares { begins_declaration cursor.old.rest.now ≡ true }
    requires anew { cursor.old.joined ≡ 0 }
    ensures moves { OnOk result (Reads cursor.old cursor.new) }
    ensures reads { OnOk result (Completed (stmt_begins cursor.old.rest.now) cursor.old cursor.new) }
    ensures stops { IfErr result (λ stop. StopsAt (stmt_begins cursor.old.rest.now) cursor.old stop) }
    ensures derives { IfOk result (λ s. DerivesStmt cursor.old.rest.now cursor.new.rest.now (plain_stmt s)) }
{
    let is_final = cursor.keyword_if(Keyword::Final)?;
    let ty = ty(alloc, cursor)?;
    let named = cursor.name()?;
    cursor.symbol(Symbol::Assign)?;
    let value = value(alloc, cursor)?;
    let kind = StmtKind::Declare {
        is_final,
        ty,
        name: named.name,
        value,
    };
    Ok(made(named.place, kind))
}

/// `Expr ";"`
#[tactic(auto, using(crate::proofs::Stating::made_value, crate::proofs::parts::StmtParts::of_value))]
fn value(alloc: Global, cursor: &mut Cursor) -> Result<Expr, Stop>
    ensures moves { OnOk result (Reads cursor.old cursor.new) }
    ensures reads { OnOk result (Reading (part Part.value ∷ []) cursor.old cursor.new) }
    ensures stops { IfErr result (λ stop. StopsAt (part Part.value ∷ []) cursor.old stop) }
    ensures derives { IfOk result (λ e. DerivesValue cursor.old.rest.now cursor.new.rest.now (plain_expr e)) }
{
    let value = expr(alloc, cursor)?;
    cursor.symbol(Symbol::Semicolon)?;
    Ok(value)
}

/// Whether the statement is an assignment to a local.
fn assigns(cursor: &Cursor) -> bool
    ensures { result ≡ begins_assignment cursor.now.rest.now }
{
    match cursor.next() {
        Some(Terminal::Name(_)) => match cursor.second() {
            Some(Terminal::Symbol(Symbol::Assign)) => true,
            _ => false,
        },
        _ => false,
    }
}

/// `Name "=" Expr ";"`
#[tactic(auto, using(crate::proofs::parts::StmtParts::in_order))]
fn assignment(alloc: Global, cursor: &mut Cursor) -> Result<Stmt, Stop>
    ensures moves { OnOk result (Reads cursor.old cursor.new) }
    ensures reads { OnOk result (Reading (one is_name ∷ one is_assign ∷ part Part.value ∷ []) cursor.old cursor.new) }
    ensures stops { IfErr result (λ stop. StopsAt (one is_name ∷ one is_assign ∷ part Part.value ∷ []) cursor.old stop) }
    ensures derives { IfOk result (λ s. DerivesStmt cursor.old.rest.now cursor.new.rest.now (plain_stmt s)) }
{
    let target = cursor.name()?;
    let place = cursor.symbol(Symbol::Assign)?;
    let value = value(alloc, cursor)?;
    Ok(made(place, StmtKind::AssignLocal { target, value }))
}

/// `Postfix "=" Expr ";"` where it ends as a field or element, and `Postfix ";"` where as a call or creation.
#[tactic(auto, using(crate::proofs::Stating::made_field_assignment, crate::proofs::Stating::made_element_assignment, crate::proofs::Stating::call_performed, crate::proofs::Stating::new_performed))]
fn performed(alloc: Global, cursor: &mut Cursor) -> Result<Stmt, Stop>
    requires target { IsTarget cursor.old.rest.now }
    requires other { begins_assignment cursor.old.rest.now ≡ false }
    requires anew { cursor.old.joined ≡ 0 }
    ensures moves { OnOk result (Reads cursor.old cursor.new) }
    ensures reads { OnOk result (Completed (stmt_begins cursor.old.rest.now) cursor.old cursor.new) }
    ensures stops { IfErr result (λ stop. StopsAt (stmt_begins cursor.old.rest.now) cursor.old stop) }
    ensures derives { IfOk result (λ s. DerivesStmt cursor.old.rest.now cursor.new.rest.now (plain_stmt s)) }
{
    let target = target(alloc, cursor)?;
    match &target.kind {
        ExprKind::Field { .. } => {
            let place = cursor.symbol(Symbol::Assign)?;
            let value = value(alloc, cursor)?;
            Ok(made(place, StmtKind::AssignField { target, value }))
        }
        ExprKind::Element { .. } => {
            let place = cursor.symbol(Symbol::Assign)?;
            let value = value(alloc, cursor)?;
            Ok(made(place, StmtKind::AssignElement { target, value }))
        }
        ExprKind::Call { .. } | ExprKind::New { .. } => {
            cursor.symbol(Symbol::Semicolon)?;
            let place = target.place;
            Ok(made(place, StmtKind::Do(target)))
        }
        _ => Err(cursor.unexpected()),
    }
}
