ghost use Rattle.std.specs.Prelude.{None, Some, ◌||◌, MatchOption, IfNone, ◌≡◌, ◌≢◌, ◌+◌, ◌<◌, ◌≤◌, length, map, OnOk, IfOk, IfSome, IfErr, [], ◌∷◌};
ghost use Rattle.syntax_exprs.specs.Counted.{Reading, StopsAt, counts};
ghost use Rattle.syntax_grammar.specs.Expecting.{Part, choose, literal_parts, next_is, next_of, one, op_of, part};
ghost use Rattle.syntax_exprs.specs.Onward.{ReadsOn};
ghost use Rattle.syntax_exprs.specs.Targets.{IsTarget, Leads, stmt_begins};
ghost use Rattle.syntax_grammar.specs.Words.{is_close_bracket, is_dot, is_name, is_new, is_open_bracket, op_at};
ghost use Rattle.syntax_exprs.specs.Progress.{Keeps, Opens, Reads};
ghost use Rattle.syntax_grammar.specs.Taking.{Next, NoNext, Listed};
ghost use Rattle.syntax_grammar.specs.Expressions.{DerivesActuals, DerivesExpr, DerivesLevel, DerivesPostfix, DerivesPrimary, DerivesUnary, as_creation, level_of, symbol_of, unary_symbol};
ghost use Rattle.syntax_grammar.specs.Reading.{DerivesExprTree, DerivesInner, DerivesLengths, DerivesOpenSuffixes, DerivesSelection, DerivesSelections, NextSpells, Spells, ending_of, plain_kind};
ghost use Rattle.syntax_tokens.specs.declared.terminal.Terminal.TheVariants as Terminal;
ghost use Rattle.syntax_tree.specs.declared.expr.InfixOp.{InfixOp};
ghost use Rattle.lang_base.specs.declared.op.UnaryOp.{UnaryOp};
ghost use Rattle.syntax_tree.specs.Plain.{binary, create, expression, plain_expr, plain_exprs};

use crate::cursor::Cursor;
use crate::operator::{LOOSEST, TIGHTEST, binding, infix_of, tightest_after, unary_of};
use crate::region::args_if;
use crate::types::{after_brackets, base};
use lang_base::{Boxed, Items, NoMemory, Place, Stop, UnaryOp};
use std::alloc::Global;
use syntax_tokens::{Keyword, Symbol, Terminal};
use syntax_tree::{BaseTree, Expr, ExprKind, InfixOp, Named, RplTree, Suffix};

/// An expression of this kind at a place.
fn made(place: Place, kind: ExprKind) -> Expr
    ensures { plain_expr result ≡ expression place (plain_kind kind) }
{
    Expr { place, kind }
}

/// `Expr`: an expression level of its own.
#[tactic(auto, using(crate::proofs::parts::OperatorParts::expr_reads, crate::proofs::parts::OperatorParts::expr_refused))]
#[cycle(exprs)]
pub fn expr(alloc: Global, cursor: &mut Cursor) -> Result<Expr, Stop>
    ensures moves { OnOk result (Reads cursor.old cursor.new) }
    ensures reads { OnOk result (Reading (part (Part.expr 0) ∷ []) cursor.old cursor.new) }
    ensures stops { IfErr result (λ stop. StopsAt (part (Part.expr 0) ∷ []) cursor.old stop) }
    ensures derives { IfOk result (λ e. DerivesExpr cursor.old.rest.now cursor.new.rest.now (plain_expr e)) }
{
    let outer = cursor.joined;
    cursor.joined = 0;
    let found = operators(alloc, cursor, LOOSEST)?;
    cursor.joined = outer;
    Ok(found)
}

/// `Unary { operator Unary }`, with operators that bind at least so tightly.
#[tactic(auto, using(crate::proofs::Composed::refused_first, crate::proofs::parts::OperatorParts::joined_few, crate::proofs::parts::OperatorParts::operator_halts, crate::proofs::parts::OperatorParts::operand_refused, crate::proofs::parts::OperatorParts::operators_end))]
#[cycle(exprs)]
fn operators(alloc: Global, cursor: &mut Cursor, least: u32) -> Result<Expr, Stop>
    requires { cursor.old.joined ≤ 32 }
    ensures moves { OnOk result (Reads cursor.old cursor.new) }
    ensures reads { OnOk result (Reading (part Part.unary ∷ part (Part.climb least 6) ∷ []) cursor.old cursor.new) }
    ensures stops { IfErr result (λ stop. StopsAt (part Part.unary ∷ part (Part.climb least 6) ∷ []) cursor.old stop) }
    ensures derives { IfOk result (λ e. DerivesLevel least cursor.old.rest.now cursor.new.rest.now (plain_expr e)) }
{
    let mut left = unary(alloc, cursor)?;
    let mut most = TIGHTEST;
    while let Some(op) = operator_within(cursor, least, most) {
        let place = cursor.join()?;
        let right = operators(alloc, cursor, binding(op) + 1)?;
        left = joined(alloc, place, op, left, right)?;
        most = tightest_after(op);
    }
    Ok(left)
}

/// The operator that comes next, where it binds so tightly.
#[tactic(auto, using(crate::proofs::parts::OperatorParts::no_op_at_end, crate::proofs::parts::OperatorParts::op_here))]
fn operator_within(cursor: &Cursor, least: u32, most: u32) -> Option<InfixOp>
    ensures next { IfSome result (λ op. Next (Terminal.Symbol (symbol_of op)) cursor.now.rest.now) }
    ensures within { IfSome result (λ op. (least ≤ level_of op) × (level_of op ≤ most)) }
    ensures otherwise { IfNone result ((op : InfixOp) → op_of (next_of cursor.now.rest.now) ≡ Some op → least ≤ level_of op → level_of op ≤ most → ⊥) }
{
    let op = operator_of(cursor.next()?)?;
    if binding(op) < least || binding(op) > most {
        return None;
    }
    Some(op)
}

/// The operator between two expressions that a terminal is.
fn operator_of(terminal: &Terminal) -> Option<InfixOp>
    ensures which { IfSome result (λ op. terminal.now ≡ Terminal.Symbol (symbol_of op)) }
    ensures at { result ≡ op_at terminal.now }
{
    match terminal {
        Terminal::Symbol(symbol) => infix_of(*symbol),
        Terminal::Int(_) | Terminal::Name(_) | Terminal::Text(_) | Terminal::Keyword(_) => None,
    }
}

#[tactic(auto, using(syntax_grammar::proofs::Trees::kind_Binary))]
fn joined(
    alloc: Global,
    place: Place,
    op: InfixOp,
    left: Expr,
    right: Expr,
) -> Result<Expr, NoMemory>
    ensures { IfOk result (λ e. plain_expr e ≡ expression place (binary op (plain_expr left) (plain_expr right))) }
{
    let left = Boxed::new(alloc, left)?;
    let right = Boxed::new(alloc, right)?;
    Ok(made(place, ExprKind::Binary { op, left, right }))
}

/// `Unary = ( "-" | "!" ) Unary | Postfix | NewArray`
#[tactic(auto, using(crate::proofs::Making::made_operator, crate::proofs::Making::inner_selected, crate::proofs::Making::primary_selected, crate::proofs::Few::still_few, crate::proofs::parts::OperatorParts::joined_few, crate::proofs::parts::UnaryParts::prefix_read, crate::proofs::parts::UnaryParts::prefix_halts, crate::proofs::parts::UnaryParts::prefixed_refused, crate::proofs::parts::UnaryParts::new_read, crate::proofs::parts::UnaryParts::new_refused, crate::proofs::parts::UnaryParts::paren_read, crate::proofs::parts::UnaryParts::paren_refused, crate::proofs::parts::UnaryParts::paren_selected_refused, crate::proofs::parts::UnaryParts::literal_read, crate::proofs::parts::UnaryParts::literal_refused, crate::proofs::parts::UnaryParts::literal_selected_refused))]
#[cycle(exprs)]
fn unary(alloc: Global, cursor: &mut Cursor) -> Result<Expr, Stop>
    requires { cursor.old.joined ≤ 32 }
    ensures moves { OnOk result (Reads cursor.old cursor.new) }
    ensures reads { OnOk result (Reading (part Part.unary ∷ []) cursor.old cursor.new) }
    ensures stops { IfErr result (λ stop. StopsAt (part Part.unary ∷ []) cursor.old stop) }
    ensures derives { IfOk result (λ e. DerivesUnary cursor.old.rest.now cursor.new.rest.now (plain_expr e)) }
{
    if let Some(op) = operator_before(cursor) {
        let place = cursor.join()?;
        let arg = Boxed::new(alloc, unary(alloc, cursor)?)?;
        return Ok(made(place, ExprKind::Unary { op, arg }));
    }
    if cursor.is_keyword(Keyword::New) {
        return created(alloc, cursor);
    }
    if cursor.is_symbol(Symbol::OpenParen) {
        let first = inner(alloc, cursor)?;
        return selected(alloc, cursor, first);
    }
    let first = literal(cursor)?;
    selected(alloc, cursor, first)
}

/// The operator before an expression that comes next.
#[tactic(auto, using(crate::proofs::parts::UnaryParts::no_prefix_at_end, crate::proofs::parts::UnaryParts::no_prefix))]
fn operator_before(cursor: &Cursor) -> Option<UnaryOp>
    ensures { MatchOption result ((op : UnaryOp) → NoNext (Terminal.Symbol (unary_symbol op)) cursor.now.rest.now) (λ op. Next (Terminal.Symbol (unary_symbol op)) cursor.now.rest.now) }
{
    prefix_of(cursor.next()?)
}

/// The operator before an expression that a terminal is.
fn prefix_of(terminal: &Terminal) -> Option<UnaryOp>
    ensures { MatchOption result ((op : UnaryOp) → terminal.now ≢ Terminal.Symbol (unary_symbol op)) (λ op. terminal.now ≡ Terminal.Symbol (unary_symbol op)) }
{
    match terminal {
        Terminal::Symbol(symbol) => unary_of(*symbol),
        Terminal::Int(_) | Terminal::Name(_) | Terminal::Text(_) | Terminal::Keyword(_) => None,
    }
}

/// A Postfix that begins with a creation, or a NewArray.
#[tactic(auto, using(crate::proofs::Making::made_object, crate::proofs::Making::made_array, crate::proofs::Few::still_few, crate::proofs::parts::UnaryParts::object_read, crate::proofs::parts::UnaryParts::object_refused, crate::proofs::parts::UnaryParts::object_selected_refused, crate::proofs::parts::UnaryParts::array_read, crate::proofs::parts::UnaryParts::lengths_refused, crate::proofs::parts::UnaryParts::plain_array_read, crate::proofs::parts::UnaryParts::plain_lengths_refused, crate::proofs::parts::UnaryParts::base_refused, crate::proofs::Composed::refused_first))]
#[cycle(exprs)]
fn created(alloc: Global, cursor: &mut Cursor) -> Result<Expr, Stop>
    requires { cursor.old.joined ≤ 32 }
    ensures moves { OnOk result (Reads cursor.old cursor.new) }
    ensures reads { OnOk result (Reading (one is_new ∷ part Part.created ∷ []) cursor.old cursor.new) }
    ensures stops { IfErr result (λ stop. StopsAt (one is_new ∷ part Part.created ∷ []) cursor.old stop) }
    ensures derives { IfOk result (λ e. DerivesUnary cursor.old.rest.now cursor.new.rest.now (plain_expr e)) }
{
    let place = cursor.keyword(Keyword::New)?;
    match base(alloc, cursor)? {
        BaseTree::Class { name, args } if cursor.is_symbol(Symbol::OpenParen) => {
            let actuals = actuals(alloc, cursor)?;
            let object = object(place, name, args, actuals);
            selected(alloc, cursor, object)
        }
        base => array(alloc, cursor, place, base),
    }
}

/// The creation of an object, after its actuals.
#[tactic(auto, using(syntax_grammar::proofs::Trees::kind_New))]
fn object(place: Place, class: Named, regions: Items<RplTree>, actuals: Items<Expr>) -> Expr
    ensures { plain_expr result ≡ expression place (create class regions (plain_exprs (map plain_expr actuals))) }
{
    let kind = ExprKind::New {
        class,
        regions,
        actuals,
    };
    made(place, kind)
}

/// `NewArray` after its base: `{ "[" "]" [ "<" Rpl ">" ] [ "#" Name ] } "[" Expr "]" [ "<" Rpl ">" ] [ "#" Name ]`
#[tactic(auto, using(crate::proofs::Making::made_lengths, crate::proofs::parts::ExprParts::array_reads, crate::proofs::parts::ExprParts::length_refused, crate::proofs::parts::ExprParts::length_close_refused, crate::proofs::parts::ExprParts::length_tail_refused))]
#[cycle(exprs)]
fn array(alloc: Global, cursor: &mut Cursor, place: Place, base: BaseTree) -> Result<Expr, Stop>
    requires { cursor.old.joined ≤ 32 }
    ensures moves { OnOk result (Reads cursor.old cursor.new) }
    ensures reads { OnOk result (Reading (part Part.array ∷ []) cursor.old cursor.new) }
    ensures stops { IfErr result (λ stop. StopsAt (part Part.array ∷ []) cursor.old stop) }
    ensures derives { IfOk result (λ e. DerivesLengths base place cursor.old.rest.now cursor.new.rest.now (plain_expr e)) }
{
    let suffixes = open_suffixes(alloc, cursor)?;
    let length = Boxed::new(alloc, expr(alloc, cursor)?)?;
    cursor.close(Symbol::CloseBracket)?;
    let own = after_brackets(alloc, cursor)?;
    let kind = ExprKind::NewArray {
        base,
        suffixes,
        length,
        rpl: own.rpl,
        index: own.index,
    };
    Ok(made(place, kind))
}

/// The suffixes before the length of an array, and the `[` in front of the length.
#[tactic(auto, using(crate::proofs::Making::first_opened, crate::proofs::Making::more_opened, crate::proofs::Few::still_few, crate::proofs::parts::ExprParts::array_refused, crate::proofs::parts::ExprParts::array_opened, crate::proofs::parts::ExprParts::length_opened, crate::proofs::parts::ExprParts::suffix_read, crate::proofs::parts::ExprParts::suffix_close_refused, crate::proofs::parts::ExprParts::suffix_tail_refused, crate::proofs::parts::ExprParts::suffix_open_refused))]
fn open_suffixes(alloc: Global, cursor: &mut Cursor) -> Result<Items<Suffix>, Stop>
    requires { cursor.old.joined ≤ 32 }
    ensures moves { OnOk result (Opens cursor.old cursor.new) }
    ensures reads { OnOk result (ReadsOn (part Part.array ∷ []) cursor.old (part (Part.expr 0) ∷ one is_close_bracket ∷ part Part.brackets_after ∷ []) cursor.new) }
    ensures stops { IfErr result (λ stop. StopsAt (part Part.array ∷ []) cursor.old stop) }
    ensures derives { IfOk result (λ suffixes. DerivesOpenSuffixes cursor.old.rest.now cursor.new.rest.now suffixes) }
{
    let mut suffixes = Items::new(alloc);
    cursor.join_open()?;
    while cursor.is_symbol(Symbol::CloseBracket) {
        cursor.close(Symbol::CloseBracket)?;
        suffixes.push(after_brackets(alloc, cursor)?)?;
        cursor.join_open()?;
    }
    Ok(suffixes)
}

/// `"(" Expr ")"`
#[tactic(auto, using(crate::proofs::Making::made_inner, crate::proofs::parts::ExprParts::inner_reads, crate::proofs::parts::ExprParts::inner_refused, crate::proofs::parts::ExprParts::inner_expr_refused, crate::proofs::parts::ExprParts::inner_close_refused))]
#[cycle(exprs)]
fn inner(alloc: Global, cursor: &mut Cursor) -> Result<Expr, Stop>
    ensures moves { OnOk result (Reads cursor.old cursor.new) }
    ensures reads { OnOk result (Reading (part Part.inner ∷ []) cursor.old cursor.new) }
    ensures stops { IfErr result (λ stop. StopsAt (part Part.inner ∷ []) cursor.old stop) }
    ensures derives { IfOk result (λ e. DerivesInner cursor.old.rest.now cursor.new.rest.now (plain_expr e)) }
{
    cursor.open(Symbol::OpenParen)?;
    let inner = expr(alloc, cursor)?;
    cursor.close(Symbol::CloseParen)?;
    Ok(inner)
}

/// `Int | "true" | "false" | "null" | "this" | Name`
#[tactic(auto, using(crate::proofs::Making::made_literal, crate::proofs::parts::ExprParts::literal_reads, crate::proofs::parts::ExprParts::literal_halts, crate::proofs::parts::ExprParts::literal_lost))]
fn literal(cursor: &mut Cursor) -> Result<Expr, Stop>
    ensures moves { OnOk result (Reads cursor.old cursor.new) }
    ensures reads { OnOk result (Reading (part Part.literal ∷ []) cursor.old cursor.new) }
    ensures stops { IfErr result (λ stop. StopsAt (part Part.literal ∷ []) cursor.old stop) }
    ensures derives { IfOk result (λ e. DerivesPrimary (ending_of (plain_expr e)) cursor.old.rest.now cursor.new.rest.now (plain_expr e)) }
{
    let Some(kind) = spelled(cursor) else {
        return Err(cursor.unexpected());
    };
    let place = cursor.place();
    cursor.accept()?;
    Ok(made(place, kind))
}

/// The expression that the next terminal is.
#[tactic(auto, using(crate::proofs::parts::ExprParts::no_literal_at_end, crate::proofs::parts::ExprParts::no_literal, crate::proofs::parts::ExprParts::next_spells))]
fn spelled(cursor: &Cursor) -> Option<ExprKind>
    ensures { MatchOption result (choose Part.literal (next_of cursor.now.rest.now) ≡ None) (λ kind. NextSpells cursor.now.rest.now (plain_kind kind)) }
{
    single(cursor.next()?)
}

/// The expression that a terminal is.
#[tactic(auto, using(crate::proofs::Spelling::number_spelled, crate::proofs::Spelling::name_spelled))]
fn single(terminal: &Terminal) -> Option<ExprKind>
    ensures { MatchOption result (literal_parts terminal.now ≡ None) (λ kind. Spells terminal.now (plain_kind kind)) }
{
    match terminal {
        Terminal::Int(number) => Some(ExprKind::Int(*number)),
        Terminal::Name(name) => Some(ExprKind::Local(*name)),
        Terminal::Keyword(keyword) => constant(*keyword),
        Terminal::Symbol(_) | Terminal::Text(_) => None,
    }
}

/// The expression that a keyword is.
#[tactic(auto, using(crate::proofs::Spelling::true_spelled, crate::proofs::Spelling::false_spelled, crate::proofs::Spelling::null_spelled, crate::proofs::Spelling::this_spelled, crate::proofs::Spelling::no_constant))]
fn constant(keyword: Keyword) -> Option<ExprKind>
    ensures { MatchOption result (literal_parts (Terminal.Keyword keyword) ≡ None) (λ kind. Spells (Terminal.Keyword keyword) (plain_kind kind)) }
{
    match keyword {
        Keyword::True => Some(ExprKind::Bool(true)),
        Keyword::False => Some(ExprKind::Bool(false)),
        Keyword::Null => Some(ExprKind::Null),
        Keyword::This => Some(ExprKind::This),
        _ => None,
    }
}

/// Whether a field, a call or an element of what stands before comes next.
#[tactic(auto, using(crate::proofs::parts::SelectionParts::dot_selects, crate::proofs::parts::SelectionParts::bracket_selects))]
fn selects(cursor: &Cursor) -> bool
    ensures { result ≡ (next_is is_dot (next_of cursor.now.rest.now) || next_is is_open_bracket (next_of cursor.now.rest.now)) }
{
    cursor.is_symbol(Symbol::Dot) || cursor.is_symbol(Symbol::OpenBracket)
}

/// `{ "." Name | "." [ Args ] Name "(" [ Actuals ] ")" | "[" Expr "]" }`
#[tactic(auto, using(syntax_grammar::specs::Reading::none, syntax_grammar::specs::Reading::more, crate::proofs::Few::still_few, crate::proofs::parts::SelectionParts::selected_on, crate::proofs::parts::SelectionParts::selected_refused, crate::proofs::parts::SelectionParts::selected_ends))]
#[cycle(exprs)]
fn selected(alloc: Global, cursor: &mut Cursor, first: Expr) -> Result<Expr, Stop>
    requires { cursor.old.joined ≤ 32 }
    ensures moves { OnOk result (Keeps cursor.old cursor.new) }
    ensures reads { OnOk result (Reading (part Part.selected ∷ []) cursor.old cursor.new) }
    ensures stops { IfErr result (λ stop. StopsAt (part Part.selected ∷ []) cursor.old stop) }
    ensures derives { IfOk result (λ e. DerivesSelections (plain_expr first) cursor.old.rest.now cursor.new.rest.now (plain_expr e)) }
{
    let mut found = first;
    while selects(cursor) {
        found = selection(alloc, cursor, found)?;
    }
    Ok(found)
}

/// `"." Name | "." [ Args ] Name "(" [ Actuals ] ")" | "[" Expr "]"`
#[tactic(auto, using(crate::proofs::parts::SelectionParts::element_selected, crate::proofs::parts::SelectionParts::element_lost))]
#[cycle(exprs)]
fn selection(alloc: Global, cursor: &mut Cursor, of: Expr) -> Result<Expr, Stop>
    requires { cursor.old.joined ≤ 32 }
    ensures moves { OnOk result (Reads cursor.old cursor.new) }
    ensures reads { OnOk result (Reading (part Part.selection ∷ []) cursor.old cursor.new) }
    ensures stops { IfErr result (λ stop. StopsAt (part Part.selection ∷ []) cursor.old stop) }
    ensures derives { IfOk result (λ e. DerivesSelection (plain_expr of) cursor.old.rest.now cursor.new.rest.now (plain_expr e)) }
{
    if cursor.is_symbol(Symbol::Dot) {
        return member(alloc, cursor, of);
    }
    element(alloc, cursor, of)
}

/// `"[" Expr "]"`
#[tactic(auto, using(crate::proofs::Making::made_element, crate::proofs::parts::ExprParts::element_reads, crate::proofs::parts::ExprParts::element_refused, crate::proofs::parts::ExprParts::index_refused, crate::proofs::parts::ExprParts::index_close_refused))]
#[cycle(exprs)]
fn element(alloc: Global, cursor: &mut Cursor, of: Expr) -> Result<Expr, Stop>
    requires { cursor.old.joined ≤ 32 }
    ensures moves { OnOk result (Reads cursor.old cursor.new) }
    ensures reads { OnOk result (Reading (part Part.element ∷ []) cursor.old cursor.new) }
    ensures stops { IfErr result (λ stop. StopsAt (part Part.element ∷ []) cursor.old stop) }
    ensures derives { IfOk result (λ e. DerivesSelection (plain_expr of) cursor.old.rest.now cursor.new.rest.now (plain_expr e)) }
{
    let array = Boxed::new(alloc, of)?;
    let place = cursor.join_open()?;
    let index = Boxed::new(alloc, expr(alloc, cursor)?)?;
    cursor.close(Symbol::CloseBracket)?;
    Ok(made(place, ExprKind::Element { array, index }))
}

/// `"." Name | "." [ Args ] Name "(" [ Actuals ] ")"`
#[tactic(auto, using(crate::proofs::Making::made_field, crate::proofs::Making::made_call, crate::proofs::parts::SelectionParts::dot_halts, crate::proofs::parts::SelectionParts::dot_read, crate::proofs::parts::SelectionParts::args_refused, crate::proofs::parts::SelectionParts::name_refused, crate::proofs::parts::SelectionParts::field_read, crate::proofs::parts::SelectionParts::call_read, crate::proofs::parts::SelectionParts::call_refused))]
#[cycle(exprs)]
fn member(alloc: Global, cursor: &mut Cursor, of: Expr) -> Result<Expr, Stop>
    requires dot { Next (Terminal.Symbol Symbol.Dot) cursor.old.rest.now }
    requires few { cursor.old.joined ≤ 32 }
    ensures moves { OnOk result (Reads cursor.old cursor.new) }
    ensures reads { OnOk result (Reading (part Part.selection ∷ []) cursor.old cursor.new) }
    ensures stops { IfErr result (λ stop. StopsAt (part Part.selection ∷ []) cursor.old stop) }
    ensures derives { IfOk result (λ e. DerivesSelection (plain_expr of) cursor.old.rest.now cursor.new.rest.now (plain_expr e)) }
{
    let of = Boxed::new(alloc, of)?;
    cursor.join()?;
    let has_args = cursor.is_symbol(Symbol::Less);
    let regions = args_if(alloc, cursor)?;
    let named = cursor.name()?;
    if !has_args && !cursor.is_symbol(Symbol::OpenParen) {
        let name = named.name;
        return Ok(made(named.place, ExprKind::Field { of, name }));
    }
    let kind = ExprKind::Call {
        of,
        regions,
        name: named.name,
        actuals: actuals(alloc, cursor)?,
    };
    Ok(made(named.place, kind))
}

/// `"(" [ Actuals ] ")"`
#[tactic(auto, using(crate::proofs::Making::made_no_actuals, crate::proofs::Making::made_actuals, crate::proofs::parts::ExprParts::actuals_refused, crate::proofs::parts::ExprParts::no_actuals_read, crate::proofs::parts::ExprParts::no_actuals_refused, crate::proofs::parts::ExprParts::actuals_read, crate::proofs::parts::ExprParts::listed_refused, crate::proofs::parts::ExprParts::actuals_close_refused))]
#[cycle(exprs)]
fn actuals(alloc: Global, cursor: &mut Cursor) -> Result<Items<Expr>, Stop>
    ensures moves { OnOk result (Reads cursor.old cursor.new) }
    ensures reads { OnOk result (Reading (part Part.actuals ∷ []) cursor.old cursor.new) }
    ensures stops { IfErr result (λ stop. StopsAt (part Part.actuals ∷ []) cursor.old stop) }
    ensures derives { IfOk result (λ all. DerivesActuals cursor.old.rest.now cursor.new.rest.now (plain_exprs (map plain_expr all))) }
{
    cursor.open(Symbol::OpenParen)?;
    if cursor.is_symbol(Symbol::CloseParen) {
        cursor.close(Symbol::CloseParen)?;
        return Ok(Items::new(alloc));
    }
    let actuals = listed(alloc, cursor)?;
    cursor.close(Symbol::CloseParen)?;
    Ok(actuals)
}

/// `Actuals = Expr { "," Expr }`
#[tactic(auto, using(crate::proofs::Making::first_listed, crate::proofs::Making::more_listed, crate::proofs::parts::ExprParts::first_reads, crate::proofs::parts::ExprParts::first_refused, crate::proofs::parts::ExprParts::next_reads, crate::proofs::parts::ExprParts::comma_refused, crate::proofs::parts::ExprParts::next_refused, crate::proofs::parts::ExprParts::listed_ends))]
#[cycle(exprs)]
fn listed(alloc: Global, cursor: &mut Cursor) -> Result<Items<Expr>, Stop>
    ensures moves { OnOk result (Reads cursor.old cursor.new) }
    ensures reads { OnOk result (Reading (part Part.listed ∷ []) cursor.old cursor.new) }
    ensures stops { IfErr result (λ stop. StopsAt (part Part.listed ∷ []) cursor.old stop) }
    ensures derives { IfOk result (λ all. Listed DerivesExprTree cursor.old.rest.now cursor.new.rest.now all) }
{
    let mut all = Items::new(alloc);
    all.push(expr(alloc, cursor)?)?;
    while cursor.symbol_if(Symbol::Comma)? {
        all.push(expr(alloc, cursor)?)?;
    }
    Ok(all)
}

/// `Postfix` at the beginning of a statement: a creation is that of an object, and something in parentheses has a
/// field, a call or an element after it.
#[tactic(auto, using(crate::proofs::Selecting::selection_postfix, crate::proofs::parts::TargetParts::target_on, crate::proofs::parts::TargetParts::target_refused, crate::proofs::parts::TargetParts::target_ends, crate::proofs::Few::still_few))]
pub fn target(alloc: Global, cursor: &mut Cursor) -> Result<Expr, Stop>
    requires target { IsTarget cursor.old.rest.now }
    requires anew { cursor.old.joined ≡ 0 }
    ensures moves { OnOk result (Reads cursor.old cursor.new) }
    ensures leads { IfOk result (λ e. Leads (counts cursor.old) cursor.old.rest.now (ending_of (plain_expr e)) (counts cursor.new) cursor.new.rest.now) }
    ensures stops { IfErr result (λ stop. StopsAt (stmt_begins cursor.old.rest.now) cursor.old stop) }
    ensures derives { IfOk result (λ e. DerivesPostfix (ending_of (plain_expr e)) cursor.old.rest.now cursor.new.rest.now (plain_expr e)) }
{
    let mut found = target_first(alloc, cursor)?;
    while selects(cursor) {
        found = selection(alloc, cursor, found)?;
    }
    Ok(found)
}

/// The shortest such Postfix.
#[tactic(auto, using(crate::proofs::Making::inner_selection, crate::proofs::Making::primary_target, crate::proofs::parts::TargetParts::new_target_refused, crate::proofs::parts::TargetParts::inner_target_refused, crate::proofs::parts::TargetParts::inner_selection_refused, crate::proofs::parts::TargetParts::literal_refused, crate::proofs::parts::TargetParts::new_goes, crate::proofs::parts::TargetParts::inner_goes, crate::proofs::parts::TargetParts::literal_goes, crate::proofs::Few::still_few))]
fn target_first(alloc: Global, cursor: &mut Cursor) -> Result<Expr, Stop>
    requires target { IsTarget cursor.old.rest.now }
    requires few { cursor.old.joined ≤ 32 }
    ensures moves { OnOk result (Reads cursor.old cursor.new) }
    ensures few { OnOk result (cursor.new.joined ≤ 32) }
    ensures goes { IfOk result (λ e. ReadsOn (stmt_begins cursor.old.rest.now) cursor.old (part (Part.selected_then (ending_of (plain_expr e))) ∷ []) cursor.new) }
    ensures stops { IfErr result (λ stop. StopsAt (stmt_begins cursor.old.rest.now) cursor.old stop) }
    ensures derives { IfOk result (λ e. DerivesPostfix (ending_of (plain_expr e)) cursor.old.rest.now cursor.new.rest.now (plain_expr e)) }
{
    if cursor.is_keyword(Keyword::New) {
        return new_object(alloc, cursor);
    }
    if cursor.is_symbol(Symbol::OpenParen) {
        let inner = inner(alloc, cursor)?;
        return selection(alloc, cursor, inner);
    }
    literal(cursor)
}

/// `"new" Name [ Args ] "(" [ Actuals ] ")"`
#[tactic(auto, using(crate::proofs::Composed::refused_first, crate::proofs::parts::ExprParts::new_reads, crate::proofs::parts::ExprParts::class_refused, crate::proofs::parts::ExprParts::class_args_refused, crate::proofs::parts::ExprParts::new_actuals_refused, crate::proofs::parts::TargetParts::new_ending))]
fn new_object(alloc: Global, cursor: &mut Cursor) -> Result<Expr, Stop>
    ensures moves { OnOk result (Reads cursor.old cursor.new) }
    ensures reads { OnOk result (Reading (one is_new ∷ one is_name ∷ part Part.args_if ∷ part Part.actuals ∷ []) cursor.old cursor.new) }
    ensures stops { IfErr result (λ stop. StopsAt (one is_new ∷ one is_name ∷ part Part.args_if ∷ part Part.actuals ∷ []) cursor.old stop) }
    ensures ending { IfOk result (λ e. ending_of (plain_expr e) ≡ as_creation) }
    ensures derives { IfOk result (λ e. DerivesPostfix (ending_of (plain_expr e)) cursor.old.rest.now cursor.new.rest.now (plain_expr e)) }
{
    let place = cursor.keyword(Keyword::New)?;
    let class = cursor.name()?;
    let regions = args_if(alloc, cursor)?;
    let actuals = actuals(alloc, cursor)?;
    Ok(object(place, class, regions, actuals))
}
