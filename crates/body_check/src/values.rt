//! Values that a statement asks for, and names that it declares.
ghost use Rattle.std.specs.Prelude.{◌≡◌, None, not, true, IfOk};
ghost use Rattle.decl_table.specs.Table.{numbered};
ghost use Rattle.syntax_tree.specs.Plain.{plain_expr};
ghost use Rattle.body_exprs.specs.Answer.{gives, refused, Says};
ghost use Rattle.body_exprs.specs.Env.{has_room, supers_of, table_of};
ghost use Rattle.body_exprs.specs.Typed.{plain_typed, value_type, may_be, is_int, is_boolean};
ghost use Rattle.body_exprs.specs.Typing.{Typing};
ghost use Rattle.body_check.specs.Deciding.{may_return};
ghost use Rattle.body_check.specs.Noting.{fault_of, with_fault_if};
ghost use Rattle.body_check.specs.Simple.{declaration_noted, with_room};

use crate::node::{Around, Node};
use body_exprs::{Env, Found, Typed, expr, fits};
use lang_base::{Kind, NoMemory, Place, Stop};
use syntax_tree::Expr;

/// An expression that is to be an int.
pub fn int(env: &Env, e: &Expr, out: &mut Found, node: &mut Node) -> Result<Typed, Stop>
    ensures answer { Says result (λ typed. gives (plain_typed typed) out.new) refused (Typing env.now (plain_expr e.now) out.old) }
    ensures node { IfOk result (λ typed. node.new ≡ with_fault_if node.old Kind.Type (not (may_be is_int (value_type typed)))) }
{
    let value = expr(env, out, e)?;
    node.note_if(Kind::Type, !value.is_int());
    Ok(value)
}

/// An expression that is to be a boolean.
pub fn boolean(env: &Env, e: &Expr, out: &mut Found, node: &mut Node) -> Result<Typed, Stop>
    ensures answer { Says result (λ typed. gives (plain_typed typed) out.new) refused (Typing env.now (plain_expr e.now) out.old) }
    ensures node { IfOk result (λ typed. node.new ≡ with_fault_if node.old Kind.Type (not (may_be is_boolean (value_type typed)))) }
{
    let value = expr(env, out, e)?;
    node.note_if(Kind::Type, !value.is_boolean());
    Ok(value)
}

/// Whether the value may be returned. Where the method has no result that is asked of `void` alone.
pub fn is_returned(env: &Env, around: Around, value: &Typed) -> Result<bool, NoMemory>
    ensures { IfOk result (λ fit. fit ≡ may_return (supers_of env.now) around.has_result (numbered (table_of env.now) env.now.method) (value_type value.now)) }
{
    match env.table().numbered(env.method) {
        Some(row) if around.has_result => fits(env, value, &row.result),
        _ => Ok(value.is_value()),
    }
}

/// A name that is declared while a local or a formal has it is a fault, and so is a declaration for which there is
/// no room.
pub fn note_declaration(env: &Env, name: u32, place: Place, node: &mut Node)
    ensures node { node.new ≡ declaration_noted env.now name place node.old }
    ensures room { fault_of node.new ≡ None → has_room env.now ≡ true }
{
    if env.local(name).is_some() {
        node.note_at(Kind::Duplicate, place);
    }
    note_room(env, place, node);
}

/// A declaration for which there is no room is a fault.
pub fn note_room(env: &Env, place: Place, node: &mut Node)
    ensures node { node.new ≡ with_room env.now place node.old }
    ensures room { fault_of node.new ≡ None → has_room env.now ≡ true }
{
    if !env.has_room() {
        node.note_at(Kind::TooLong, place);
    }
}
