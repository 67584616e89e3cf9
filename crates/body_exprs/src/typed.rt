use lang_base::{Place, Ty};
use lang_typed::{Expr, ExprForm};

/// What an expression of the text gives.
#[derive(Drop)]
pub enum Typed {
    /// The typed expression.
    Known(Expr),
    /// It comes from a part of what is no array. That is reported at the construct, so that here it fits everywhere.
    Any,
}

impl Typed {
    ghost use Rattle.std.specs.Prelude.{◌≡◌};
    ghost use Rattle.body_exprs.specs.Typed.{plain_node, plain_typed, node_at, passes, is_int, is_boolean, is_reference, is_value};

    pub fn is_int(&self) -> bool
        ensures { result ≡ passes is_int self.now }
    {
        matches!(self, Typed::Known(Expr { ty: Ty::Int, .. }) | Typed::Any)
    }

    pub fn is_boolean(&self) -> bool
        ensures { result ≡ passes is_boolean self.now }
    {
        matches!(self, Typed::Known(Expr { ty: Ty::Bool, .. }) | Typed::Any)
    }

    /// Whether it may be null.
    pub fn is_reference(&self) -> bool
        ensures { result ≡ passes is_reference self.now }
    {
        match self {
            Typed::Known(expr) => {
                matches!(expr.ty, Ty::Null | Ty::Class { .. } | Ty::Array { .. })
            }
            Typed::Any => true,
        }
    }

    /// Whether it is a value at all, which a call without a result isn't.
    pub fn is_value(&self) -> bool
        ensures { result ≡ passes is_value self.now }
    {
        !matches!(self, Typed::Known(Expr { ty: Ty::Void, .. }))
    }

    /// The typed expression. For one that fits everywhere, in a program that is refused, `null` stands at the place.
    pub fn into_node(self, place: Place) -> Expr
        ensures { plain_node result ≡ node_at place (plain_typed self) }
    {
        match self {
            Typed::Known(expr) => expr,
            Typed::Any => Expr {
                place,
                ty: Ty::Null,
                form: ExprForm::Null,
            },
        }
    }
}
