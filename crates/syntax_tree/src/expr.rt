use crate::region::{BaseTree, Named, RplTree, Suffix};
use lang_base::{BinaryOp, Boxed, Items, LogicOp, Place, UnaryOp};

/// An operator between two expressions.
#[derive(Clone, Copy, Debug, PartialEq, Eq)]
pub enum InfixOp {
    Logic(LogicOp),
    Binary(BinaryOp),
}

/// An expression. The place of an operation is its operator, of a field or call the name after the dot, of an
/// element the `[`, of a creation `new`, and of anything else its token.
#[cycle(exprs)]
pub struct Expr {
    pub place: Place,
    pub kind: ExprKind,
}

#[cycle(exprs)]
pub enum ExprKind {
    Int(i32),
    Bool(bool),
    Null,
    This,
    /// A local or a parameter.
    Local(u32),
    /// A field, or the length of an array.
    Field {
        of: Boxed<Expr>,
        name: u32,
    },
    Element {
        array: Boxed<Expr>,
        index: Boxed<Expr>,
    },
    Call {
        of: Boxed<Expr>,
        regions: Items<RplTree>,
        name: u32,
        actuals: Items<Expr>,
    },
    New {
        class: Named,
        regions: Items<RplTree>,
        actuals: Items<Expr>,
    },
    NewArray {
        base: BaseTree,
        suffixes: Items<Suffix>,
        length: Boxed<Expr>,
        rpl: Option<RplTree>,
        index: Option<Named>,
    },
    Unary {
        op: UnaryOp,
        arg: Boxed<Expr>,
    },
    Binary {
        op: InfixOp,
        left: Boxed<Expr>,
        right: Boxed<Expr>,
    },
}

// By hand, so that letting one go is one call to what is proved of a caller.
impl Drop for Expr {
    #[cycle(exprs)]
    fn drop(self) {
        let Expr { place: _, kind: _ } = self;
    }
}

impl Drop for ExprKind {
    #[cycle(exprs)]
    fn drop(self) {
        match self {
            ExprKind::Int(_) => {}
            ExprKind::Bool(_) => {}
            ExprKind::Null => {}
            ExprKind::This => {}
            ExprKind::Local(_) => {}
            ExprKind::Field { of: _, name: _ } => {}
            ExprKind::Element { array: _, index: _ } => {}
            ExprKind::Call {
                of: _,
                regions: _,
                name: _,
                actuals: _,
            } => {}
            ExprKind::New {
                class: _,
                regions: _,
                actuals: _,
            } => {}
            ExprKind::NewArray {
                base: _,
                suffixes: _,
                length: _,
                rpl: _,
                index: _,
            } => {}
            ExprKind::Unary { op: _, arg: _ } => {}
            ExprKind::Binary {
                op: _,
                left: _,
                right: _,
            } => {}
        }
    }
}
