use crate::ids::{ClassId, FieldSlot, Row, Slot};
use lang_base::{BinaryOp, Boxed, Items, Place, Rpl, Ty, UnaryOp};

/// An expression. Its place is that at which its trap is reported.
#[cycle(exprs)]
pub struct Expr {
    pub place: Place,
    pub ty: Ty,
    pub form: ExprForm,
}

#[cycle(exprs)]
pub enum ExprForm {
    Int(i32),
    Bool(bool),
    Null,
    /// A local or a formal; `this` is slot 0.
    Local(Slot),
    /// A field of an object of that class or one below it.
    Field {
        of: Boxed<Expr>,
        class: ClassId,
        field: FieldSlot,
    },
    Element {
        array: Boxed<Expr>,
        index: Boxed<Expr>,
    },
    /// The length of an array.
    Length(Boxed<Expr>),
    /// A call of a method, by its row in the static class of the receiver, with its own region arguments.
    Call {
        of: Boxed<Expr>,
        class: ClassId,
        row: Row,
        regions: Items<Rpl>,
        actuals: Items<Expr>,
    },
    /// A new object of the class and with the region arguments that its type says.
    New(Items<Expr>),
    /// A new array of the type of the expression.
    NewArray(Boxed<Expr>),
    Unary {
        op: UnaryOp,
        arg: Boxed<Expr>,
    },
    Binary {
        op: BinaryOp,
        left: Boxed<Expr>,
        right: Boxed<Expr>,
    },
    /// `left && right`: the right operand is evaluated only where the left one is true.
    And {
        left: Boxed<Expr>,
        right: Boxed<Expr>,
    },
    /// `left || right`: the right operand is evaluated only where the left one is false.
    Or {
        left: Boxed<Expr>,
        right: Boxed<Expr>,
    },
    /// The length of a part of an array.
    PartLength(Slot),
    /// An element of a part, counted from the part's first.
    PartElement {
        part: Slot,
        index: Boxed<Expr>,
    },
}

// By hand, so that letting one go is one call to what is proved of a caller.
impl Drop for Expr {
    #[cycle(exprs)]
    fn drop(self) {
        let Expr {
            place: _,
            ty: _,
            form: _,
        } = self;
    }
}

impl Drop for ExprForm {
    #[cycle(exprs)]
    fn drop(self) {
        match self {
            ExprForm::Int(_)
            | ExprForm::Bool(_)
            | ExprForm::Null
            | ExprForm::Local(_)
            | ExprForm::PartLength(_) => {}
            ExprForm::Field {
                of: _,
                class: _,
                field: _,
            } => {}
            ExprForm::Element { array: _, index: _ } => {}
            ExprForm::Length(_) => {}
            ExprForm::Call {
                of: _,
                class: _,
                row: _,
                regions: _,
                actuals: _,
            } => {}
            ExprForm::New(_) => {}
            ExprForm::NewArray(_) => {}
            ExprForm::Unary { op: _, arg: _ } => {}
            ExprForm::Binary {
                op: _,
                left: _,
                right: _,
            } => {}
            ExprForm::And { left: _, right: _ } => {}
            ExprForm::Or { left: _, right: _ } => {}
            ExprForm::PartElement { part: _, index: _ } => {}
        }
    }
}
