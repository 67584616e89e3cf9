use crate::expr::Expr;
use crate::region::{Named, TypeTree};
use lang_base::{Boxed, Bytes, Items, Place};

/// A statement. The place of a declaration is the declared name, of an assignment the `=`, of an expression
/// statement that of its expression, and of anything else its first token.
#[cycle(stmts)]
pub struct Stmt {
    pub place: Place,
    pub kind: StmtKind,
}

#[cycle(stmts)]
pub enum StmtKind {
    Block(Items<Stmt>),
    Declare {
        is_final: bool,
        ty: TypeTree,
        name: u32,
        value: Expr,
    },
    AssignLocal {
        target: Named,
        value: Expr,
    },
    /// The target is a Field expression.
    AssignField {
        target: Expr,
        value: Expr,
    },
    /// The target is an Element expression.
    AssignElement {
        target: Expr,
        value: Expr,
    },
    /// A Call or a New.
    Do(Expr),
    If {
        test: Expr,
        then: Boxed<Stmt>,
        other: Option<Boxed<Stmt>>,
    },
    While {
        test: Expr,
        body: Boxed<Stmt>,
    },
    Return(Option<Expr>),
    Print(Expr),
    /// The text's bytes, its escapes replaced.
    PrintText(Bytes),
    Cobegin {
        nd: bool,
        branches: Items<Stmt>,
    },
    Foreach {
        nd: bool,
        var: Named,
        start: Expr,
        count: Expr,
        body: Boxed<Stmt>,
    },
    ForeachParts {
        view: Named,
        var: Named,
        array: Expr,
        count: Expr,
        body: Boxed<Stmt>,
    },
    Atomic(Items<Stmt>),
    /// New local regions.
    Region {
        names: Items<Named>,
    },
}

// By hand, so that letting one go is one call to what is proved of a caller.
impl Drop for Stmt {
    #[cycle(stmts)]
    fn drop(self) {
        let Stmt { place: _, kind: _ } = self;
    }
}

impl Drop for StmtKind {
    #[cycle(stmts)]
    fn drop(self) {
        match self {
            StmtKind::Block(_) => {}
            StmtKind::Declare {
                is_final: _,
                ty: _,
                name: _,
                value: _,
            } => {}
            StmtKind::AssignLocal {
                target: _,
                value: _,
            } => {}
            StmtKind::AssignField {
                target: _,
                value: _,
            } => {}
            StmtKind::AssignElement {
                target: _,
                value: _,
            } => {}
            StmtKind::Do(_) => {}
            StmtKind::If {
                test: _,
                then: _,
                other: _,
            } => {}
            StmtKind::While { test: _, body: _ } => {}
            StmtKind::Return(_) => {}
            StmtKind::Print(_) => {}
            StmtKind::PrintText(_) => {}
            StmtKind::Cobegin { nd: _, branches: _ } => {}
            StmtKind::Foreach {
                nd: _,
                var: _,
                start: _,
                count: _,
                body: _,
            } => {}
            StmtKind::ForeachParts {
                view: _,
                var: _,
                array: _,
                count: _,
                body: _,
            } => {}
            StmtKind::Atomic(_) => {}
            StmtKind::Region { names: _ } => {}
        }
    }
}
