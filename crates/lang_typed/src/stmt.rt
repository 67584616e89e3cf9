use crate::expr::Expr;
use crate::ids::{ClassId, FieldSlot, LocalRegion, Slot};
use lang_base::{Boxed, Bytes, Effect, Items, Place, Ty};

/// What may be said of the order of the branches of a construct.
#[derive(Clone, Copy, Debug, PartialEq, Eq)]
pub enum Forking {
    /// `cobegin`, `foreach`: it doesn't matter.
    Deterministic,
    /// `cobegin_nd`, `foreach_nd`: it may matter, where atomic blocks meet.
    Nondeterministic,
}

/// What a `foreach_parts` cuts into parts.
#[derive(Drop)]
pub enum PartSource {
    Array(Expr),
    /// A part of an array, by its slot.
    Part(Slot),
}

/// A statement. Its place is that at which its trap is reported: of an assignment the target, else the first
/// token.
#[cycle(stmts)]
pub struct Stmt {
    pub place: Place,
    pub form: StmtForm,
}

/// A branch of a `cobegin`, with the outer locals that it assigns, which the join copies back.
#[cycle(stmts)]
pub struct Branch {
    pub copies: Items<Slot>,
    pub body: Stmt,
}

#[cycle(stmts)]
pub enum StmtForm {
    /// A declaration of a local. A final int may stand in an index.
    Declare {
        slot: Slot,
        ty: Ty,
        is_final: bool,
        value: Expr,
    },
    /// An assignment to a local or a formal.
    Store {
        slot: Slot,
        value: Expr,
    },
    StoreField {
        of: Expr,
        class: ClassId,
        field: FieldSlot,
        value: Expr,
    },
    StoreElement {
        array: Expr,
        index: Expr,
        value: Expr,
    },
    /// An assignment to an element of a part.
    StorePart {
        part: Slot,
        index: Expr,
        value: Expr,
    },
    /// A call or a creation of an object; what it gives is dropped.
    Perform(Expr),
    Block(Items<Stmt>),
    If {
        test: Expr,
        then: Boxed<Stmt>,
        other: Option<Boxed<Stmt>>,
    },
    While {
        test: Expr,
        body: Boxed<Stmt>,
    },
    Return(Option<Expr>),
    PrintInt(Expr),
    PrintBool(Expr),
    PrintText(Bytes),
    /// New local regions.
    Regions(Items<LocalRegion>),
    /// An atomic block, with the effects with which it is entered.
    Atomic {
        effects: Items<Effect>,
        body: Items<Stmt>,
    },
    Cobegin {
        forking: Forking,
        branches: Items<Branch>,
    },
    Foreach {
        forking: Forking,
        slot: Slot,
        start: Expr,
        count: Expr,
        body: Boxed<Stmt>,
    },
    /// The part has four slots from its own on: the array, the first place, the length and the count of parts.
    /// The loop variable, which numbers the parts, has the slot after them.
    ForeachParts {
        part: Slot,
        source: PartSource,
        count: Expr,
        body: Boxed<Stmt>,
    },
}

// By hand, so that letting one go is one call to what is proved of a caller.
impl Drop for Stmt {
    #[cycle(stmts)]
    fn drop(self) {
        let Stmt { place: _, form: _ } = self;
    }
}

impl Drop for Branch {
    #[cycle(stmts)]
    fn drop(self) {
        let Branch { copies: _, body: _ } = self;
    }
}

impl Drop for StmtForm {
    #[cycle(stmts)]
    fn drop(self) {
        match self {
            StmtForm::Declare {
                slot: _,
                ty: _,
                is_final: _,
                value: _,
            } => {}
            StmtForm::Store { slot: _, value: _ } => {}
            StmtForm::StoreField {
                of: _,
                class: _,
                field: _,
                value: _,
            } => {}
            StmtForm::StoreElement {
                array: _,
                index: _,
                value: _,
            } => {}
            StmtForm::StorePart {
                part: _,
                index: _,
                value: _,
            } => {}
            StmtForm::Perform(_) => {}
            StmtForm::Block(_) => {}
            StmtForm::If {
                test: _,
                then: _,
                other: _,
            } => {}
            StmtForm::While { test: _, body: _ } => {}
            StmtForm::Return(_) => {}
            StmtForm::PrintInt(_) | StmtForm::PrintBool(_) => {}
            StmtForm::PrintText(_) => {}
            StmtForm::Regions(_) => {}
            StmtForm::Atomic {
                effects: _,
                body: _,
            } => {}
            StmtForm::Cobegin {
                forking: _,
                branches: _,
            } => {}
            StmtForm::Foreach {
                forking: _,
                slot: _,
                start: _,
                count: _,
                body: _,
            } => {}
            StmtForm::ForeachParts {
                part: _,
                source: _,
                count: _,
                body: _,
            } => {}
        }
    }
}
