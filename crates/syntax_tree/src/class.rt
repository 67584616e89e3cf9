use crate::region::{Named, Params, RplTree, TypeTree};
use crate::stmt::Stmt;
use lang_base::{Bytes, Items, Place};

/// A program: its classes in the order of the text, and the distinct names of the text in order of first
/// occurrence. Everything else holds a name by its position there.
#[derive(Drop)]
pub struct Program {
    pub classes: Items<Class>,
    pub names: Items<Bytes>,
}

/// A class. Its place is its name.
#[derive(Drop)]
pub struct Class {
    pub place: Place,
    pub name: u32,
    pub params: Params,
    pub parent: Option<Parent>,
    pub members: Items<Member>,
}

/// The superclass that a class names.
#[derive(Drop)]
pub struct Parent {
    pub name: Named,
    pub args: Items<RplTree>,
}

#[derive(Drop)]
pub enum Member {
    /// Declared region names.
    Regions { atomic: bool, names: Items<Named> },
    Field(Field),
    Method(Method),
}

/// A field. Its place is its name.
#[derive(Drop)]
pub struct Field {
    pub place: Place,
    pub name: u32,
    pub ty: TypeTree,
    pub region: Option<RplTree>,
}

/// A method or a constructor. Its place is its name.
#[derive(Drop)]
pub struct Method {
    pub place: Place,
    pub name: u32,
    pub params: Params,
    pub result: MethodResult,
    pub formals: Items<Formal>,
    pub summary: Option<SummaryTree>,
    pub body: Items<Stmt>,
}

#[derive(Drop)]
pub enum MethodResult {
    Constructor,
    Void,
    Value(TypeTree),
}

/// A formal parameter. Its place is its name.
#[derive(Drop)]
pub struct Formal {
    pub place: Place,
    pub name: u32,
    pub ty: TypeTree,
}

/// A written summary of effects. `pure` has two empty lists.
#[derive(Drop)]
pub struct SummaryTree {
    pub reads: Items<Item>,
    pub writes: Items<Item>,
}

/// One item of a summary.
#[derive(Drop)]
pub struct Item {
    pub atomic: bool,
    pub rpl: RplTree,
}
