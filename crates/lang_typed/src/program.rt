use crate::ids::{ClassId, MemberId};
use crate::stmt::Stmt;
use lang_base::{Bytes, Constraint, Effect, Items, Rpl, Ty};

/// A program.
#[derive(Drop)]
pub struct Program {
    /// The classes, in the order of the text.
    pub classes: Items<Class>,
    /// The methods and constructors of all classes, in the order of the text.
    pub members: Items<Member>,
    /// The declared region names, by the numbers that region paths hold.
    pub region_names: Items<RegionName>,
    /// The class `Main`, and its method `main`, with which a run begins.
    pub main_class: ClassId,
    pub main_member: MemberId,
    /// Whether the text holds a `cobegin_nd` or a `foreach_nd`.
    pub uses_nd: bool,
}

/// A declared region name.
#[derive(Drop)]
pub struct RegionName {
    /// The class that declares it.
    pub class: ClassId,
    pub text: Bytes,
    pub atomic: bool,
}

/// A region parameter of a class or a method.
#[derive(Drop)]
pub struct RegionParam {
    pub text: Bytes,
    pub atomic: bool,
}

/// A class. Its region paths are over its region parameters.
#[derive(Drop)]
pub struct Class {
    pub name: Bytes,
    pub params: Items<RegionParam>,
    pub given: Items<Constraint>,
    pub parent: Option<Parent>,
    /// The fields that it declares itself.
    pub fields: Items<Field>,
    /// The member of each row, inherited rows first; an overriding method stands in the row that it overrides.
    pub rows: Items<MemberId>,
    pub constructor: Option<MemberId>,
}

/// The superclass of a class, with the region arguments that the class gives it.
#[derive(Drop)]
pub struct Parent {
    pub class: ClassId,
    pub args: Items<Rpl>,
}

/// A field: its type, and the region that it lies in.
#[derive(Drop)]
pub struct Field {
    pub ty: Ty,
    pub region: Rpl,
}

/// A method or a constructor. Its region paths are over the region parameters of its class and, after these, its
/// own.
#[derive(Drop)]
pub struct Member {
    /// The class that declares it.
    pub class: ClassId,
    pub name: Bytes,
    pub params: Items<RegionParam>,
    /// Its own constraints, which hold beside those of the class.
    pub given: Items<Constraint>,
    pub formals: Items<Ty>,
    /// `Void` where it gives none, as a constructor.
    pub result: Ty,
    pub summary: Items<Effect>,
    /// How many slots its frames have, and how many local regions it declares.
    pub slots: u32,
    pub local_regions: u32,
    pub body: Items<Stmt>,
}
