use lang_base::{Items, Place};

/// A name where it stands: its position in the program's list of names.
#[derive(Clone, Copy, Debug, PartialEq, Eq)]
pub struct Named {
    pub name: u32,
    pub place: Place,
}

/// A declared name in a region path: `r`, or `C.r` for the region name `r` of a class `C`.
#[derive(Clone, Copy, Debug, PartialEq, Eq)]
pub struct RName {
    pub first: Named,
    pub second: Option<Named>,
}

/// Where a written region path begins.
#[derive(Clone, Copy, Debug, PartialEq, Eq)]
pub enum RplHead {
    Root,
    /// A region parameter, a local region or a region name.
    Name(RName),
}

/// An element of a written region path.
#[derive(Clone, Copy, Debug, PartialEq, Eq)]
pub enum ElemTree {
    Name(RName),
    /// `*`
    Star,
    /// `[?]`
    Any,
    /// `[k]` with a number.
    Lit(i32),
    /// `[v]` with a name.
    Index(Named),
}

/// A written region path. Its place is its first token.
#[derive(Drop)]
pub struct RplTree {
    pub place: Place,
    pub head: RplHead,
    pub elems: Items<ElemTree>,
}

/// A written type: a base, and array suffixes of which the last is the outermost. Its place is its first token.
pub struct TypeTree {
    pub place: Place,
    pub base: BaseTree,
    pub suffixes: Items<Suffix>,
}

/// What a type begins with.
#[derive(Drop)]
pub enum BaseTree {
    Int,
    Bool,
    /// A class. The list of arguments is empty where none is written.
    Class { name: Named, args: Items<RplTree> },
}

/// `[]`, with the region of the elements and the index name where they are written.
#[derive(Drop)]
pub struct Suffix {
    pub rpl: Option<RplTree>,
    pub index: Option<Named>,
}

/// The region parameters of a class or a method, and the constraints over them.
#[derive(Drop)]
pub struct Params {
    pub list: Items<ParamTree>,
    pub given: Items<ConstrTree>,
}

/// A region parameter. Its place is its name.
#[derive(Drop)]
pub struct ParamTree {
    pub place: Place,
    pub name: u32,
    pub atomic: bool,
}

/// `left # right`.
#[derive(Drop)]
pub struct ConstrTree {
    pub left: RplTree,
    pub right: RplTree,
}

// By hand, so that letting one go is one call to what is proved of a caller.
impl Drop for TypeTree {
    fn drop(self) {
        let TypeTree {
            place: _,
            base: _,
            suffixes: _,
        } = self;
    }
}
