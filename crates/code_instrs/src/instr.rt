use lang_base::{BinaryOp, UnaryOp};

/// An instruction. A value is taken off the stack of the frame, and what it gives is put on.
#[derive(Clone, Copy, Debug, PartialEq, Eq)]
pub enum Instr {
    Int(i32),
    Bool(bool),
    Null,
    /// The value of a slot, and a value into a slot.
    Load(usize),
    Store(usize),
    Pop,
    Unary(UnaryOp),
    Binary(BinaryOp),
    /// To another position of the body; and there where the value is false.
    Jump(usize),
    Unless(usize),
    /// One tick of a while loop.
    Turn,
    /// A field, by its slot in the object; and a value into one.
    Get(u32),
    Put(u32),
    /// An element, at an index; and a value into one.
    Elem,
    PutElem,
    /// The length of an array.
    Length,
    /// A call, a creation of an object, and one of an array, by their sites.
    Call(usize),
    New(usize),
    Array(usize),
    /// The end of a body with a result, and of one without.
    Return,
    Leave,
    /// A printed value, and a printed text.
    Print,
    Text(usize),
    /// Branches, by their site; after either a `Join` stands, which begins them and then joins them.
    Fork(usize),
    Spread(usize),
    Join,
    /// An atomic block, by its site, and its end.
    Enter(usize),
    Exit,
    /// The end of a branch.
    End,
    /// A new local region, by its declaration.
    Region(u32),
    /// The part of an array that a branch has, by the part's first slot.
    Part(usize),
    /// An index of a part becomes the array and the place in it; the second keeps the value above the index.
    InPart(usize),
    InParts(usize),
}
