//! Numbers that tell one thing from another, each kind a type of its own.

/// A class, by its position in the order of the text.
#[derive(Clone, Copy, Debug, PartialEq, Eq)]
pub struct ClassId {
    pub number: u32,
}

/// A method or a constructor, by its position in the order of the text.
#[derive(Clone, Copy, Debug, PartialEq, Eq)]
pub struct MemberId {
    pub number: u32,
}

/// A field of a class, inherited ones first.
#[derive(Clone, Copy, Debug, PartialEq, Eq)]
pub struct FieldSlot {
    pub number: u32,
}

/// A row of the methods of a class, inherited ones first. An overriding method keeps the row.
#[derive(Clone, Copy, Debug, PartialEq, Eq)]
pub struct Row {
    pub number: u32,
}

/// A local of a member: `this`, a formal, a declared local, a loop variable, or a part of an array.
#[derive(Clone, Copy, Debug, PartialEq, Eq)]
pub struct Slot {
    pub number: u32,
}

/// A declaration of a local region in a member, in the order of the text.
#[derive(Clone, Copy, Debug, PartialEq, Eq)]
pub struct LocalRegion {
    pub number: u32,
}
