use crate::instr::Instr;
use lang_base::{Bytes, Effect, FirstValue, Items, Place, Rpl};
use lang_typed::Forking;

/// The code of a program.
#[derive(Drop)]
pub struct Code {
    pub classes: Items<ClassCode>,
    /// Each member, by its number: rows of methods name it so.
    pub members: Items<MethodCode>,
    /// The bodies, in the order of the listing: each method or constructor, and after it its branches.
    pub bodies: Items<Body>,
    pub sites: Items<Site>,
    pub texts: Items<Bytes>,
    pub main_class: u32,
    pub main_body: usize,
}

/// A class at run time.
#[derive(Drop)]
pub struct ClassCode {
    pub parent: Option<u32>,
    /// The region arguments that it gives its superclass.
    pub args: Items<Rpl>,
    /// What all fields hold at first.
    pub fields: Items<FirstValue>,
    /// The body of its constructor.
    pub constructor: Option<usize>,
    /// The member in each row of methods, by its number.
    pub methods: Items<u32>,
}

/// A member: the class whose region parameters its body speaks of, and the body.
#[derive(Clone, Copy, Debug, PartialEq, Eq)]
pub struct MethodCode {
    pub owner: u32,
    pub body: usize,
}

/// A body.
#[derive(Drop)]
pub struct Body {
    pub title: Title,
    pub instrs: Items<Instr>,
    /// The place at which the trap of each instruction is reported.
    pub places: Items<Place>,
    /// How many slots its frames have.
    pub slots: u32,
    /// How many local regions it declares.
    pub locals: u32,
}

/// What the listing says in front of a body.
#[derive(Drop)]
pub enum Title {
    Member(Bytes),
    /// A branch, by its site and its number there.
    Branch(usize, usize),
}

/// The slots that the join copies back from a branch.
#[derive(Drop)]
pub struct BranchCopies {
    pub slots: Items<u32>,
}

/// What an instruction needs beside itself.
#[derive(Drop)]
pub enum Site {
    /// Branches: their bodies, and what is copied back from each.
    Fork {
        forking: Forking,
        bodies: Items<usize>,
        copies: Items<BranchCopies>,
    },
    /// A branch for each number: its body, and the slot of the number.
    Spread {
        forking: Forking,
        body: usize,
        slot: usize,
    },
    /// The effects with which an atomic block is entered.
    Block {
        effects: Items<Effect>,
    },
    /// A call of a row of a class, with so many actuals and with region arguments.
    Call {
        class: u32,
        row: u32,
        formals: usize,
        regions: Items<Rpl>,
    },
    /// The creation of an object, with so many actuals and with region arguments.
    New {
        class: u32,
        formals: usize,
        regions: Items<Rpl>,
    },
    /// The creation of an array: the region of its elements, and the first value of each.
    Array {
        region: Rpl,
        first: FirstValue,
    },
}
