ghost use Rattle.std.specs.Prelude.{◌<◌, ◌+◌, ◌^◌};

use crate::level::Level;
use lang_base::{Items, Place, Trap, Value};
use lang_typed::{Branch, Slot, Stmt};

/// A local that a branch gives back.
#[derive(Clone, Copy, Debug, PartialEq, Eq)]
pub struct Given {
    pub slot: u32,
    pub value: Value,
}

/// The iterations of a loop of branches that have not begun: their first number, which of them is next, and how many are left.
#[derive(Clone, Copy, Drop)]
pub struct Numbers<'p> {
    /// The part of an array that each takes its own part of.
    pub takes: Option<usize>,
    pub slot: usize,
    pub body: &'p Stmt,
    pub start: i32,
    pub next: usize,
    pub left: usize,
    ghost few: { next + left < 2 ^ 31 },
}

/// Branches that have not begun.
#[derive(Clone, Copy, Drop)]
pub enum Rest<'p> {
    /// Those of a `cobegin` from this one on.
    Branches(usize),
    Numbers(Numbers<'p>),
}

/// A construct of branches at work.
#[derive(Drop)]
pub struct Fork<'p> {
    /// The branches of a `cobegin`, whose slots the join copies back.
    pub branches: &'p [Branch],
    /// What the branches give back that have ended, and the first trap among them.
    pub back: Items<Given>,
    pub fell: Option<(Trap, Place)>,
    /// The slots that the branch at work gives back.
    pub running: &'p [Slot],
    pub rest: Rest<'p>,
}

/// What a body waits for.
#[derive(Drop)]
pub enum Awaited<'p> {
    /// The value of a call.
    Value,
    /// The end of the constructor of an object.
    Object(Value),
    /// The end of a branch.
    Branch(Fork<'p>),
}

/// A body that waits for the one at work.
#[derive(Drop)]
pub struct Waiting<'p> {
    pub level: Level<'p>,
    pub awaited: Awaited<'p>,
}
