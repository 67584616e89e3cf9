ghost use Rattle.std.specs.Prelude.{◌≡◌, IfOk};

use lang_base::{Bytes, Effect, Items, NoMemory, Place, Plain, Region, SlotValue, Trap, Value};
use lang_typed::Forking;
use std::alloc::Global;

/// How a task ends.
#[derive(Drop)]
pub enum Ending {
    Returned(Value),
    /// A branch, with the slots that the join copies back.
    Assigned(Items<SlotValue>),
    Trapped(Trap, Place),
}

/// What a task does by itself: no other task begins or ends by it.
#[derive(Drop)]
pub enum Own {
    /// Nothing: it lets others go on.
    Rest,
    /// Of a field or an element, by its index in the object or array.
    Read {
        object: u32,
        index: i64,
    },
    Write {
        object: u32,
        index: i64,
        value: Value,
    },
    /// It asks for the class of an object, or for the length of an array.
    Look {
        object: u32,
    },
    /// Its fields have the first values of the class.
    NewObject {
        class: u32,
        regions: Items<Region>,
        /// Whether its class declares a constructor.
        constructor: bool,
    },
    NewArray {
        region: Region,
        len: u32,
        first: Value,
    },
    /// A line, with its end.
    Print(Bytes),
    Enter(Items<Effect>),
    Exit,
}

/// What a task does to the world that it shares with others.
#[derive(Drop)]
pub enum Action {
    Do(Own),
    /// So many branches, which begin one after another.
    Fork { forking: Forking, branches: usize },
    Begin { branch: usize },
    Join,
    End(Ending),
}

/// What a task is answered.
#[derive(Drop)]
pub enum Answer {
    Went,
    Got(Value),
    /// The index is out of bounds.
    Out,
    Class { class: u32, regions: Items<Region> },
    Length(u32),
    /// The number of a new object or array.
    Made(u32),
    /// The slots that a join copies back.
    Joined(Items<SlotValue>),
    Fell(Trap, Place),
}

impl Ending {
    /// An equal ending.
    pub fn copy(&self, alloc: Global) -> Result<Ending, NoMemory>
        ensures { IfOk result (λ ending. ending ≡ self.now) }
    {
        Ok(match self {
            Ending::Returned(value) => Ending::Returned(*value),
            Ending::Assigned(slots) => Ending::Assigned(slots.copy(alloc)?),
            Ending::Trapped(trap, place) => Ending::Trapped(*trap, *place),
        })
    }
}
