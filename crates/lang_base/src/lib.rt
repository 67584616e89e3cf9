//! The vocabulary of dpj: what every other crate names and none of them owns.
//!
//! Here stand places in a text, region paths with their elements, effects, constraints and types, the
//! operators, the values and traps of a run, what a field holds before it is assigned, a run's limits and
//! its outcome, and every refusal that the checker can give.
//! Beside them stand four small containers, `Items`, `Boxed`, `Bytes` and `Elems`, which a contract sees
//! as what they hold and nothing else.
//!
//! What it promises: `copy` gives an equal value or runs out of memory, `same` is true exactly for equal
//! values, and both hold on types that reach themselves. A failed growth leaves a container as it was.
#![tactic(auto)]

mod array_part;
mod boxed;
mod bytes;
mod effect;
mod elems;
mod items;
mod memory;
mod op;
mod outcome;
mod parting;
mod path;
mod place;
mod plain;
mod refusal;
mod region;
mod ty;
mod value;

pub use array_part::{Part, PartUse};
pub use boxed::Boxed;
pub use bytes::Bytes;
pub use effect::{Access, Constraint, Effect};
pub use elems::{Elem, Elems, Index};
pub use items::Items;
pub use memory::NoMemory;
pub use op::{BinaryOp, LogicOp, Operands, UnaryOp};
pub use outcome::{Ending, Limits, Outcome};
pub use parting::{law_parts, part};
pub use path::{Path, PathStep};
pub use place::Place;
pub use plain::Plain;
pub use refusal::{Kind, Refusal, Stop};
pub use region::{Head, Region, Rpl};
pub use ty::{Super, Ty};
pub use value::{FirstValue, SlotValue, Trap, Value};
