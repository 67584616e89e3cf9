//! What a body works with while it runs, walked in sequence or run as code: its frame, a stack of operands, and what the
//! values of both count as.
//!
//! An object is its number in the heap; a local region is two numbers, which are read as a task's names or as those of a walk
//! (`specs/Names.antt`). Each function is exact against the one of `lang_meaning` that bears its name, and none but those that
//! give a list takes memory.
#![tactic(auto)]

mod classes;
mod entries;
mod frame;
mod lines;
mod operations;
mod parts;
mod regions;
mod stack;
mod values;

pub use classes::{Classes, Seen, Superclass, class_entered, constructor_of, regions_above};
pub use entries::{call_values, entered, fresh_frame};
pub use frame::Frame;
pub use lines::{text_line, value_line};
pub use operations::{apply, operated};
pub use parts::{part_place, set_slot_after, slot_after, take_part};
pub use regions::{concrete, concrete_all, is_long, some_long};
pub use stack::Stack;
pub use values::{counted, how_many, number, plus, reference, set_slot, slot, truth};
