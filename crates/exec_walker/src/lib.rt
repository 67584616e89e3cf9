//! The walker: the serial elision of a typed program, carried out.
//!
//! As a definition the walk is one step after the other, with nothing recursive in it. A body at work has an agenda of items and a stack of
//! operands; what waits for it (calls, creations of objects, constructs of branches) is on a second stack. `specs/Agenda.antt` says what
//! the items are, and `specs/Walk.antt` what a step is. A walk that is over gives what the serial elision of `lang_meaning` comes to, full
//! cost and output included; and where a walk is over a limit, the elision is (`specs/Laws.antt`).
//!
//! `Store` is what a run in sequence holds: the heap, what was printed up to the first trap, and what the run has cost. Each of its calls does
//! what one action of a task does to the store of the elision, and answers as that does. The two hold the same (`specs/Stores.antt`), but for
//! the first values of what was made, which nothing sees. A call that would cost more than a limit allows is refused, exactly where the
//! elision's store would be over that limit; output after the first trap costs, and is not kept.
//!
//! `elide` takes the steps of the walk over a store. Its state is that of the walk (`specs/States.antt`), and each function has the clause of
//! one of its equations: it takes the walker where the equation leads, or is refused by a limit that the state there is over. So `elide` gives
//! the outcome of the serial elision, for every typed program, or is out of memory.
#![tactic(auto)]

mod branches;
mod calls;
mod copies;
mod ends;
mod halt;
mod item;
pub mod laws;
mod level;
mod levels;
mod operations;
mod statements;
mod steps;
mod store;
mod waiting;
mod walker;
mod whole;

pub use halt::Halt;
pub use store::Store;
pub use whole::elide;
