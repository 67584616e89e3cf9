//! The headers of a program's classes: their names, superclasses, region parameters and region names.
//!
//! `headers` makes them of the tree and refuses the faults that need nothing but names: two declarations of one
//! name, a superclass that isn't there, a class that is its own superclass, a class with a constructor that is
//! extended, and a constructor that isn't named as its class. The look-ups go by the numbers of names, and a
//! region name is looked for in the class first and then in its superclasses, one after the other.
//!
//! `Faults` keeps of all faults that a pass notes the one that is reported.
#![tactic(auto)]

mod faults;
mod fields;
mod forest;
mod gather;
mod header;
mod members;
mod numbering;
mod numbers;
mod regions;
mod rounds;
mod supers;

pub use faults::Faults;
pub use forest::Step;
pub use gather::{headers, param_rows};
pub use header::{Header, Headers, ParamRow, RegionRow};
pub use numbers::{NameNumbers, OwnedNumbers, number_at};
