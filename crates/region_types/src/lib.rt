//! Types: which are the same, which is a subtype of which, what one is with region arguments or an index put in, whether it mentions a region
//! parameter or an array's own index; and the type and the region path of an element of an array, and whether it may be read and written.
//!
//! Each call is exactly its definition in `lang_base`, over types as plain data; that of `element` is in `specs/Access.antt`. `same_type`,
//! `mentions`, `rigid` and the like for an own index take no memory. A type is gone down by recursion, once for each array type in it; the
//! language has at most 32 of these, one inside the other. `subtype` goes up the superclasses of a class, and finds each by a binary search.
#![tactic(auto)]

mod access;
mod at_index;
mod depth;
pub mod laws;
mod mention;
mod parts;
mod put_in;
mod same;
mod subtyping;
mod supers;

pub use access::element;
pub use at_index::{path_at, type_at};
pub use mention::{mentions, mentions_index, rigid, rigid_in_index};
pub use parts::Element;
pub use put_in::subst_type;
pub use same::{same_path, same_type};
pub use subtyping::subtype;
pub use supers::is_ordered;
