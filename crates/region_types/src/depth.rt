ghost use Rattle.std.specs.Prelude.{◌≡◌, ℕ, suc};
ghost use Rattle.lang_base.specs.Regions.{same_elem};
ghost use Rattle.region_types.specs.Depth.{IsDepth};

use lang_base::{Elem, Index};

/// How many array types further in than where the count began.
#[derive(Clone, Copy, Debug, PartialEq, Eq)]
pub struct Depth {
    /// None where that is more than an index can count.
    pub counted: Option<u32>,
}

impl Depth {
    /// Where the count begins.
    pub fn outermost() -> Depth
        ensures { IsDepth result 0 }
    {
        Depth { counted: Some(0) }
    }

    /// One array type further in.
    pub fn inside(self) -> Depth
        ensures { (n : ℕ) → IsDepth self n → IsDepth result (suc n) }
    {
        Depth {
            counted: match self.counted {
                None => None,
                Some(depth) => depth.checked_add(1),
            },
        }
    }

    /// Whether the element, so many array types further in, is the own index of the one where the count began.
    pub fn is_own(self, elem: Elem) -> bool
        ensures { (n : ℕ) → IsDepth self n → result ≡ same_elem elem (Elem.At (Index.Own n)) }
    {
        match (elem, self.counted) {
            (Elem::At(Index::Own(own)), Some(depth)) => own == depth,
            _ => false,
        }
    }
}
