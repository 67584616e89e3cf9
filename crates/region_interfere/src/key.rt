ghost use Rattle.std.specs.Prelude.{◌≡◌};
ghost use Rattle.std.specs.Option.{option_copied};
ghost use Rattle.lang_base.specs.Regions.{same_head};
ghost use Rattle.lang_base.specs.Matching.{is_concrete, all_concrete};
ghost use Rattle.region_interfere.specs.Groups.{fixed_one, key_of};

use lang_base::{Effect, Elem, Head, Index};

/// How effects are put into groups: paths of different groups are apart.
#[derive(Clone, Copy, Debug, PartialEq, Eq)]
pub enum Key {
    /// By the first element of paths with this head.
    First(Head),
    /// By the last element.
    Last,
    /// By all elements of paths with this head.
    Whole(Head),
}

pub fn same_head(a: Head, b: Head) -> bool
    ensures { result ≡ same_head a b }
{
    a == b
}

/// Whether the element stands for one element alone, and no variable.
fn is_fixed(elem: Elem) -> bool
    ensures { result ≡ is_concrete elem }
{
    matches!(
        elem,
        Elem::Name(_) | Elem::At(Index::Literal(_)) | Elem::Local(_, _)
    )
}

fn all_fixed(elems: &[Elem]) -> bool
    ensures { result ≡ all_concrete elems.now }
{
    for elem in elems {
        if !is_fixed(*elem) {
            return false;
        }
    }
    true
}

/// The elements, if there is one alone and it stands for itself.
fn fixed_one(elems: &[Elem]) -> Option<&[Elem]>
    ensures { option_copied result ≡ fixed_one elems.now }
{
    match elems {
        [one] if is_fixed(*one) => Some(elems),
        _ => None,
    }
}

/// What an effect has in common with all of its group, or None where it may meet effects of every group.
pub fn key_of<'e>(key: Key, e: &'e Effect) -> Option<&'e [Elem]>
    ensures { option_copied result ≡ key_of key e.now }
{
    let elems = e.rpl.elems.as_slice();
    match key {
        Key::First(head) if same_head(e.rpl.head, head) => fixed_one(&elems[..elems.len().min(1)]),
        Key::Last => fixed_one(&elems[elems.len().saturating_sub(1)..]),
        Key::Whole(head) if same_head(e.rpl.head, head) && all_fixed(elems) => Some(elems),
        _ => None,
    }
}
