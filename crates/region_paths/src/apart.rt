ghost use Rattle.std.specs.Prelude.{◌≡◌, reverse};
ghost use Rattle.lang_base.specs.Regions.{is_star, is_index, same_head, is_root};
ghost use Rattle.lang_base.specs.Apart.{distinct_index, distinct, apart_front, solid, shorter, apart_by, apart_by_some, apart_as_shorter, apart_from_left};
ghost use Rattle.lang_base.specs.Apart.{apart_by_length, apart_from_right, apart};

use crate::includes;
use lang_base::{Constraint, Elem, Head, Index, Rpl};

fn is_star(elem: Elem) -> bool
    ensures { result ≡ is_star elem }
{
    matches!(elem, Elem::Star)
}

fn is_index(elem: Elem) -> bool
    ensures { result ≡ is_index elem }
{
    matches!(elem, Elem::At(_) | Elem::Any)
}

/// Whether two indices are never one number: different literals, or a variable and its renamed copy.
fn distinct_index(x: Index, y: Index) -> bool
    ensures { result ≡ distinct_index x y }
{
    match (x, y) {
        (Index::Literal(j), Index::Literal(k)) => j != k,
        (Index::Variable(v), Index::Renamed(w)) | (Index::Renamed(v), Index::Variable(w)) => v == w,
        _ => false,
    }
}

fn distinct(x: Elem, y: Elem) -> bool
    ensures { result ≡ distinct x y }
{
    match (x, y) {
        (Elem::Name(m), Elem::Name(n)) => m != n,
        (Elem::Local(a, b), Elem::Local(c, d)) => !(a == c && b == d),
        (Elem::At(j), Elem::At(k)) => distinct_index(j, k),
        (Elem::Name(_), Elem::Local(_, _)) | (Elem::Local(_, _), Elem::Name(_)) => true,
        (Elem::Name(_) | Elem::Local(_, _), other) | (other, Elem::Name(_) | Elem::Local(_, _)) => {
            is_index(other)
        }
        _ => false,
    }
}

/// Walks both lists from the left up to a `*` or the end of one.
fn apart_front(a: &[Elem], b: &[Elem]) -> bool
    ensures { result ≡ apart_front a.now b.now }
{
    for i in 0..a.len().min(b.len()) {
        if is_star(a[i]) || is_star(b[i]) {
            return false;
        }
        if distinct(a[i], b[i]) {
            return true;
        }
    }
    false
}

/// Walks both lists from the right up to a `*` or the end of one.
fn apart_back(a: &[Elem], b: &[Elem]) -> bool
    ensures { result ≡ apart_front (reverse a.now) (reverse b.now) }
{
    for i in 0..a.len().min(b.len()) {
        let x = a[a.len() - 1 - i];
        let y = b[b.len() - 1 - i];
        if is_star(x) || is_star(y) {
            return false;
        }
        if distinct(x, y) {
            return true;
        }
    }
    false
}

fn solid(elems: &[Elem]) -> usize
    ensures { result ≡ solid elems.now }
{
    elems.iter().filter(|elem| !is_star(**elem)).count()
}

fn shorter(a: &[Elem], b: &[Elem]) -> bool
    ensures { result ≡ shorter a.now b.now }
{
    solid(a) == a.len() && a.len() < solid(b)
}

fn apart_from_left(a: &Rpl, b: &Rpl) -> bool
    ensures { result ≡ apart_from_left a.now b.now }
{
    a.head == b.head && apart_front(a.elems.as_slice(), b.elems.as_slice())
}

fn apart_as_shorter(a: &Rpl, b: &Rpl) -> bool
    ensures { result ≡ apart_as_shorter a.now b.now }
{
    (a.head == b.head || a.head == Head::Root) && shorter(a.elems.as_slice(), b.elems.as_slice())
}

fn apart_by_length(a: &Rpl, b: &Rpl) -> bool
    ensures { result ≡ apart_by_length a.now b.now }
{
    apart_as_shorter(a, b) || apart_as_shorter(b, a)
}

fn apart_from_right(a: &Rpl, b: &Rpl) -> bool
    ensures { result ≡ apart_from_right a.now b.now }
{
    apart_back(a.elems.as_slice(), b.elems.as_slice())
}

fn apart_by_some(given: &[Constraint], a: &Rpl, b: &Rpl) -> bool
    ensures { result ≡ apart_by_some given.now a.now b.now }
{
    for c in given {
        let straight = includes(&c.left, a) && includes(&c.right, b);
        if straight || (includes(&c.right, a) && includes(&c.left, b)) {
            return true;
        }
    }
    false
}

/// Whether the two paths can never name the same region, by the four rules of disjointness.
#[tactic(auto, unfolding(lang_base::specs::Apart::apart))]
pub fn disjoint(a: &Rpl, b: &Rpl, given: &[Constraint]) -> bool
    ensures { result ≡ apart given.now a.now b.now }
{
    apart_from_left(a, b)
        || apart_by_length(a, b)
        || apart_from_right(a, b)
        || apart_by_some(given, a, b)
}
