ghost use Rattle.std.specs.Prelude.{◌≡◌, slice_index_or, false};
ghost use Rattle.lang_base.specs.Regions.{is_index};
ghost use Rattle.lang_base.specs.Branches.{is_atomic_name, atomic_path, both_atomic, ordered_by_blocks};
ghost use Rattle.region_interfere.specs.Nd.{plain_atomic, plain_nd};

use lang_base::{Effect, Elem, Head, Rpl};

/// What is declared atomic. A region name or a region parameter without an entry isn't.
#[derive(Clone, Copy, Debug)]
pub struct Atomic<'a> {
    /// Of each region name, by its number.
    pub names: &'a [bool],
    /// Of each region parameter in scope, by its number.
    pub params: &'a [bool],
}

/// Whether the path is atomic: leaving off indices at its end, it ends by a name that is declared atomic, or
/// nothing is left after a parameter that is.
#[tactic(auto, unfolding(lang_base::specs::Branches::atomic_path))]
pub fn is_atomic(rpl: &Rpl, atomic: Atomic<'_>) -> bool
    ensures { result ≡ atomic_path (plain_atomic atomic.entry) rpl.now }
{
    let mut ends_atomic = match rpl.head {
        Head::Root => false,
        Head::Param(p) => is_declared(atomic.params, p),
    };
    for elem in rpl.elems.as_slice() {
        if !is_index(*elem) {
            ends_atomic = is_atomic_name(atomic.names, *elem);
        }
    }
    ends_atomic
}

fn is_declared(declared: &[bool], number: u32) -> bool
    ensures { result ≡ slice_index_or declared.now number false }
{
    let at = number as usize;
    at < declared.len() && declared[at]
}

fn is_index(elem: Elem) -> bool
    ensures { result ≡ is_index elem }
{
    matches!(elem, Elem::At(_) | Elem::Any)
}

fn is_atomic_name(names: &[bool], elem: Elem) -> bool
    ensures { result ≡ is_atomic_name names.now elem }
{
    match elem {
        Elem::Name(n) => is_declared(names, n),
        _ => false,
    }
}

fn both_atomic(e: &Effect, f: &Effect, atomic: Atomic<'_>) -> bool
    ensures { result ≡ both_atomic (plain_atomic atomic.entry) e.now f.now }
{
    (e.atomic && f.atomic) && (is_atomic(&e.rpl, atomic) && is_atomic(&f.rpl, atomic))
}

/// Whether atomic blocks order two effects of different branches, which they do in an nd construct alone.
pub fn ordered_by_blocks(e: &Effect, f: &Effect, nd: Option<Atomic<'_>>) -> bool
    ensures { result ≡ ordered_by_blocks (plain_nd nd.entry) e.now f.now }
{
    match nd {
        None => false,
        Some(atomic) => both_atomic(e, f, atomic),
    }
}
