ghost use Rattle.std.specs.Prelude.{◌≡◌, ◌<◌, ℕ, length, IfOk};
ghost use Rattle.lang_base.specs.Regions.{fully_specified, within, substituted};

use crate::covers::covers;
use lang_base::{Elem, Head, NoMemory, Plain, Rpl};
use std::alloc::Global;

/// Whether every region that the inner path can name the outer path can name too, by the rule of inclusion.
#[tactic(auto, unfolding(lang_base::specs::Regions::within))]
pub fn includes(outer: &Rpl, inner: &Rpl) -> bool
    ensures { result ≡ within inner.now outer.now }
{
    let heads = match (inner.head, outer.head) {
        (Head::Root, Head::Root) => true,
        (Head::Param(p), Head::Param(q)) => p == q,
        (Head::Param(_), Head::Root) => matches!(outer.elems.as_slice(), [Elem::Star, ..]),
        (Head::Root, Head::Param(_)) => false,
    };
    heads && covers(outer.elems.as_slice(), inner.elems.as_slice())
}

/// Whether the path is fully specified: it has no `*` and no `[?]`.
pub fn is_full(rpl: &Rpl) -> bool
    ensures { result ≡ fully_specified rpl.now }
{
    for elem in rpl.elems.as_slice() {
        if matches!(*elem, Elem::Star | Elem::Any) {
            return false;
        }
    }
    true
}

/// The path with its argument put in for the parameter at its head. A parameter that has none stays.
pub fn subst(alloc: Global, rpl: &Rpl, args: &[Rpl]) -> Result<Rpl, NoMemory>
    ensures { IfOk result (λ made. made ≡ substituted args.now rpl.now) }
{
    match rpl.head {
        Head::Param(p) if p as usize >= args.len() => rpl.copy(alloc),
        _ => subst_given(alloc, rpl, args),
    }
}

/// The path with its argument put in, where the parameter has one.
#[tactic(auto, unfolding(lang_base::specs::Regions::substituted))]
fn subst_given(alloc: Global, rpl: &Rpl, args: &[Rpl]) -> Result<Rpl, NoMemory>
    requires { (p : ℕ) → rpl.now.head ≡ Head.Param p → p < length args.now }
    ensures { IfOk result (λ made. made ≡ substituted args.now rpl.now) }
{
    match rpl.head {
        Head::Root => rpl.copy(alloc),
        Head::Param(p) => {
            let mut made = args[p as usize].copy(alloc)?;
            made.elems.extend(rpl.elems.as_slice())?;
            Ok(made)
        }
    }
}
