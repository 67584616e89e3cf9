use lang_base::Access::{Read, Write};
use lang_base::{Access, Effect, Elem, Elems, Head, Index, NoMemory, Rpl};
use region_effects::EffectSet;
use region_interfere::first_meeting;
use region_paths::includes;
use std::alloc::Global;
use std::test::Fail;

const A: Elem = Elem::Name(0);

const B: Elem = Elem::Name(1);

/// How many effects and branches are many: so many squared would take a lifetime.
const MANY: u32 = 20000;

/// A plain effect on `Root` and these elements.
fn effect(alloc: Global, access: Access, elems: &[Elem]) -> Result<Effect, NoMemory> {
    Ok(Effect {
        access,
        atomic: false,
        rpl: Rpl {
            head: Head::Root,
            elems: Elems::from_slice(alloc, elems)?,
        },
    })
}

/// A path that a search with more than one place to go back to would take a lifetime over.
#[test]
fn many_stars(rt: HostRuntime) -> Result<(), Fail> {
    let alloc = rt.alloc();
    let mut outer = Elems::new(alloc);
    let mut inner = Elems::new(alloc);
    for _ in 0..200 {
        outer.extend(&[Elem::Star, A])?;
        inner.extend(&[A, A, A])?;
    }
    outer.push(B)?;
    let outer = Rpl {
        head: Head::Root,
        elems: outer,
    };
    let inner = Rpl {
        head: Head::Root,
        elems: inner,
    };
    assert!(rt; !includes(&outer, &inner));
    Ok(())
}

/// A set of many effects is made, and compared with itself, without looking at each pair.
#[test]
fn many_effects(rt: HostRuntime) -> Result<(), Fail> {
    let alloc = rt.alloc();
    let mut set = EffectSet::new(alloc);
    for _ in 0..2 {
        for k in 0..MANY {
            set.add(effect(alloc, Write, &[Elem::Name(k)])?)?;
        }
    }
    assert_eq!(rt; set.len(), 20000);
    assert!(rt; set.set_covers(&set));
    Ok(())
}

/// A branch that reads one region with all others, and writes one of its own.
fn branch(alloc: Global, own: u32) -> Result<EffectSet, NoMemory> {
    let mut set = EffectSet::new(alloc);
    set.add(effect(alloc, Write, &[Elem::Name(own)])?)?;
    let shared = [Elem::At(Index::Literal(0)), Elem::Star];
    set.add(effect(alloc, Read, shared.as_slice())?)?;
    Ok(set)
}

/// Of many branches only the last two meet.
#[test]
fn many_branches(rt: HostRuntime) -> Result<(), Fail> {
    let alloc = rt.alloc();
    let mut sets = Vec::new(alloc);
    for k in 0..MANY {
        sets.push(branch(alloc, k.min(19998))?)?;
    }
    assert!(rt; sets.len() < 4294967296, "too many branches");
    let pair = Some((19998u32, 19999u32));
    assert_eq!(rt; first_meeting(alloc, sets.as_slice(), &[], None)?, pair);
    Ok(())
}
