ghost use Rattle.std.specs.Prelude.{◌≡◌, map, IfOk};
ghost use Rattle.lang_base.specs.Branches.{renamed_elem, renamed_rpl, renamed_effect};

use lang_base::{Effect, Elem, Elems, Index, Items, NoMemory, Rpl};
use std::alloc::Global;

fn renamed_elem(elem: Elem, var: u32) -> Elem
    ensures { result ≡ renamed_elem var elem }
{
    match elem {
        Elem::At(Index::Variable(v)) if v == var => Elem::At(Index::Renamed(v)),
        other => other,
    }
}

fn renamed(alloc: Global, rpl: &Rpl, var: u32) -> Result<Rpl, NoMemory>
    ensures { IfOk result (λ made. made ≡ renamed_rpl var rpl.now) }
{
    let mut elems = Elems::new(alloc);
    for elem in rpl.elems.as_slice() {
        elems.push(renamed_elem(*elem, var))?;
    }
    Ok(Rpl {
        head: rpl.head,
        elems,
    })
}

/// The effects with the renamed copy in place of the variable.
pub fn renamed_all(alloc: Global, effects: &[Effect], var: u32) -> Result<Items<Effect>, NoMemory>
    ensures { IfOk result (λ made. made ≡ map (renamed_effect var) effects.now) }
{
    let mut made = Items::new(alloc);
    for e in effects {
        made.push(Effect {
            access: e.access,
            atomic: e.atomic,
            rpl: renamed(alloc, &e.rpl, var)?,
        })?;
    }
    Ok(made)
}
