ghost use Rattle.std.specs.Prelude.{◌≡◌, ◌<◌, List, length, cond, IfOk, OnOk};
ghost use Rattle.lang_base.specs.declared.elems.Elem.{Elem as Element};
ghost use Rattle.lang_base.specs.Keys.{elems_eq};
ghost use Rattle.region_interfere.specs.Groups.{keyed_group, group_with, Noted, Shows, ShowsAll, alone};

use crate::key::{Key, key_of};
use crate::seen::Group;
use indexmap::IndexMap;
use lang_base::{Access, Effect, Elem, NoMemory};
use region_effects::EffectSet;
use std::alloc::Global;

/// The effects of branches, by groups.
#[derive(Debug, Drop)]
pub struct Groups<'a> {
    key: Key,
    /// Each under the elements that its effects have in common.
    keyed: IndexMap<&'a [Elem], Group>,
    /// The effects that belong to no group of their own.
    unkeyed: Group,
    /// All effects.
    all: Group,
}

fn keyed_group(keyed: &IndexMap<&[Elem], Group>, common: &[Elem]) -> Group
    ensures { result ≡ keyed_group keyed.now common.now }
{
    match keyed.get(common) {
        None => Group::none(),
        Some(group) => *group,
    }
}

fn note_keyed<'a>(
    keyed: &mut IndexMap<&'a [Elem], Group>,
    common: &'a [Elem],
    branch: u32,
    access: Access,
) -> Result<(), NoMemory>
    ensures { OnOk result ((q : List Element) → keyed_group keyed.new q ≡ cond (elems_eq common.now q) (group_with (keyed_group keyed.old q) branch access) (keyed_group keyed.old q)) }
{
    let group = keyed_group(keyed, common).with(branch, access);
    let _ = keyed.insert(common, group)?;
    Ok(())
}

fn note<'a>(groups: &mut Groups<'a>, e: &'a Effect, branch: u32) -> Result<(), NoMemory>
    ensures { OnOk result (Noted groups.old groups.new branch e.now) }
{
    groups.all = groups.all.with(branch, e.access);
    match key_of(groups.key, e) {
        None => groups.unkeyed = groups.unkeyed.with(branch, e.access),
        Some(common) => note_keyed(&mut groups.keyed, common, branch, e.access)?,
    }
    Ok(())
}

fn note_all<'a>(groups: &mut Groups<'a>, effects: &'a [Effect], branch: u32) -> Result<(), NoMemory>
    ensures { OnOk result (Shows groups.old groups.new branch effects.now) }
{
    for e in effects {
        note(groups, e, branch)?;
    }
    Ok(())
}

/// The effects of all branches, by groups.
pub fn grouped<'a>(
    alloc: Global,
    branches: &'a [EffectSet],
    key: Key,
) -> Result<Groups<'a>, NoMemory>
    requires { length branches.now < 4294967296 }
    ensures { IfOk result (λ groups. ShowsAll groups branches.now) }
{
    let mut groups = Groups {
        key,
        keyed: IndexMap::new(alloc),
        unkeyed: Group::none(),
        all: Group::none(),
    };
    for i in 0..branches.len() {
        note_all(&mut groups, branches[i].as_slice(), i as u32)?;
    }
    Ok(groups)
}

/// Whether an effect of a branch can't interfere with an effect of another branch, by its group.
pub fn is_alone(groups: &Groups<'_>, e: &Effect, branch: u32) -> bool
    ensures { result ≡ alone groups.now branch e.now }
{
    match key_of(groups.key, e) {
        None => !groups.all.meets(branch, e.access),
        Some(common) => {
            !groups.unkeyed.meets(branch, e.access)
                && !keyed_group(&groups.keyed, common).meets(branch, e.access)
        }
    }
}
