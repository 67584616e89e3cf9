ghost use Rattle.std.specs.Prelude.{◌≡◌, ◌++◌, IfOk, OnOk};
ghost use Rattle.std.specs.List.{flat_map};
ghost use Rattle.decl_headers.specs.Gathered.{region_rows, member_regions, all_regions};

use crate::header::RegionRow;
use crate::numbers::number_at;
use lang_base::{Items, NoMemory};
use std::alloc::Global;
use syntax_tree::{Class, Member, Named};

/// The region names of all classes, in the order of the text.
#[tactic(auto, using(std::proofs::Common::append_assoc))]
pub fn all_regions(alloc: Global, classes: &[Class]) -> Result<Items<RegionRow>, NoMemory>
    ensures { IfOk result (λ rows. rows ≡ all_regions 0 classes.now) }
{
    let mut rows = Items::new(alloc);
    for (at, class) in classes.iter().enumerate() {
        add_regions(number_at(at), class.members.as_slice(), &mut rows)?;
    }
    Ok(rows)
}

#[tactic(auto, using(std::proofs::Common::append_assoc))]
fn add_regions(class: u32, members: &[Member], rows: &mut Items<RegionRow>) -> Result<(), NoMemory>
    ensures { OnOk result (rows.new ≡ rows.old ++ flat_map (member_regions class) members.now) }
{
    for member in members {
        if let Member::Regions { atomic, names } = member {
            add_names(class, *atomic, names.as_slice(), rows)?;
        }
    }
    Ok(())
}

#[tactic(auto, using(std::proofs::Common::append_assoc))]
fn add_names(
    owner: u32,
    is_atomic: bool,
    names: &[Named],
    rows: &mut Items<RegionRow>,
) -> Result<(), NoMemory>
    ensures { OnOk result (rows.new ≡ rows.old ++ region_rows owner is_atomic names.now) }
{
    for named in names {
        rows.push(RegionRow {
            owner,
            name: named.name,
            is_atomic,
        })?;
    }
    Ok(())
}
