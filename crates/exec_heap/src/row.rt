use lang_base::{Items, Plain, Region};
use std::hash::{Hash, Hasher};
use std::marker::Model;

/// A row of regions, which can be looked up. A contract sees their list.
#[derive(Drop)]
pub struct Row {
    pub regions: Items<Region>,
}

impl Model for Row {
    ghost use Rattle.std.specs.Prelude.{List};
    ghost use Rattle.lang_base.specs.declared.region.Region.{Region};

    ghost Value = { List Region };

    ghost view = { λ row. row.regions };
}

impl PartialEq for Row {
    ghost use Rattle.exec_heap.specs.Keys.{row_eq, row_eq_partial_equiv};

    ghost eq = { row_eq };

    ghost laws = { row_eq_partial_equiv };

    fn eq(&self, other: &Row) -> bool {
        self.regions.same(&other.regions)
    }
}

impl Eq for Row {
    ghost use Rattle.exec_heap.specs.Keys.{row_eq_equiv};

    ghost laws = { row_eq_equiv };
}

impl Hash for Row {
    ghost use Rattle.exec_heap.specs.Keys.{row_input, row_alike};

    ghost hash_input = { row_input };

    ghost respects_eq = { row_alike };

    fn hash<H: Hasher>(&self, state: &mut H) {
        state.write_usize(self.regions.len());
        for region in self.regions.as_slice() {
            region.elems.hash(state);
        }
    }
}
