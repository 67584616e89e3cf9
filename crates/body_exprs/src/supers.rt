use lang_base::{NoMemory, Super, Ty};
use region_types::{is_ordered, subtype};
use std::alloc::Global;
use std::marker::Model;

/// The superclasses of all classes, in the order of class numbers. A contract sees them as a list.
#[derive(Drop)]
pub struct Supers<'a> {
    rows: &'a [Super],
}

impl<'a> Model for Supers<'a> {
    ghost use Rattle.std.specs.Prelude.{List};
    ghost use Rattle.std.specs.Coded.{codes};
    ghost use Rattle.lang_base.specs.contracts.ty.Super as super_row;
    ghost use Rattle.lang_base.specs.declared.ty.Super.{Super};
    ghost use Rattle.lang_base.specs.Types.{Ordered};

    ghost Value = { List Super };

    ghost coded = { Prim.hlevel (codes, super_row.the_row.coded) };

    ghost view = { λ supers. supers.rows.now };

    ghost invariant = { λ supers. Ordered supers.rows.now };
}

impl Supers<'_> {
    ghost use Rattle.std.specs.Prelude.{◌↔◌, IsTrue, IfOk};
    ghost use Rattle.lang_base.specs.Types.{plain_type, Subtype};
    ghost use Rattle.body_exprs.specs.Typed.{AreTaken};

    /// The rows, which stand in that order in every class table. Of others none is taken.
    pub fn of<'a>(rows: &'a [Super]) -> Supers<'a>
        ensures { AreTaken rows.now result }
    {
        if is_ordered(rows) {
            Supers { rows }
        } else {
            Supers { rows: &[] }
        }
    }

    /// Whether a value of the one type may stand where the other is declared.
    pub fn fit(&self, alloc: Global, value: &Ty, declared: &Ty) -> Result<bool, NoMemory>
        ensures { IfOk result (λ fit. IsTrue fit ↔ Subtype self.now (plain_type value.now) (plain_type declared.now)) }
    {
        subtype(alloc, value, declared, self.rows)
    }
}
