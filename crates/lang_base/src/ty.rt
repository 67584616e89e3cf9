ghost use Rattle.std.specs.Prelude.{◌≡◌, ◌↔◌, IsTrue, IfOk};

use crate::boxed::Boxed;
use crate::items::Items;
use crate::memory::NoMemory;
use crate::plain::Plain;
use crate::region::Rpl;
use std::alloc::Global;

/// A type of the language.
#[derive(Debug)]
pub enum Ty {
    Int,
    Bool,
    /// What a method without a result gives.
    Void,
    /// The type of `null`.
    Null,
    Class {
        class: u32,
        args: Items<Rpl>,
    },
    /// An array whose element `k` lies in `rpl` with `k` in the place of the array's own index. In the element
    /// type too this index is `Own(0)`, and those of array types around it are counted on from there.
    Array {
        elem: Boxed<Ty>,
        rpl: Rpl,
        /// Whether an index name is written. Types that differ in this alone are the same.
        named: bool,
    },
}

// By hand, so that letting one go is one call to what is proved of a caller.
impl Drop for Ty {
    fn drop(self) {
        match self {
            Ty::Int | Ty::Bool | Ty::Void | Ty::Null => {}
            Ty::Class { class: _, args: _ } => {}
            Ty::Array {
                elem: _,
                rpl: _,
                named: _,
            } => {}
        }
    }
}

/// The superclass of a class, with the region arguments that the class gives it.
#[derive(Debug, Drop)]
pub struct Super {
    pub class: u32,
    pub parent: Ty,
}

impl Plain for Ty {
    fn copy(&self, alloc: Global) -> Result<Ty, NoMemory> {
        match self {
            Ty::Int => Ok(Ty::Int),
            Ty::Bool => Ok(Ty::Bool),
            Ty::Void => Ok(Ty::Void),
            Ty::Null => Ok(Ty::Null),
            Ty::Class { class, args } => Ok(Ty::Class {
                class: *class,
                args: args.copy(alloc)?,
            }),
            Ty::Array { elem, rpl, named } => Ok(Ty::Array {
                elem: Boxed::new(alloc, elem.get().copy(alloc)?)?,
                rpl: rpl.copy(alloc)?,
                named: *named,
            }),
        }
    }

    fn same(&self, other: &Ty) -> bool {
        match (self, other) {
            (Ty::Int, Ty::Int)
            | (Ty::Bool, Ty::Bool)
            | (Ty::Void, Ty::Void)
            | (Ty::Null, Ty::Null) => true,
            (
                Ty::Class { class, args },
                Ty::Class {
                    class: other_class,
                    args: other_args,
                },
            ) => *class == *other_class && args.same(other_args),
            (
                Ty::Array { elem, rpl, named },
                Ty::Array {
                    elem: other_elem,
                    rpl: other_rpl,
                    named: other_named,
                },
            ) => elem.get().same(other_elem.get()) && rpl.same(other_rpl) && *named == *other_named,
            _ => false,
        }
    }
}

impl Plain for Super {
    fn copy(&self, alloc: Global) -> Result<Super, NoMemory> {
        Ok(Super {
            class: self.class,
            parent: self.parent.copy(alloc)?,
        })
    }

    fn same(&self, other: &Super) -> bool {
        self.class == other.class && self.parent.same(&other.parent)
    }
}
