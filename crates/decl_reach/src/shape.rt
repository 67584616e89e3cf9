ghost use Rattle.std.specs.Prelude.{◌≡◌};
ghost use Rattle.lang_base.specs.Types.{plain_type};
ghost use Rattle.decl_reach.specs.Shapes.{object_shape, written_shape, tree_shape, type_shape, in_array, element_of, object_of};

use decl_headers::Headers;
use lang_base::Ty;
use syntax_tree::{BaseTree, TypeTree};

/// What is known of a value without its regions: the class that it begins with, and how many arrays are around.
#[derive(Clone, Copy, Debug, PartialEq, Eq)]
pub struct Shape {
    pub class: Option<u32>,
    pub arrays: usize,
}

/// An int, a boolean, or what nothing is known of.
pub const NO_CLASS: Shape = Shape {
    class: None,
    arrays: 0,
};

impl Shape {
    pub fn of_class(class: u32) -> Shape
        ensures { result ≡ object_shape class }
    {
        Shape {
            class: Some(class),
            arrays: 0,
        }
    }

    /// The shape of a written type: its base, and how many arrays are around.
    pub fn written(headers: &Headers, base: &BaseTree, arrays: usize) -> Shape
        ensures { result ≡ written_shape headers.now base.now arrays }
    {
        let class = match base {
            BaseTree::Int | BaseTree::Bool => None,
            BaseTree::Class { name, .. } => headers.class(name.name),
        };
        Shape { class, arrays }
    }

    pub fn of_tree(headers: &Headers, tree: &TypeTree) -> Shape
        ensures { result ≡ tree_shape headers.now tree.now }
    {
        Shape::written(headers, &tree.base, tree.suffixes.len())
    }

    pub fn of_type(ty: &Ty) -> Shape
        ensures { result ≡ type_shape (plain_type ty.now) }
    {
        match ty {
            Ty::Class { class, .. } => Shape::of_class(*class),
            Ty::Array { elem, .. } => Shape::of_type(elem.get()).array(),
            _ => NO_CLASS,
        }
    }

    fn array(self) -> Shape
        ensures { result ≡ in_array self }
    {
        Shape {
            class: self.class,
            arrays: self.arrays.saturating_add(1),
        }
    }

    /// The shape of an element of an array.
    pub fn element(self) -> Shape
        ensures { result ≡ element_of self }
    {
        match self.arrays {
            0 => NO_CLASS,
            arrays => Shape {
                class: self.class,
                arrays: arrays - 1,
            },
        }
    }

    /// The class of an object.
    pub fn object(self) -> Option<u32>
        ensures { result ≡ object_of self }
    {
        match self.arrays {
            0 => self.class,
            _ => None,
        }
    }
}
