ghost use Rattle.std.specs.Prelude.{◌≡◌, drop};
ghost use Rattle.std.specs.List.{position_from};
ghost use Rattle.decl_resolve.specs.Index.{is_named};

use decl_headers::number_at;
use lang_base::Index;
use syntax_tree::{Named, Suffix};

/// The index names that are in scope at a place of an array type or an array creation.
#[derive(Clone, Copy)]
pub struct IndexNames<'a> {
    /// All suffixes of the type or the creation.
    pub suffixes: &'a [Suffix],
    /// How many of them stand inside the place: their index names aren't in scope.
    pub inside: usize,
    /// The index name of the array that a creation makes, which is around all its suffixes.
    pub made: Option<Named>,
}

impl<'a> IndexNames<'a> {
    ghost use Rattle.std.specs.Prelude.{◌≡◌};
    ghost use Rattle.std.specs.List.{position_from};
    ghost use Rattle.decl_resolve.specs.Index.{index_name, is_named, names_around, no_index, plain_index};
    ghost use Rattle.decl_resolve.specs.Written.{at_suffix};

    /// No index names around a place.
    pub fn none() -> IndexNames<'a>
        ensures { plain_index result ≡ no_index }
    {
        IndexNames {
            suffixes: &[],
            inside: 0,
            made: None,
        }
    }

    /// The index that a name means: that of the innermost array type with this index name.
    pub fn find(&self, name: u32) -> Option<Index>
        ensures { result ≡ index_name (plain_index self.now) name }
    {
        Some(Index::Own(number_at(self.depth(name)?)))
    }

    /// How many array types are inside that one, from the place on.
    #[tactic(auto, using(crate::proofs::Around::depth_found))]
    fn depth(&self, name: u32) -> Option<usize>
        ensures { result ≡ position_from (is_named name) 0 (names_around (plain_index self.now)) }
    {
        if let Some(depth) = suffix_named(self.suffixes, self.inside, name) {
            return Some(depth);
        }
        if is_named(name, self.made) {
            return Some(self.suffixes.len().saturating_sub(self.inside));
        }
        None
    }

    /// The same at the suffix at a position.
    pub fn at_suffix(&self, position: usize) -> IndexNames<'a>
        ensures { plain_index result ≡ at_suffix (plain_index self.now) position }
    {
        IndexNames {
            inside: position,
            ..*self
        }
    }
}

/// How many suffixes stand between a place, inside which some stand, and the next one that has this index name.
fn suffix_named(suffixes: &[Suffix], inside: usize, name: u32) -> Option<usize>
    ensures { result ≡ position_from (λ suffix. is_named name suffix.index) 0 (drop inside suffixes.now) }
{
    suffixes
        .iter()
        .skip(inside)
        .position(|suffix| is_named(name, suffix.index))
}

fn is_named(name: u32, index: Option<Named>) -> bool
    ensures { result ≡ is_named name index }
{
    match index {
        Some(named) => named.name == name,
        None => false,
    }
}
