//! What the definition of a listing says of itself.
ghost use Rattle.code_listing.specs.Laws.{ListsPlainCode};

/// The listing of code is determined by its plain form and the titles of its bodies.
pub fn law_plain()
    ensures { ListsPlainCode }
{}
