use body_assembly::MemberBody;
use lang_base::Items;

/// What the checker made of a program that it accepts.
#[derive(Drop)]
pub struct Accepted {
    /// Whether the text holds a `cobegin_nd` or a `foreach_nd`.
    pub uses_nd: bool,
    /// The bodies of all methods and constructors, in the order of the text.
    pub bodies: Items<MemberBody>,
}
