use lang_base::Items;
use lang_typed::Stmt;

/// The body of a method or a constructor.
#[derive(Drop)]
pub struct MemberBody {
    /// How many slots its frames have, and how many local regions it declares.
    pub slots: u32,
    pub local_regions: u32,
    pub stmts: Items<Stmt>,
}
