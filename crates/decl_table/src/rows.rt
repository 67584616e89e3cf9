use decl_headers::ParamRow;
use lang_base::{Constraint, Items, Place, Rpl, Super, Ty};
use region_effects::EffectSet;

/// A field, as the class that declares it says it.
#[derive(Drop)]
pub struct FieldRow {
    pub name: u32,
    /// Its position among the fields of an object, those of superclasses first.
    pub slot: u32,
    /// The class that declares it.
    pub owner: u32,
    pub ty: Ty,
    pub rpl: Rpl,
}

/// A method or a constructor, as the class that declares it says it.
#[derive(Drop)]
pub struct MethodRow {
    /// Its position among all methods and constructors of the text.
    pub id: u32,
    /// The class that declares it.
    pub owner: u32,
    pub name: u32,
    /// Where the name stands.
    pub place: Place,
    pub is_constructor: bool,
    /// Its own region parameters, which are numbered after those of the class.
    pub regions: Items<ParamRow>,
    /// The constraints over them.
    pub given: Items<Constraint>,
    /// The types of the formals.
    pub params: Items<Ty>,
    /// `Void` for a constructor.
    pub result: Ty,
    pub summary: EffectSet,
}

/// What the signatures of all classes say.
#[derive(Drop)]
pub struct Signatures {
    pub supers: Items<Super>,
    pub fields: Items<FieldRow>,
    pub methods: Items<MethodRow>,
}
