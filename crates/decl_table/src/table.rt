ghost use Rattle.std.specs.Prelude.{◌≡◌, map, slice_get, IfOk};
ghost use Rattle.std.specs.Option.{option_copied};
ghost use Rattle.lang_base.specs.Regions.{substituted};
ghost use Rattle.lang_base.specs.Types.{plain_type};
ghost use Rattle.decl_headers.specs.Headers.{class_count, parent_of};
ghost use Rattle.decl_table.specs.Finding.{Finds};
ghost use Rattle.decl_table.specs.Places.{entry_at, constructor_number, super_place};
ghost use Rattle.decl_table.specs.Table.{headers_of, fields_of, own_field, own_method, field_of, method_of, methods_of, numbered, constructor_of, overridden_by, row_of, is_forking, given_of, all_given, supers_of, parent_type_of, parent_args_of, class_number, class_paths, args_at};

use crate::places::{Places, entry_at};
use crate::rows::{FieldRow, MethodRow, Signatures};
use decl_headers::Headers;
use lang_base::{Constraint, Items, NoMemory, Plain, Rpl, Super, Ty};
use region_paths::subst;
use std::alloc::Global;
use std::marker::Model;

/// The classes of a program with their members. Classes and methods are known by their positions in the text. A
/// contract sees the rows, and not the maps by which they are found.
#[derive(Drop)]
pub struct Table {
    headers: Headers,
    /// The constraints of each class.
    given: Items<Items<Constraint>>,
    /// One row for each class with a superclass, in the order of classes.
    supers: Items<Super>,
    fields: Items<FieldRow>,
    methods: Items<MethodRow>,
    /// What each method overrides.
    overrides: Items<Option<u32>>,
    /// Of each method, its row among the methods of its class.
    rows: Items<u32>,
    forks: Items<bool>,
    places: Places,
}

impl Model for Table {
    ghost use Rattle.decl_table.specs.Table.{PlainTable};

    ghost Value = { PlainTable };

    ghost use Rattle.lang_base.specs.contracts.ty.Ty as ty;
    ghost use Rattle.std.specs.Coded.{codes};

    ghost coded = { Prim.hlevel (codes, ty.the_row.coded) };

    ghost use Rattle.decl_table.specs.Finding.{Finds};

    ghost view = { λ t. record { headers = t.headers; given = t.given; supers = t.supers; fields = t.fields; methods = t.methods; overrides = t.overrides; rows = t.rows; forks = t.forks } };

    ghost invariant = { λ t. Finds t.supers t.fields t.methods t.places };
}

impl Table {
    /// The table of these rows, of which the places are those.
    pub fn of_rows(
        headers: Headers,
        given: Items<Items<Constraint>>,
        made: Signatures,
        overrides: Items<Option<u32>>,
        rows: Items<u32>,
        forks: Items<bool>,
        places: Places,
    ) -> Table
        requires { Finds made.supers made.fields made.methods places }
        ensures { result ≡ record { headers = headers; given = given; supers = made.supers; fields = made.fields; methods = made.methods; overrides = overrides; rows = rows; forks = forks } }
    {
        let Signatures {
            supers,
            fields,
            methods,
        } = made;
        Table {
            headers,
            given,
            supers,
            fields,
            methods,
            overrides,
            rows,
            forks,
            places,
        }
    }

    /// The same table, where each method forks or not as is said.
    pub fn with_forks(self, forks: Items<bool>) -> Table
        ensures { result ≡ record self { forks = forks } }
    {
        Table { forks, ..self }
    }

    pub fn headers(&self) -> &Headers
        ensures { result.now ≡ headers_of self.now }
    {
        &self.headers
    }

    /// The field of that name, where the class or a superclass declares it.
    pub fn field(&self, class: u32, name: u32) -> Option<&FieldRow>
        ensures { option_copied result ≡ field_of self.now class name }
    {
        let mut at = class;
        for _step in 0..self.class_count() {
            if let Some(place) = self.own_field(at, name) {
                return self.field_at(place);
            }
            at = self.parent(at)?;
        }
        None
    }

    fn class_count(&self) -> usize
        ensures { result ≡ class_count (headers_of self.now) }
    {
        self.headers.len()
    }

    fn parent(&self, class: u32) -> Option<u32>
        ensures { result ≡ parent_of (headers_of self.now) class }
    {
        self.headers.parent(class)
    }

    /// The place of the field which the class itself declares.
    fn own_field(&self, class: u32, name: u32) -> Option<u32>
        ensures { result ≡ own_field self.now class name }
    {
        self.places.fields.get(class, name)
    }

    fn field_at(&self, place: u32) -> Option<&FieldRow>
        ensures { option_copied result ≡ slice_get (fields_of self.now) place }
    {
        self.fields.get(place as usize)
    }

    /// All fields, those of a class in the order of the text.
    pub fn fields(&self) -> &[FieldRow]
        ensures { result.now ≡ fields_of self.now }
    {
        self.fields.as_slice()
    }

    /// The method of that name: that of the class, or else of the nearest superclass that declares one.
    pub fn method(&self, class: u32, name: u32) -> Option<&MethodRow>
        ensures { option_copied result ≡ method_of self.now class name }
    {
        let mut at = class;
        for _step in 0..self.class_count() {
            if let Some(id) = self.own_method(at, name) {
                return self.numbered(id);
            }
            at = self.parent(at)?;
        }
        None
    }

    /// The number of the method which the class itself declares.
    fn own_method(&self, class: u32, name: u32) -> Option<u32>
        ensures { result ≡ own_method self.now class name }
    {
        self.places.methods.get(class, name)
    }

    /// The constructor that the class itself declares.
    pub fn constructor(&self, class: u32) -> Option<&MethodRow>
        ensures { option_copied result ≡ constructor_of self.now class }
    {
        self.numbered(self.own_constructor(class)?)
    }

    fn own_constructor(&self, class: u32) -> Option<u32>
        ensures { result ≡ constructor_number (methods_of self.now) class }
    {
        entry_at(self.places.constructors.as_slice(), class)
    }

    /// The method or constructor of that number.
    pub fn numbered(&self, method: u32) -> Option<&MethodRow>
        ensures { option_copied result ≡ numbered self.now method }
    {
        self.methods.get(method as usize)
    }

    /// All methods and constructors, by their numbers.
    pub fn methods(&self) -> &[MethodRow]
        ensures { result.now ≡ methods_of self.now }
    {
        self.methods.as_slice()
    }

    /// The method that a method overrides.
    pub fn overrides(&self, method: u32) -> Option<u32>
        ensures { result ≡ overridden_by self.now method }
    {
        self.overrides.get(method as usize).copied().flatten()
    }

    /// The row of a method among the methods of its class: rows of superclasses come first, and a method that
    /// overrides one has its row.
    pub fn row(&self, method: u32) -> u32
        ensures { result ≡ row_of self.now method }
    {
        self.rows
            .as_slice()
            .get(method as usize)
            .copied()
            .unwrap_or(0)
    }

    /// Whether a `cobegin_nd` or a `foreach_nd` is reached through the method, by any chain of calls and of
    /// creations that run a constructor, where a call may reach each method that overrides the one that it names.
    pub fn forks(&self, method: u32) -> bool
        ensures { result ≡ is_forking self.now method }
    {
        self.forks
            .as_slice()
            .get(method as usize)
            .copied()
            .unwrap_or(false)
    }

    /// The constraints of a class.
    pub fn given(&self, class: u32) -> &[Constraint]
        ensures { result.now ≡ given_of self.now class }
    {
        match self.given.get(class as usize) {
            Some(given) => given.as_slice(),
            None => &[],
        }
    }

    /// The constraints of all classes, by their numbers.
    pub fn classes_given(&self) -> &[Items<Constraint>]
        ensures { result.now ≡ all_given self.now }
    {
        self.given.as_slice()
    }

    /// The superclasses with their region arguments, in the order of the classes that extend them.
    pub fn supers(&self) -> &[Super]
        ensures { result.now ≡ supers_of self.now }
    {
        self.supers.as_slice()
    }

    /// The region arguments that a class gives its superclass.
    pub fn parent_args(&self, class: u32) -> &[Rpl]
        ensures { result.now ≡ parent_args_of self.now class }
    {
        match self.parent_type(class) {
            Some(parent) => class_paths(parent),
            None => &[],
        }
    }

    /// The superclass of a class with its region arguments.
    pub fn parent_type(&self, class: u32) -> Option<&Ty>
        ensures { option_copied result ≡ parent_type_of self.now class }
    {
        Some(&self.super_at(self.own_super(class)?)?.parent)
    }

    fn super_at(&self, place: u32) -> Option<&Super>
        ensures { option_copied result ≡ slice_get (supers_of self.now) place }
    {
        self.supers.get(place as usize)
    }

    fn own_super(&self, class: u32) -> Option<u32>
        ensures { result ≡ super_place (supers_of self.now) class }
    {
        entry_at(self.places.supers.as_slice(), class)
    }

    /// The region arguments of `owner` as a supertype of the class with these arguments. None where it is none.
    pub fn args_at(
        &self,
        alloc: Global,
        class: u32,
        args: &[Rpl],
        owner: u32,
    ) -> Result<Option<Items<Rpl>>, NoMemory>
        ensures { IfOk result (λ found. found ≡ args_at self.now class args.now owner) }
    {
        let mut at = class;
        let mut current = copy_paths(alloc, args)?;
        for _step in 0..=self.class_count() {
            if at == owner {
                return Ok(Some(current));
            }
            let Some(parent) = self.parent_type(at) else {
                return Ok(None);
            };
            let Some(above) = class_number(parent) else {
                return Ok(None);
            };
            at = above;
            current = put_in_all(alloc, class_paths(parent), current.as_slice())?;
        }
        Ok(None)
    }
}

/// The class of a class type.
fn class_number(ty: &Ty) -> Option<u32>
    ensures { result ≡ class_number (plain_type ty.now) }
{
    match ty {
        Ty::Class { class, .. } => Some(*class),
        _ => None,
    }
}

/// The region arguments of a class type.
fn class_paths(ty: &Ty) -> &[Rpl]
    ensures { result.now ≡ class_paths (plain_type ty.now) }
{
    match ty {
        Ty::Class { args, .. } => args.as_slice(),
        _ => &[],
    }
}

fn copy_paths(alloc: Global, paths: &[Rpl]) -> Result<Items<Rpl>, NoMemory>
    ensures { IfOk result (λ copies. copies ≡ paths.now) }
{
    let mut copies = Items::new(alloc);
    for path in paths {
        copies.push(path.copy(alloc)?)?;
    }
    Ok(copies)
}

/// Paths with their arguments put in.
fn put_in_all(alloc: Global, paths: &[Rpl], args: &[Rpl]) -> Result<Items<Rpl>, NoMemory>
    ensures { IfOk result (λ made. made ≡ map (substituted args.now) paths.now) }
{
    let mut made = Items::new(alloc);
    for path in paths {
        made.push(subst(alloc, path, args)?)?;
    }
    Ok(made)
}
