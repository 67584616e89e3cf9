ghost use Rattle.std.specs.Prelude.{◌≡◌, ◌++◌, codes, IfOk, OnOk};
ghost use Rattle.std.specs.Prelude.{fold};
ghost use Rattle.decl_resolve.specs.Scoped.{with_name};
ghost use Rattle.decl_headers.specs.Gathered.{name_number};
ghost use Rattle.body_exprs.specs.Env.{atomic_of, index_slot, param_paths};

use crate::supers::Supers;
use crate::table_ref::TableRef;
use decl_headers::{ParamRow, number_at};
use decl_resolve::{Scope, Scoped, Site};
use decl_table::Table;
use lang_base::{Constraint, Elems, Head, Items, NoMemory, Plain, Rpl, Ty};
use std::alloc::Global;
use syntax_tree::{Expr, ExprKind, Program};

/// A formal, a local, a loop variable or a part of an array in scope.
#[derive(Drop)]
pub struct LocalRow {
    pub name: u32,
    /// Its slot, or the first of its slots. No other declaration of the member has it.
    pub slot: u32,
    pub ty: Ty,
    pub is_final: bool,
    /// It is a part of an array. The type is that of the array, or of what stands there that is none.
    pub is_part: bool,
}

/// The slots of a part of an array: the array, the first place, the length and the count of parts.
const PART_SLOTS: u32 = 4;

/// How much is in scope.
#[derive(Clone, Copy)]
pub struct Mark {
    pub locals: usize,
    pub regions: usize,
}

/// What is around an expression.
#[derive(Drop)]
pub struct Env<'a> {
    /// What everything that is made of an expression is allocated with.
    pub alloc: Global,
    table: TableRef<'a>,
    pub class: u32,
    /// The number of the method.
    pub method: u32,
    pub supers: Supers<'a>,
    /// The name `length`, where the text has it.
    length: Option<u32>,
    /// The region parameters of the method, with whether each is atomic.
    params: Scoped<bool>,
    rows: Items<LocalRow>,
    /// The same locals by name, with the slots of those that may stand in an index.
    variables: Scoped<Option<u32>>,
    /// How many slots the member has so far. Those of locals that went out of scope aren't given again.
    slots: u32,
    /// The local regions in scope, with the numbers of their declarations.
    regions: Scoped<u32>,
    /// How many local regions the member has declared so far.
    declared: u32,
    given: Items<Constraint>,
    /// How many of the constraints in force are those of the class.
    class_given: usize,
    /// Of each region parameter in scope, those of the class first, whether it is atomic.
    pub atomic_params: Items<bool>,
    /// How many of them are those of the class.
    class_params: usize,
}

/// The number of the name `length`, where the text has it.
pub fn length_name(program: &Program) -> Option<u32>
    ensures { result ≡ name_number program.now.names (codes "length") }
{
    let names = program.names.as_slice();
    for (at, name) in names.iter().enumerate() {
        if name.as_slice() == b"length".as_slice() {
            return Some(number_at(at));
        }
    }
    None
}

impl<'a> Env<'a> {
    ghost use Rattle.std.specs.Prelude.{◌≡◌, ◌↔◌, IsTrue, IfOk, OnOk};
    ghost use Rattle.std.specs.Option.{option_copied};
    ghost use Rattle.lang_base.specs.Types.{plain_type};
    ghost use Rattle.decl_resolve.specs.Scopes.{plain_scope};
    ghost use Rattle.syntax_tree.specs.Plain.{plain_expr};
    ghost use Rattle.body_exprs.specs.Env.{table_of, declared_in, slots_in, HasRoom, has_room, local_declared, part_declared, region_declared, mark_of, with_row_in, left_to, bare, at_class, at_method, is_param_name, local_of, index_variable_of, part_of, is_length_name, given_in, has_region, scope_of, this_type_of, IsFresh};

    /// What is around the members of class 0, before one is entered.
    pub fn new(alloc: Global, table: &'a Table, length: Option<u32>) -> Env<'a>
        ensures { IsFresh table.now length result }
    {
        Env {
            alloc,
            table: TableRef::of(table),
            class: 0,
            method: 0,
            supers: Supers::of(table.supers()),
            length,
            params: Scoped::new(alloc),
            rows: Items::new(alloc),
            variables: Scoped::new(alloc),
            slots: 1,
            regions: Scoped::new(alloc),
            declared: 0,
            given: Items::new(alloc),
            class_given: 0,
            atomic_params: Items::new(alloc),
            class_params: 0,
        }
    }

    /// The class table.
    pub fn table(&self) -> &'a Table
        ensures { result.now ≡ table_of self.now }
    {
        self.table.get()
    }

    /// Goes over to a class. Its constraints are in force.
    pub fn enter_class(&mut self, class: u32) -> Result<(), NoMemory>
        ensures { OnOk result (self.new ≡ at_class self.old class) }
    {
        self.clear();
        self.class = class;
        self.method = 0;
        self.given.truncate(0);
        self.atomic_params.truncate(0);
        let table = self.table.get();
        put_constraints(self.alloc, &mut self.given, table.given(class))?;
        self.class_given = self.given.len();
        if let Some(header) = table.headers().header(class) {
            put_atomic(&mut self.atomic_params, header.params.as_slice())?;
        }
        self.class_params = self.atomic_params.len();
        Ok(())
    }

    /// Goes over to a constructor or method of the class. Its region parameters are in scope and its constraints in
    /// force, and no local is in scope yet.
    pub fn enter_method(&mut self, method: u32) -> Result<(), NoMemory>
        ensures { OnOk result (self.new ≡ at_method self.old method) }
    {
        self.clear();
        self.method = method;
        self.given.truncate(self.class_given);
        self.atomic_params.truncate(self.class_params);
        let table = self.table.get();
        let Some(row) = table.numbered(method) else {
            return Ok(());
        };
        put_constraints(self.alloc, &mut self.given, row.given.as_slice())?;
        put_atomic(&mut self.atomic_params, row.regions.as_slice())?;
        put_params(&mut self.params, row.regions.as_slice())
    }

    fn clear(&mut self)
        ensures { self.new ≡ bare self.old }
    {
        self.params.leave(0);
        self.rows.truncate(0);
        self.variables.leave(0);
        self.slots = 1;
        self.regions.leave(0);
        self.declared = 0;
    }

    /// The slots of the member so far: that of `this`, and those of all that was declared, in scope still or not.
    pub fn slots(&self) -> u32
        ensures { result ≡ slots_in self.now }
    {
        self.slots
    }

    /// How many local regions the member has declared so far, in scope still or not.
    pub fn regions_declared(&self) -> u32
        ensures { result ≡ declared_in self.now }
    {
        self.declared
    }

    /// Whether one thing more can be declared, of any kind: slots and local regions have numbers of 32 bits. A text of
    /// a megabyte doesn't declare so many.
    pub fn has_room(&self) -> bool
        ensures result { result ≡ has_room self.now }
        ensures room { IsTrue result → HasRoom self.now }
    {
        self.slots < u32::MAX - PART_SLOTS && self.declared < u32::MAX
    }

    /// Puts a local in scope, in the next slot, where there is room for it. A final int may stand in an index.
    pub fn declare(&mut self, name: u32, ty: Ty, is_final: bool) -> Result<(), NoMemory>
        ensures whole { OnOk result (self.new ≡ local_declared self.old name ty is_final) }
        ensures home { OnOk result (bare self.new ≡ bare self.old) }
    {
        if !self.has_room() {
            return Ok(());
        }
        let slot = self.slots;
        self.put(LocalRow {
            name,
            slot,
            ty,
            is_final,
            is_part: false,
        })?;
        self.slots = slot + 1;
        Ok(())
    }

    /// Puts a part of an array of that type in scope, in the next four slots, where there is room for it.
    pub fn declare_part(&mut self, name: u32, ty: Ty) -> Result<(), NoMemory>
        ensures whole { OnOk result (self.new ≡ part_declared self.old name ty) }
        ensures home { OnOk result (bare self.new ≡ bare self.old) }
    {
        if !self.has_room() {
            return Ok(());
        }
        let slot = self.slots;
        self.put(LocalRow {
            name,
            slot,
            ty,
            is_final: true,
            is_part: true,
        })?;
        self.slots = slot + PART_SLOTS;
        Ok(())
    }

    /// Puts a row in scope, by its name too.
    fn put(&mut self, row: LocalRow) -> Result<(), NoMemory>
        ensures { OnOk result (self.new ≡ with_row_in self.old row) }
    {
        let index = index_slot(&row);
        let name = row.name;
        let count = self.rows.len();
        self.rows.push(row)?;
        let entered = self.variables.enter(name, index);
        if entered.is_err() {
            self.rows.truncate(count);
        }
        entered
    }

    /// Puts a local region in scope, with the next number of a declaration, where there is room for it.
    pub fn declare_region(&mut self, name: u32) -> Result<(), NoMemory>
        ensures whole { OnOk result (self.new ≡ region_declared self.old name) }
        ensures home { OnOk result (bare self.new ≡ bare self.old) }
    {
        if !self.has_room() {
            return Ok(());
        }
        let decl = self.declared;
        self.regions.enter(name, decl)?;
        self.declared = decl + 1;
        Ok(())
    }

    /// What is in scope now, to be left again.
    pub fn mark(&self) -> Mark
        ensures { result ≡ mark_of self.now }
    {
        Mark {
            locals: self.rows.len(),
            regions: self.regions.len(),
        }
    }

    /// Takes what came into scope after a mark out of it. Its slots and numbers aren't given again.
    pub fn leave(&mut self, mark: Mark)
        ensures { self.new ≡ left_to self.old mark }
    {
        self.rows.truncate(mark.locals);
        self.variables.leave(mark.locals);
        self.regions.leave(mark.regions);
    }

    /// The local of that name: the last, where there are two.
    pub fn local(&self, name: u32) -> Option<&LocalRow>
        ensures { option_copied result ≡ local_of self.now name }
    {
        self.rows.get(self.variables.place(name)?)
    }

    /// The slot of the index variable of that name.
    pub fn index_variable(&self, name: u32) -> Option<u32>
        ensures { result ≡ index_variable_of self.now name }
    {
        self.variables.get(name).copied().flatten()
    }

    /// Whether a local region in scope has the name.
    pub fn has_local_region(&self, name: u32) -> bool
        ensures { result ≡ has_region self.now name }
    {
        self.regions.place(name).is_some()
    }

    /// Whether a region parameter of the class or the method has the name.
    pub fn has_param(&self, name: u32) -> bool
        ensures { result ≡ is_param_name self.now name }
    {
        self.scope().param(name).is_some()
    }

    /// Whether the name is `length`.
    pub fn is_length(&self, name: u32) -> bool
        ensures { result ≡ is_length_name self.now name }
    {
        self.length == Some(name)
    }

    /// The constraints in force.
    pub fn given(&self) -> &[Constraint]
        ensures { result.now ≡ given_in self.now }
    {
        self.given.as_slice()
    }

    /// The part of an array that the expression names.
    pub fn part(&self, e: &Expr) -> Option<&LocalRow>
        ensures { option_copied result ≡ part_of self.now (plain_expr e.now) }
    {
        let ExprKind::Local(name) = &e.kind else {
            return None;
        };
        let row = self.local(*name)?;
        if row.is_part { Some(row) } else { None }
    }

    /// What is around a region path or a type.
    pub fn scope(&self) -> Scope<'_>
        ensures { plain_scope result ≡ scope_of self.now }
    {
        Scope {
            headers: self.table().headers(),
            class: self.class,
            params: &self.params,
            variables: &self.variables,
            regions: &self.regions,
            given: self.given.as_slice(),
            classes_given: self.table().classes_given(),
            site: Site::Body,
        }
    }

    /// The type of `this`.
    pub fn this_type(&self) -> Result<Ty, NoMemory>
        ensures { IfOk result (λ ty. plain_type ty ≡ this_type_of self.now) }
    {
        let args = param_paths(self.alloc, self.scope().class_params(self.class).len())?;
        Ok(Ty::Class {
            class: self.class,
            args,
        })
    }
}

/// The slot of a local that may stand in an index: it is final and an int.
fn index_slot(row: &LocalRow) -> Option<u32>
    ensures { result ≡ index_slot row.now }
{
    (row.is_final && matches!(row.ty, Ty::Int)).then_some(row.slot)
}

/// The first region parameters, each as a path.
fn param_paths(alloc: Global, count: usize) -> Result<Items<Rpl>, NoMemory>
    ensures { IfOk result (λ paths. paths ≡ param_paths count) }
{
    let mut paths = Items::new(alloc);
    for number in 0..count {
        paths.push(Rpl {
            head: Head::Param(number_at(number)),
            elems: Elems::new(alloc),
        })?;
    }
    Ok(paths)
}

fn put_constraints(
    alloc: Global,
    given: &mut Items<Constraint>,
    more: &[Constraint],
) -> Result<(), NoMemory>
    ensures { OnOk result (given.new ≡ given.old ++ more.now) }
{
    for constraint in more {
        given.push(constraint.copy(alloc)?)?;
    }
    Ok(())
}

fn put_atomic(atomic: &mut Items<bool>, params: &[ParamRow]) -> Result<(), NoMemory>
    ensures { OnOk result (atomic.new ≡ atomic.old ++ atomic_of params.now) }
{
    for param in params {
        atomic.push(param.atomic)?;
    }
    Ok(())
}

fn put_params(params: &mut Scoped<bool>, rows: &[ParamRow]) -> Result<(), NoMemory>
    ensures { OnOk result (params.new ≡ fold (λ names row. with_name names row.name row.atomic) params.old rows.now) }
{
    for row in rows {
        params.enter(row.name, row.atomic)?;
    }
    Ok(())
}
