ghost use Rattle.std.specs.Prelude.{◌≡◌, ◌++◌, [], map, length, IfOk, OnOk};
ghost use Rattle.std.specs.List.{flat_map};
ghost use Rattle.lang_base.specs.Types.{plain_type};
ghost use Rattle.decl_headers.specs.Faults.{all_noted};
ghost use Rattle.decl_headers.specs.Numbers.{as_number};
ghost use Rattle.decl_headers.specs.Passes.{is_constructor_result};
ghost use Rattle.decl_resolve.specs.Classes.{constraints_in};
ghost use Rattle.decl_classes.specs.Around.{with_names, class_scope};
ghost use Rattle.decl_table.specs.Plain.{plain_super, plain_field, plain_method};
ghost use Rattle.decl_classes.specs.Rows.{field_row, field_faults, said_faults, method_row, method_faults, own_fields, next_slot, own_methods, member_faults, fields_from, methods_from, first_slot, super_rows, super_faults, class_faults, supers_meant, fields_meant, methods_meant, signature_faults, all_constraints, all_constraint_faults};
ghost use Rattle.decl_classes.specs.Signatures.{constraints_meant, constraints_faults, formal_types, result_type, summary_meant, parent_meant, parent_faults};
ghost use Rattle.decl_classes.specs.Supers.{classes_in, extending, all_extending};

use crate::around::{Names, read_constraints};
use crate::summary::read_summary;
use crate::written::{read_field, read_formals, read_parent, read_result};
use decl_headers::{Faults, Headers, ParamRow, number_at, param_rows};
use decl_table::{FieldRow, MethodRow, Signatures};
use lang_base::{Constraint, Items, NoMemory, Plain, Super, Ty};
use region_effects::EffectSet;
use std::alloc::Global;
use syntax_tree::{Class, Field, Member, Method, MethodResult, Parent};

/// Reads the constraints of each class.
#[tactic(auto, using(decl_headers::proofs::Noting::noting))]
pub fn class_constraints(
    alloc: Global,
    headers: &Headers,
    classes: &[Class],
    faults: &mut Faults,
) -> Result<Items<Items<Constraint>>, NoMemory>
    ensures meant { IfOk result (λ given. given ≡ all_constraints headers.now 0 classes.now) }
    ensures noted { OnOk result (faults.new ≡ all_noted faults.old (all_constraint_faults headers.now 0 classes.now)) }
{
    let mut given = Items::new(alloc);
    for (at, class) in classes.iter().enumerate() {
        given.push(own_constraints(alloc, headers, number_at(at), class, faults)?)?;
    }
    Ok(given)
}

/// Reads the constraints of a class. None are in force there.
fn own_constraints(
    alloc: Global,
    headers: &Headers,
    number: u32,
    class: &Class,
    faults: &mut Faults,
) -> Result<Items<Constraint>, NoMemory>
    ensures meant { IfOk result (λ given. given ≡ constraints_meant (class_scope headers.now [] number) class.now.params.given) }
    ensures noted { OnOk result (faults.new ≡ all_noted faults.old (constraints_faults (class_scope headers.now [] number) class.now.params.given)) }
{
    let names = Names::new(alloc);
    let scope = names.scope(headers, number, &[], &[]);
    read_constraints(alloc, &scope, faults, class.params.given.as_slice())
}

/// Reads the signatures of all classes, whose constraints are known.
#[tactic(auto, using(decl_headers::proofs::Noting::noting))]
pub fn read_signatures(
    alloc: Global,
    headers: &Headers,
    classes: &[Class],
    given: &[Items<Constraint>],
    faults: &mut Faults,
) -> Result<Signatures, NoMemory>
    ensures extending { IfOk result (λ made. classes_in made.supers ≡ all_extending headers.now 0 classes.now) }
    ensures supers { IfOk result (λ made. map plain_super made.supers ≡ supers_meant headers.now given.now 0 classes.now) }
    ensures fields { IfOk result (λ made. map plain_field made.fields ≡ fields_meant headers.now given.now 0 classes.now) }
    ensures methods { IfOk result (λ made. map plain_method made.methods ≡ methods_meant headers.now given.now 0 0 classes.now) }
    ensures noted { OnOk result (faults.new ≡ all_noted faults.old (signature_faults headers.now given.now 0 classes.now)) }
{
    let mut made = Signatures {
        supers: Items::new(alloc),
        fields: Items::new(alloc),
        methods: Items::new(alloc),
    };
    for (at, class) in classes.iter().enumerate() {
        let around = Around {
            headers,
            class: number_at(at),
            classes_given: given,
        };
        around.class(alloc, class, faults, &mut made)?;
    }
    Ok(made)
}

/// The class whose signatures are read.
#[derive(Clone, Copy)]
struct Around<'a> {
    headers: &'a Headers,
    class: u32,
    classes_given: &'a [Items<Constraint>],
}

impl Around<'_> {
    ghost use Rattle.decl_classes.specs.Reading.{scope_around, scope_with};

    #[tactic(auto, using(decl_headers::proofs::Noting::noting))]
    fn class(
        &self,
        alloc: Global,
        class: &Class,
        faults: &mut Faults,
        made: &mut Signatures,
    ) -> Result<(), NoMemory>
        ensures extending { OnOk result (classes_in made.new.supers ≡ classes_in made.old.supers ++ extending self.now.headers.now self.now.class class.now) }
        ensures supers { OnOk result (map plain_super made.new.supers ≡ map plain_super made.old.supers ++ super_rows (scope_around self.now) class.now) }
        ensures fields { OnOk result (map plain_field made.new.fields ≡ map plain_field made.old.fields ++ fields_from (scope_around self.now) (first_slot self.now.headers.now self.now.class) class.now.members) }
        ensures methods { OnOk result (map plain_method made.new.methods ≡ map plain_method made.old.methods ++ methods_from (scope_around self.now) (length made.old.methods) class.now.members) }
        ensures noted { OnOk result (faults.new ≡ all_noted faults.old (class_faults (scope_around self.now) class.now)) }
    {
        self.parent(alloc, class, faults, made)?;
        self.members(alloc, class.members.as_slice(), faults, made)
    }

    /// Reads the members of the class.
    #[tactic(auto, using(decl_headers::proofs::Noting::noting))]
    fn members(
        &self,
        alloc: Global,
        members: &[Member],
        faults: &mut Faults,
        made: &mut Signatures,
    ) -> Result<(), NoMemory>
        ensures supers { OnOk result (made.new.supers ≡ made.old.supers) }
        ensures fields { OnOk result (map plain_field made.new.fields ≡ map plain_field made.old.fields ++ fields_from (scope_around self.now) (first_slot self.now.headers.now self.now.class) members.now) }
        ensures methods { OnOk result (map plain_method made.new.methods ≡ map plain_method made.old.methods ++ methods_from (scope_around self.now) (length made.old.methods) members.now) }
        ensures noted { OnOk result (faults.new ≡ all_noted faults.old (flat_map (member_faults (scope_around self.now)) members.now)) }
    {
        let mut in_force = Items::new(alloc);
        add_copies(alloc, &mut in_force, self.given())?;
        let mut slot = self.first_slot();
        for member in members {
            slot = self.member(alloc, &mut in_force, member, slot, faults, made)?;
        }
        Ok(())
    }

    /// The constraints of the class.
    fn given(&self) -> &[Constraint]
        ensures { result.now ≡ constraints_in self.now.classes_given.now self.now.class }
    {
        match self.classes_given.get(self.class as usize) {
            Some(given) => given.as_slice(),
            None => &[],
        }
    }

    /// Reads a member, where the next field has this slot. The slot of the next field after it.
    fn member(
        &self,
        alloc: Global,
        in_force: &mut Items<Constraint>,
        member: &Member,
        slot: u32,
        faults: &mut Faults,
        made: &mut Signatures,
    ) -> Result<u32, NoMemory>
        ensures in_force { OnOk result (in_force.new ≡ in_force.old) }
        ensures slot { IfOk result (λ next. next ≡ next_slot slot member.now) }
        ensures supers { OnOk result (made.new.supers ≡ made.old.supers) }
        ensures fields { OnOk result (map plain_field made.new.fields ≡ map plain_field made.old.fields ++ own_fields (scope_with self.now in_force.old) slot member.now) }
        ensures methods { OnOk result (map plain_method made.new.methods ≡ map plain_method made.old.methods ++ own_methods (scope_with self.now in_force.old) (as_number (length made.old.methods)) member.now) }
        ensures noted { OnOk result (faults.new ≡ all_noted faults.old (member_faults (scope_with self.now in_force.old) member.now)) }
    {
        match member {
            Member::Regions { .. } => Ok(slot),
            Member::Field(field) => {
                let row = self.field(alloc, in_force.as_slice(), field, slot, faults)?;
                made.fields.push(row)?;
                Ok(slot.saturating_add(1))
            }
            Member::Method(method) => {
                let id = number_at(made.methods.len());
                let row = self.method(alloc, in_force, method, id, faults)?;
                made.methods.push(row)?;
                Ok(slot)
            }
        }
    }

    fn field(
        &self,
        alloc: Global,
        given: &[Constraint],
        field: &Field,
        slot: u32,
        faults: &mut Faults,
    ) -> Result<FieldRow, NoMemory>
        ensures meant { IfOk result (λ row. plain_field row ≡ field_row (scope_with self.now given.now) slot field.now) }
        ensures noted { OnOk result (faults.new ≡ all_noted faults.old (field_faults (scope_with self.now given.now) field.now)) }
    {
        let names = Names::new(alloc);
        let scope = names.scope(self.headers, self.class, given, self.classes_given);
        read_field(alloc, &scope, faults, field, slot)
    }

    /// The slot of the first field that the class itself declares.
    fn first_slot(&self) -> u32
        ensures { result ≡ first_slot self.now.headers.now self.now.class }
    {
        match self.headers.parent(self.class) {
            Some(parent) => self
                .headers
                .header(parent)
                .map_or(0, |header| header.fields),
            None => 0,
        }
    }

    /// Reads the superclass of a class that has one.
    fn parent(
        &self,
        alloc: Global,
        class: &Class,
        faults: &mut Faults,
        made: &mut Signatures,
    ) -> Result<(), NoMemory>
        ensures extending { OnOk result (classes_in made.new.supers ≡ classes_in made.old.supers ++ extending self.now.headers.now self.now.class class.now) }
        ensures supers { OnOk result (map plain_super made.new.supers ≡ map plain_super made.old.supers ++ super_rows (scope_around self.now) class.now) }
        ensures fields { OnOk result (made.new.fields ≡ made.old.fields) }
        ensures methods { OnOk result (made.new.methods ≡ made.old.methods) }
        ensures noted { OnOk result (faults.new ≡ all_noted faults.old (super_faults (scope_around self.now) class.now)) }
    {
        let Some(tree) = &class.parent else {
            return Ok(());
        };
        let Some(parent) = self.headers.parent(self.class) else {
            return Ok(());
        };
        let parent = self.parent_type(alloc, tree, parent, faults)?;
        made.supers.push(Super {
            class: self.class,
            parent,
        })?;
        Ok(())
    }

    /// The superclass with its region arguments.
    fn parent_type(
        &self,
        alloc: Global,
        tree: &Parent,
        parent: u32,
        faults: &mut Faults,
    ) -> Result<Ty, NoMemory>
        ensures meant { IfOk result (λ made. plain_type made ≡ parent_meant (scope_around self.now) tree.now parent) }
        ensures noted { OnOk result (faults.new ≡ all_noted faults.old (parent_faults (scope_around self.now) tree.now parent)) }
    {
        let names = Names::new(alloc);
        let scope = names.scope(self.headers, self.class, self.given(), self.classes_given);
        read_parent(alloc, &scope, faults, tree, parent)
    }

    /// Reads a method. The constraints in force are those of the class, before and after.
    #[tactic(auto, using(decl_headers::proofs::Noting::noting))]
    fn method(
        &self,
        alloc: Global,
        in_force: &mut Items<Constraint>,
        method: &Method,
        id: u32,
        faults: &mut Faults,
    ) -> Result<MethodRow, NoMemory>
        ensures in_force { OnOk result (in_force.new ≡ in_force.old) }
        ensures meant { IfOk result (λ row. plain_method row ≡ method_row (scope_with self.now in_force.old) id method.now) }
        ensures noted { OnOk result (faults.new ≡ all_noted faults.old (method_faults (scope_with self.now in_force.old) method.now)) }
    {
        let of_class = in_force.len();
        let names = Names::of_method(alloc, method)?;
        let given = self.own_constraints(alloc, &names, in_force, method, faults)?;
        let said = self.said(alloc, &names, in_force.as_slice(), method, faults)?;
        in_force.truncate(of_class);
        let regions = param_rows(alloc, method.params.list.as_slice())?;
        Ok(method_row(self.class, method, id, regions, given, said))
    }

    /// Reads the constraints of a method, and adds them to those in force.
    fn own_constraints(
        &self,
        alloc: Global,
        names: &Names,
        in_force: &mut Items<Constraint>,
        method: &Method,
        faults: &mut Faults,
    ) -> Result<Items<Constraint>, NoMemory>
        ensures meant { IfOk result (λ given. given ≡ constraints_meant (with_names names.now (scope_with self.now in_force.old)) method.now.params.given) }
        ensures in_force { IfOk result (λ given. in_force.new ≡ in_force.old ++ given) }
        ensures noted { OnOk result (faults.new ≡ all_noted faults.old (constraints_faults (with_names names.now (scope_with self.now in_force.old)) method.now.params.given)) }
    {
        let scope = names.scope(
            self.headers,
            self.class,
            in_force.as_slice(),
            self.classes_given,
        );
        let given = read_constraints(alloc, &scope, faults, method.params.given.as_slice())?;
        add_copies(alloc, in_force, given.as_slice())?;
        Ok(given)
    }

    /// Reads the types and the summary of a method.
    #[tactic(auto, using(decl_headers::proofs::Noting::noting))]
    fn said(
        &self,
        alloc: Global,
        names: &Names,
        given: &[Constraint],
        method: &Method,
        faults: &mut Faults,
    ) -> Result<Said, NoMemory>
        ensures params { IfOk result (λ said. map plain_type said.params ≡ formal_types (with_names names.now (scope_with self.now given.now)) method.now.formals) }
        ensures outcome { IfOk result (λ said. plain_type said.outcome ≡ result_type (with_names names.now (scope_with self.now given.now)) method.now.result) }
        ensures summary { IfOk result (λ said. said.summary ≡ summary_meant (with_names names.now (scope_with self.now given.now)) method.now.summary) }
        ensures noted { OnOk result (faults.new ≡ all_noted faults.old (said_faults (with_names names.now (scope_with self.now given.now)) method.now)) }
    {
        let scope = names.scope(self.headers, self.class, given, self.classes_given);
        let params = read_formals(alloc, &scope, faults, method.formals.as_slice())?;
        let outcome = read_result(alloc, &scope, faults, &method.result)?;
        let summary = read_summary(alloc, &scope, faults, &method.summary)?;
        Ok(Said {
            params,
            outcome,
            summary,
        })
    }
}

/// The types and the summary of a method.
#[derive(Drop)]
struct Said {
    params: Items<Ty>,
    outcome: Ty,
    summary: EffectSet,
}

fn method_row(
    owner: u32,
    method: &Method,
    id: u32,
    regions: Items<ParamRow>,
    given: Items<Constraint>,
    said: Said,
) -> MethodRow
    ensures { plain_method result ≡ record { id = id; owner = owner; name = method.now.name; place = method.now.place; is_constructor = is_constructor_result method.now.result; regions = regions; given = given; params = map plain_type said.params; result = plain_type said.outcome; summary = said.summary } }
{
    let Said {
        params,
        outcome,
        summary,
    } = said;
    MethodRow {
        id,
        owner,
        name: method.name,
        place: method.place,
        is_constructor: matches!(method.result, MethodResult::Constructor),
        regions,
        given,
        params,
        result: outcome,
        summary,
    }
}

fn add_copies(
    alloc: Global,
    in_force: &mut Items<Constraint>,
    given: &[Constraint],
) -> Result<(), NoMemory>
    ensures { OnOk result (in_force.new ≡ in_force.old ++ given.now) }
{
    for constraint in given {
        in_force.push(constraint.copy(alloc)?)?;
    }
    Ok(())
}
