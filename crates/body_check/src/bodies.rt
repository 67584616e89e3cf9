ghost use Rattle.std.specs.Prelude.{◌≡◌, ◌++◌, [], ℕ, map, option_map, IfOk, OnOk};
ghost use Rattle.std.specs.Option.{option_copied};
ghost use Rattle.body_assembly.specs.Assembled.{plain_body};
ghost use Rattle.lang_base.specs.Effects.{set_covers};
ghost use Rattle.syntax_tree.specs.Nd.{program_uses_nd};
ghost use Rattle.syntax_tree.specs.Plain.{plain_stmt, plain_stmts};
ghost use Rattle.lang_typed.specs.Plain.{plain_stmt as typed_stmt};
ghost use Rattle.body_exprs.specs.declared.env.Env.{Env};
ghost use Rattle.body_exprs.specs.Env.{bare, table_of, at_class, at_members, at_method, class_params};
ghost use Rattle.body_check.specs.Checking.{check_block};
ghost use Rattle.body_check.specs.Completes.{all_complete};
ghost use Rattle.body_check.specs.Deciding.{has_value, method_fault, reported_at};
ghost use Rattle.body_check.specs.Around.{method_around};
ghost use Rattle.body_check.specs.Methods.{formals_declared, formal_types, summary_of, bodies_of, atomic_params, number_after, plain_bodies, check_classes, check_members, check_member, check_method, BodiesChecking};
ghost use Rattle.body_check.specs.Walks.{passes, refused, walk_of};
ghost use Rattle.body_exprs.specs.Answer.{Says};

use crate::accepted::Accepted;
use crate::node::Around;
use crate::statements::{CheckedBlock, block};
use body_assembly::MemberBody;
use body_exprs::{Env, Found, length_name, refused};
use decl_headers::number_at;
use decl_table::{MethodRow, Table};
use lang_base::{Items, Kind, NoMemory, Plain, Stop, Ty};
use region_effects::EffectSet;
use std::alloc::Global;
use syntax_tree::{Class, Formal, Member, Method, MethodResult, Program, uses_nd};

/// Checks the bodies of a program, class by class and member by member in the order of the text, and refuses
/// the first node that has a fault. `table` is the program's.
pub fn check(alloc: Global, program: &Program, table: &Table) -> Result<Accepted, Stop>
    ensures nd { IfOk result (λ found. found.uses_nd ≡ program_uses_nd program.now) }
    ensures checks { Says result (λ found. Ok (map plain_body found.bodies)) Err (BodiesChecking program.now table.now) }
{
    let mut env = Env::new(alloc, table, length_name(program));
    let bodies = check_classes(&mut env, program.classes.as_slice())?;
    Ok(Accepted {
        uses_nd: uses_nd(program),
        bodies,
    })
}

fn check_classes(env: &mut Env, classes: &[Class]) -> Result<Items<MemberBody>, Stop>
    ensures checks { Says result (λ bodies. Ok (map plain_body bodies)) Err (λ v. check_classes env.old 0 classes.now 0 ≡ v) }
{
    let mut bodies = Items::new(env.alloc);
    let mut methods = 0;
    for (number, class) in classes.iter().enumerate() {
        let done = check_class(env, class, number_at(number), methods)?;
        methods = done.next;
        append(&mut bodies, done.bodies)?;
    }
    Ok(bodies)
}

fn append(bodies: &mut Items<MemberBody>, more: Items<MemberBody>) -> Result<(), NoMemory>
    ensures { OnOk result (bodies.new ≡ bodies.old ++ more) }
{
    for body in more.into_vec() {
        bodies.push(body)?;
    }
    Ok(())
}

/// The bodies of a class that passed, and the number after its last method.
#[derive(Drop)]
struct ClassBodies {
    next: u32,
    bodies: Items<MemberBody>,
}

/// Checks the bodies of the class of a number, of which the first has the other number.
fn check_class(env: &mut Env, class: &Class, number: u32, first: u32) -> Result<ClassBodies, Stop>
    ensures around { (other : ℕ) → OnOk result (at_class env.new other ≡ at_class env.old other) }
    ensures checks { Says result (λ done. Ok (plain_bodies done)) Err (λ v. check_members (at_class env.old number) (class_params (table_of env.old) number) class.now.members first ≡ v) }
{
    env.enter_class(number)?;
    let mut done = ClassBodies {
        next: first,
        bodies: Items::new(env.alloc),
    };
    for member in class.members.as_slice() {
        let made = check_member(env, member, done.next)?;
        add_body(&mut done, made)?;
    }
    Ok(done)
}

/// Adds the body of a member, where it has one.
fn add_body(done: &mut ClassBodies, made: Option<MemberBody>) -> Result<(), NoMemory>
    ensures next { OnOk result (done.new.next ≡ number_after (option_map plain_body made) done.old.next) }
    ensures bodies { OnOk result (map plain_body done.new.bodies ≡ map plain_body done.old.bodies ++ bodies_of (option_map plain_body made)) }
{
    if let Some(body) = made {
        done.bodies.push(body)?;
        done.next = done.next.saturating_add(1);
    }
    Ok(())
}

/// Checks the body of a member that has one.
fn check_member(env: &mut Env, member: &Member, number: u32) -> Result<Option<MemberBody>, Stop>
    ensures stays { (start : Env) (class : ℕ) → at_members env.old ≡ at_class start class → OnOk result (at_members env.new ≡ at_class start class) }
    ensures checks { (start : Env) (class : ℕ) → at_members env.old ≡ at_class start class → Says result (λ made. Ok (option_map plain_body made)) Err (λ v. check_member (at_class start class) (class_params (table_of start) class) member.now number ≡ v) }
{
    match member {
        Member::Regions { .. } | Member::Field(_) => Ok(None),
        Member::Method(method) => {
            env.enter_method(number)?;
            Ok(Some(check_method(env, method, number)?))
        }
    }
}

/// Checks the body of a method or a constructor. One without a row has no formals in scope, and may have no effect.
fn check_method(env: &mut Env, method: &Method, number: u32) -> Result<MemberBody, Stop>
    ensures home { OnOk result (bare env.new ≡ bare env.old) }
    ensures checks { (around : Env) → env.old ≡ at_method around number → Says result (λ made. Ok (plain_body made)) Err (λ v. check_method around (atomic_params env.old) number method.now ≡ v) }
{
    let row = env.table().numbered(number);
    let nothing = EffectSet::new(env.alloc);
    declare_formals(env, method.formals.as_slice(), types_of(row))?;
    let has_slots = env.has_room();
    let mut done = Found::new(env.alloc);
    let checked = check_body(env, method, &mut done)?;
    let covered = summary_of(row, &nothing).set_covers(&done.effects);
    settle_method(method, checked.completes, covered, has_slots)?;
    Ok(MemberBody {
        slots: env.slots(),
        local_regions: env.regions_declared(),
        stmts: checked.stmts,
    })
}

/// The types of the formals of a method, where it has a row.
fn types_of(row: Option<&MethodRow>) -> &[Ty]
    ensures { result.now ≡ formal_types (option_copied row.entry) }
{
    match row {
        Some(row) => row.params.as_slice(),
        None => &[],
    }
}

/// The summary of a method, where it has a row.
fn summary_of<'a>(row: Option<&'a MethodRow>, nothing: &'a EffectSet) -> &'a EffectSet
    ensures { nothing.now ≡ [] → result.now ≡ summary_of (option_copied row.entry) }
{
    match row {
        Some(row) => &row.summary,
        None => nothing,
    }
}

/// Checks the statements of a method, whose formals are in scope.
fn check_body(env: &mut Env, method: &Method, done: &mut Found) -> Result<CheckedBlock, Stop>
    ensures completes { IfOk result (λ checked. checked.completes ≡ all_complete (plain_stmts (map plain_stmt method.now.body))) }
    ensures home { OnOk result (bare env.new ≡ bare env.old) }
    ensures checks { Says result (λ checked. passes (map typed_stmt checked.stmts) (walk_of env.new done.new)) refused (λ v. check_block (atomic_params env.old) (method_around (has_value method.now.result)) (plain_stmts (map plain_stmt method.now.body)) (walk_of env.old done.old) ≡ v) }
{
    let around = Around::method(has_value(&method.result));
    block(env, around, method.body.as_slice(), done)
}

fn has_value(reported: &MethodResult) -> bool
    ensures { result ≡ has_value reported.now }
{
    matches!(reported, MethodResult::Value(_))
}

/// Reports the fault of a method after its body.
fn settle_method(
    method: &Method,
    completes: bool,
    covered: bool,
    has_slots: bool,
) -> Result<(), Stop>
    ensures { result ≡ reported_at method.now.place (method_fault (has_value method.now.result) completes covered has_slots) }
{
    match method_fault(has_value(&method.result), completes, covered, has_slots) {
        Some(kind) => Err(refused(kind, method.place)),
        None => Ok(()),
    }
}

/// A body with a result completes, or the effects of a body aren't covered, or there are more formals than slots.
fn method_fault(has_result: bool, completes: bool, covered: bool, has_slots: bool) -> Option<Kind>
    ensures { result ≡ method_fault has_result completes covered has_slots }
{
    if has_result && completes {
        return Some(Kind::Return);
    }
    if !covered {
        return Some(Kind::Summary);
    }
    if has_slots { None } else { Some(Kind::TooLong) }
}

/// Puts the formals in scope.
fn declare_formals(env: &mut Env, formals: &[Formal], types: &[Ty]) -> Result<(), NoMemory>
    ensures whole { OnOk result (env.new ≡ formals_declared env.old formals.now types.now) }
    ensures home { OnOk result (bare env.new ≡ bare env.old) }
{
    for (formal, ty) in formals.iter().zip(types) {
        let ty = ty.copy(env.alloc)?;
        env.declare(formal.name, ty, false)?;
    }
    Ok(())
}
