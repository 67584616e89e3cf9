ghost use Rattle.std.specs.Prelude.{◌≡◌, None, Some, map, length, Ok, Err, IfOk, IfErr, OnOk};
ghost use Rattle.lang_base.specs.Refused.{IfRefused};
ghost use Rattle.lang_base.specs.Types.{Ordered};
ghost use Rattle.decl_headers.specs.Gathered.{headers_in};
ghost use Rattle.decl_headers.specs.First.{first_faults};
ghost use Rattle.decl_headers.specs.Passes.{first_of};
ghost use Rattle.decl_headers.specs.Second.{AreCounted};
ghost use Rattle.decl_classes.specs.Build.{text_faults, table_faults, check_table};
ghost use Rattle.decl_classes.specs.Tables.{numbered_table};
ghost use Rattle.decl_table.specs.Plain.{plain_super, plain_field, plain_method};
ghost use Rattle.decl_classes.specs.Rows.{all_constraints, supers_meant, fields_meant, methods_meant};
ghost use Rattle.decl_classes.specs.Supers.{classes_in, all_extending};
ghost use Rattle.decl_table.specs.Table.{supers_of};

use crate::overriding::check_overriding;
use crate::signatures::{class_constraints, read_signatures};
use decl_headers::{Faults, Headers, headers};
use decl_reach::find_forks;
use decl_table::{Signatures, Table, check_main, find_overridden, find_places, number_rows};
use lang_base::{Bytes, Constraint, Items, Stop};
use std::alloc::Global;
use syntax_tree::{Class, Program};

/// The class table of a program. It refuses what the headers refuse by names alone; then unknown names, region
/// arguments and constraints in signatures; then methods that don't fit those that they override, and a program
/// without its `Main`. Of these groups the first comes first, and in a group the fault with the least place.
pub fn build(alloc: Global, program: &Program) -> Result<Table, Stop>
    requires { AreCounted (length program.now.names) program.now.classes }
    ensures made { IfOk result (λ table. check_table program.now ≡ Ok table) }
    ensures refused { IfErr result (λ stop. IfRefused stop (λ fault. check_table program.now ≡ Err fault)) }
    ensures ordered { IfOk result (λ table. Ordered (supers_of table)) }
{
    let headers = headers(alloc, program)?;
    let read = of_signatures(alloc, headers, program)?;
    let forks = find_forks(alloc, &read, program.classes.as_slice())?;
    let table = read.with_forks(forks);
    judge(alloc, &table, program.names.as_slice())?;
    Ok(table)
}

/// The table with all signatures, before overriding and `Main` are looked at. It doesn't say yet what forks.
fn of_signatures(alloc: Global, headers: Headers, program: &Program) -> Result<Table, Stop>
    requires counted { AreCounted (length program.now.names) program.now.classes }
    requires headers { headers ≡ headers_in program.now }
    requires first { first_of (first_faults program.now.classes) ≡ None }
    ensures free { OnOk result (first_of (text_faults headers program.now.classes) ≡ None) }
    ensures made { IfOk result (λ table. table ≡ numbered_table program.now) }
    ensures refused { IfErr result (λ stop. IfRefused stop (λ fault. first_of (text_faults headers program.now.classes) ≡ Some fault)) }
{
    let classes = program.classes.as_slice();
    let Read { given, made } = read_all(alloc, &headers, classes)?;
    let places = find_places(alloc, classes.len(), &made)?;
    let methods = made.methods.as_slice();
    let overrides = find_overridden(alloc, &headers, methods, program.names.len())?;
    let rows = number_rows(alloc, &headers, methods, overrides.as_slice())?;
    let forks = Items::new(alloc);
    Ok(Table::of_rows(headers, given, made, overrides, rows, forks, places))
}

/// The constraints of the classes and all signatures.
#[derive(Drop)]
struct Read {
    given: Items<Items<Constraint>>,
    made: Signatures,
}

/// Reads all signatures, or tells the first fault in them.
fn read_all(alloc: Global, headers: &Headers, classes: &[Class]) -> Result<Read, Stop>
    ensures free { IfOk result (λ read. first_of (text_faults headers.now classes.now) ≡ None) }
    ensures refused { IfErr result (λ stop. IfRefused stop (λ fault. first_of (text_faults headers.now classes.now) ≡ Some fault)) }
    ensures given { IfOk result (λ read. read.given ≡ all_constraints headers.now 0 classes.now) }
    ensures supers { IfOk result (λ read. map plain_super read.made.supers ≡ supers_meant headers.now (all_constraints headers.now 0 classes.now) 0 classes.now) }
    ensures fields { IfOk result (λ read. map plain_field read.made.fields ≡ fields_meant headers.now (all_constraints headers.now 0 classes.now) 0 classes.now) }
    ensures methods { IfOk result (λ read. map plain_method read.made.methods ≡ methods_meant headers.now (all_constraints headers.now 0 classes.now) 0 0 classes.now) }
    ensures extending { IfOk result (λ read. classes_in read.made.supers ≡ all_extending headers.now 0 classes.now) }
{
    let mut faults = Faults::by_place();
    let given = class_constraints(alloc, headers, classes, &mut faults)?;
    let made = read_signatures(alloc, headers, classes, given.as_slice(), &mut faults)?;
    faults.settle()?;
    Ok(Read { given, made })
}

/// Tells the first fault of overriding and of `Main`.
#[tactic(auto, using(decl_headers::proofs::Noting::noting))]
fn judge(alloc: Global, table: &Table, names: &[Bytes]) -> Result<(), Stop>
    ensures judged { OnOk result (first_of (table_faults table.now names.now) ≡ None) }
    ensures refused { IfErr result (λ stop. IfRefused stop (λ fault. first_of (table_faults table.now names.now) ≡ Some fault)) }
{
    let mut faults = Faults::by_place();
    check_overriding(alloc, table, &mut faults)?;
    check_main(table, names, &mut faults);
    faults.settle()
}
