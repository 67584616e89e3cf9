ghost use Rattle.std.specs.Prelude.{◌≡◌, IfOk, map, option_map};
ghost use Rattle.lang_typed.specs.Plain.{plain_class, plain_program};
ghost use Rattle.code_instrs.specs.Plain.{plain_class as plain_class_code};
ghost use Rattle.code_scheme.specs.Scheme.{class_code};
ghost use Rattle.code_compile.specs.Classes.{number_from, numbers_of, AreMembers};

use code_instrs::{ClassCode, MethodCode};
use lang_base::{Items, NoMemory, Plain};
use lang_typed::{Class, MemberId, Program, first_values};
use std::alloc::Global;

/// The classes at run time. `members` has each member of the program.
pub fn classes(
    alloc: Global,
    program: &Program,
    members: &Items<MethodCode>,
) -> Result<Items<ClassCode>, NoMemory>
    requires { AreMembers program.now members.now }
    ensures { IfOk result (λ made. map (plain_class_code members.now) made ≡ map (class_code (plain_program program.now) (number_from (numbers_of members.now))) (map (plain_class program.now.classes) program.now.classes)) }
{
    let mut made = Items::new(alloc);
    for class in program.classes.as_slice() {
        made.push(class_code(alloc, program, members, class)?)?;
    }
    Ok(made)
}

fn class_code(
    alloc: Global,
    program: &Program,
    members: &Items<MethodCode>,
    class: &Class,
) -> Result<ClassCode, NoMemory>
    requires { AreMembers program.now members.now }
    ensures { IfOk result (λ made. plain_class_code members.now made ≡ class_code (plain_program program.now) (number_from (numbers_of members.now)) (plain_class program.now.classes class.now)) }
{
    let fields = first_values(alloc, program, class)?;
    let methods = methods(alloc, &class.rows)?;
    let constructor = constructor_of(members, class);
    match &class.parent {
        None => Ok(ClassCode {
            parent: None,
            args: Items::new(alloc),
            fields,
            constructor,
            methods,
        }),
        Some(parent) => Ok(ClassCode {
            parent: Some(parent.class.number),
            args: parent.args.copy(alloc)?,
            fields,
            constructor,
            methods,
        }),
    }
}

fn constructor_of(members: &Items<MethodCode>, class: &Class) -> Option<usize>
    ensures { result ≡ option_map (number_from (numbers_of members.now)) (option_map (λ member. member.number) class.now.constructor) }
{
    match class.constructor {
        None => None,
        Some(member) => Some(number_of(members, member)),
    }
}

/// The member in each row, by its number.
fn methods(alloc: Global, rows: &Items<MemberId>) -> Result<Items<u32>, NoMemory>
    ensures { IfOk result (λ made. made ≡ map (λ row. row.number) rows.now) }
{
    let mut made = Items::new(alloc);
    for row in rows.as_slice() {
        made.push(row.number)?;
    }
    Ok(made)
}

/// The number of the body of a member.
pub fn number_of(members: &Items<MethodCode>, member: MemberId) -> usize
    ensures { result ≡ number_from (numbers_of members.now) member.number }
{
    match members.get(member.number as usize) {
        None => 0,
        Some(member) => member.body,
    }
}
