ghost use Rattle.std.specs.List.{All};
ghost use Rattle.std.specs.Prelude.{◌≡◌, IfOk, OnOk, map, slice_get};
ghost use Rattle.lang_typed.specs.Names.{names_of};
ghost use Rattle.lang_typed.specs.Plain.{plain_program, plain_member};
ghost use Rattle.lang_typed.specs.WellTyped.{WellTyped};
ghost use Rattle.code_instrs.specs.Plain.{plain_code};
ghost use Rattle.code_fit.specs.Closed.{CodeClosed};
ghost use Rattle.code_scheme.specs.Whole.{compiled, first, member_numbers, members_output};
ghost use Rattle.code_compile.specs.Classes.{numbers_of};
ghost use Rattle.code_compile.specs.Emitted.{emitted_of};
ghost use Rattle.code_compile.specs.Bodies.{IsNew, output_of};
ghost use Rattle.code_compile.specs.Titles.{Follow, HasPlaces, member_title, name_of, titles_of};

use crate::bodies::member;
use crate::classes::{classes, number_of};
use crate::emitter::Emitter;
use code_instrs::{Body, Code, MethodCode};
use lang_base::{Items, NoMemory};
use lang_typed::{Class, Member, Program};
use std::alloc::Global;

/// Compiles a typed program to the code that the scheme of `code_scheme` says, which is closed and fit where the program is well typed.
pub fn compile(alloc: Global, program: &Program) -> Result<Code, NoMemory>
    ensures code { IfOk result (λ code. plain_code code ≡ compiled (plain_program program.now)) }
    ensures titles { IfOk result (λ code. map (λ body. body.title) code.bodies ≡ titles_of (plain_program program.now) (names_of program.now)) }
    ensures placed { IfOk result (λ code. All HasPlaces code.bodies) }
    ensures closed { IfOk result (λ code. WellTyped (plain_program program.now) → CodeClosed (plain_code code)) }
{
    let mut out = Emitter::new(alloc);
    let mut bodies = Items::new(alloc);
    let members = members(
        alloc,
        &mut out,
        &mut bodies,
        &program.classes,
        &program.members,
    )?;
    let classes = classes(alloc, program, &members)?;
    let main_body = number_of(&members, program.main_member);
    let Emitter { sites, texts, .. } = out;
    Ok(Code {
        classes,
        members,
        bodies,
        sites,
        texts,
        main_class: program.main_class.number,
        main_body,
    })
}

/// Emits all members, and answers each with its class and the number of its body.
fn members<'p>(
    alloc: Global,
    out: &mut Emitter<'p>,
    bodies: &mut Items<Body>,
    classes: &Items<Class>,
    all: &'p Items<Member>,
) -> Result<Items<MethodCode>, NoMemory>
    requires { IsNew (emitted_of out.old) bodies.old }
    ensures owners { IfOk result (λ made. map (λ m. m.owner) made ≡ map (λ m. m.class.number) all.now) }
    ensures numbers { IfOk result (λ made. numbers_of made ≡ member_numbers first (map plain_member all.now)) }
    ensures output { OnOk result (output_of (emitted_of out.new) bodies.new ≡ members_output first (map plain_member all.now)) }
    ensures titled { OnOk result (Follow bodies.old bodies.new (map (λ m. member_title (name_of (slice_get classes.now m.class.number)) m.name) all.now)) }
{
    let mut made = Items::new(alloc);
    for m in all.as_slice() {
        made.push(MethodCode {
            owner: m.class.number,
            body: bodies.len(),
        })?;
        let owner = classes.get(m.class.number as usize);
        member(alloc, out, bodies, owner, m)?;
    }
    Ok(made)
}
