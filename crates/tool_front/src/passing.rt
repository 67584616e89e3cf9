ghost use Rattle.std.specs.Prelude.{◌≡◌, ◌≤◌, length, IfOk, IfErr};
ghost use Rattle.lang_base.specs.Refused.{IfRefused};
ghost use Rattle.decl_headers.specs.Second.{AreCounted};
ghost use Rattle.syntax_tokens.specs.Cutting.{StandInOrder};
ghost use Rattle.tool_front.specs.Front.{AreFieldNames, AreNames, HasFieldNames, HasNamed, HasProgram, IsFault, IsPassed, IsTokenFault, first_place};
ghost use Rattle.tool_front.specs.Judging.{field_names_in, HasNames, IsAccepted, IsFaulty, names_of_passed, typed_of};

use crate::fields::field_names;
use body_assembly::program;
use body_check::{Accepted, check};
use decl_classes::build;
use decl_table::Table;
use lang_base::{Bytes, Items, NoMemory, Place, Stop};
use lang_typed::Program;
use std::alloc::Global;
use syntax_parse::parse;
use syntax_tokens::{Tokens, tokens};
use syntax_tree::Program as Tree;

/// An accepted program by its parts, and where the first token of its text stands. The typed program is put together of them
/// where it is asked for.
#[derive(Drop)]
pub struct Passed {
    pub names: Items<Bytes>,
    pub table: Table,
    pub checked: Accepted,
    /// Of each class the names of the fields that it declares itself.
    pub fields: Items<Items<Bytes>>,
    pub place: Place,
}

impl Passed {
    ghost use Rattle.std.specs.Prelude.{◌≡◌, IfOk};
    ghost use Rattle.lang_typed.specs.Names.{names_of};
    ghost use Rattle.lang_typed.specs.Plain.{plain_program};
    ghost use Rattle.tool_front.specs.Judging.{names_of_passed, typed_of};

    /// The typed program. Its size grows with the square of a chain of superclasses, since each class has all rows of methods.
    pub fn typed(self, alloc: Global) -> Result<Program, NoMemory>
        ensures typed { IfOk result (λ made. plain_program made ≡ typed_of self) }
        ensures named { IfOk result (λ made. names_of made ≡ names_of_passed self) }
    {
        let (typed, _fields) = self.spelled(alloc)?;
        Ok(typed)
    }

    /// The typed program, with the names of the fields that each class declares itself.
    pub fn spelled(self, alloc: Global) -> Result<(Program, Items<Items<Bytes>>), NoMemory>
        ensures typed { IfOk result (λ made. plain_program made.0 ≡ typed_of self) }
        ensures named { IfOk result (λ made. names_of made.0 ≡ names_of_passed self) }
        ensures fields { IfOk result (λ made. made.1 ≡ self.fields) }
    {
        let Passed {
            names,
            table,
            checked,
            fields,
            ..
        } = self;
        let typed = program(
            alloc,
            names.as_slice(),
            &table,
            checked.uses_nd,
            checked.bodies,
        )?;
        Ok((typed, fields))
    }
}

/// The program of a text, or the text's first fault.
pub fn front(alloc: Global, text: &[u8]) -> Result<Passed, Stop>
    requires { length text.now ≤ 1048576 }
    ensures accepted { IfOk result (λ passed. IsPassed text.now passed.place (typed_of passed)) }
    ensures named { IfOk result (λ passed. AreNames text.now (names_of_passed passed)) }
    ensures fields { IfOk result (λ passed. AreFieldNames text.now passed.fields) }
    ensures fault { IfErr result (λ stop. IfRefused stop (IsFault text.now)) }
{
    let tokens = tokens(alloc, text)?;
    judge_text(alloc, text, &tokens)
}

/// The program that tokens derive, or the first fault of their grammar or of their program.
fn judge_text(alloc: Global, text: &[u8], tokens: &Tokens) -> Result<Passed, Stop>
    requires short { length text.now ≤ 1048576 }
    requires stand { StandInOrder text.now 0 tokens.now.list }
    ensures accepted { IfOk result (λ passed. HasProgram text.now tokens.now.list (typed_of passed)) }
    ensures named { IfOk result (λ passed. HasNamed text.now tokens.now.list (names_of_passed passed)) }
    ensures fields { IfOk result (λ passed. HasFieldNames text.now tokens.now.list passed.fields) }
    ensures place { IfOk result (λ passed. passed.place ≡ first_place tokens.now.list tokens.now.end) }
    ensures fault { IfErr result (λ stop. IfRefused stop (IsTokenFault text.now tokens.now.list tokens.now.end)) }
{
    let tree = parse(alloc, text, tokens)?;
    judge_program(alloc, tree, first_place(tokens))
}

/// The program of a tree whose text begins here, or the first fault of its class table or of its bodies.
fn judge_program(alloc: Global, tree: Tree, place: Place) -> Result<Passed, Stop>
    requires counted { AreCounted (length tree.names) tree.classes }
    ensures accepted { IfOk result (λ passed. IsAccepted tree (typed_of passed)) }
    ensures named { IfOk result (λ passed. HasNames tree (names_of_passed passed)) }
    ensures fields { IfOk result (λ passed. passed.fields ≡ field_names_in tree) }
    ensures place { IfOk result (λ passed. passed.place ≡ place) }
    ensures fault { IfErr result (λ stop. IfRefused stop (IsFaulty tree)) }
{
    let table = build(alloc, &tree)?;
    let checked = check(alloc, &tree, &table)?;
    let fields = field_names(alloc, &tree)?;
    let Tree { names, .. } = tree;
    Ok(Passed {
        names,
        table,
        checked,
        fields,
        place,
    })
}

/// Where the first token stands, or the end of a text without one.
fn first_place(tokens: &Tokens) -> Place
    ensures { result ≡ first_place tokens.now.list tokens.now.end }
{
    match tokens.list.get(0) {
        Some(token) => token.place,
        None => tokens.end,
    }
}
