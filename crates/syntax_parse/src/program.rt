ghost use Rattle.std.specs.Prelude.{◌≤◌, ◌<◌, length, All, IfErr, IfOk, OnOk};
ghost use Rattle.std.specs.List.{IsDistinct};
ghost use Rattle.std.specs.Str.{bytes_eq};
ghost use Rattle.syntax_tokens.specs.Cutting.{StandInOrder};
ghost use Rattle.syntax_tree.specs.Names.{program_names};
ghost use Rattle.syntax_tree.specs.Size.{program_size};
ghost use Rattle.syntax_tree.specs.Shaped.{MemberHasTargets};
ghost use Rattle.lang_base.specs.Refused.{IfRefused};
ghost use Rattle.syntax_grammar.specs.Classes.{DerivesProgram};
ghost use Rattle.syntax_grammar.specs.Program.{IsGrammarFault, IsProgram};
ghost use Rattle.syntax_grammar.specs.Refusing.{IsRefusedIn, IsWithin};

use crate::classes::classes;
use lang_base::{Items, Place, Stop};
use std::alloc::Global;
use syntax_exprs::Cursor;
use syntax_tokens::{Placed, Terminals, Tokens, terminals};
use syntax_tree::{Class, Program};

/// The tree of a program's text, or the first fault of its grammar.
pub fn parse(alloc: Global, bytes: &[u8], tokens: &Tokens) -> Result<Program, Stop>
    requires small { length bytes.now ≤ 1048576 }
    requires stand { StandInOrder bytes.now 0 tokens.now.list }
    ensures derived { IfOk result (IsProgram bytes.now tokens.now.list) }
    ensures named { IfOk result (λ program. All (λ name. name < length program.names) (program_names program)) }
    ensures distinct { IfOk result (λ program. IsDistinct bytes_eq program.names) }
    ensures targets { IfOk result (λ program. All (λ class. All MemberHasTargets class.members) program.classes) }
    ensures sized { IfOk result (λ program. program_size program ≤ length bytes.now) }
    ensures fault { IfErr result (λ stop. IfRefused stop (IsGrammarFault bytes.now tokens.now.list tokens.now.end)) }
{
    let Terminals { list, names } = terminals(alloc, bytes, tokens)?;
    let classes = read(alloc, list.as_slice(), tokens.end)?;
    Ok(Program { classes, names })
}

/// The classes of a text, or where it is refused.
#[tactic(auto, using(syntax_grammar::proofs::Refused::refused_in, crate::proofs::parts::ClassParts::read_within))]
fn read(alloc: Global, list: &[Placed], end: Place) -> Result<Items<Class>, Stop>
    ensures derives { IfOk result (DerivesProgram list.now) }
    ensures within { OnOk result (IsWithin list.now) }
    ensures refused { IfErr result (λ stop. IfRefused stop (IsRefusedIn list.now end)) }
{
    let mut cursor = Cursor {
        end,
        rest: list,
        level: 0,
        joined: 0,
    };
    classes(alloc, &mut cursor)
}
