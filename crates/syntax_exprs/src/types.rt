ghost use Rattle.std.specs.Prelude.{◌≡◌, ◌≤◌, IfOk, OnOk, IfErr, [], ◌∷◌};
ghost use Rattle.syntax_exprs.specs.Counted.{Reading, StopsAt};
ghost use Rattle.syntax_grammar.specs.Expecting.{Part, one, part};
ghost use Rattle.syntax_exprs.specs.Progress.{Keeps, Reads};
ghost use Rattle.syntax_grammar.specs.Taking.{Many};
ghost use Rattle.syntax_grammar.specs.Words.{is_name};
ghost use Rattle.syntax_grammar.specs.Types.{DerivesBase, DerivesAfter, DerivesIndex, DerivesRegion, DerivesSuffix, DerivesType};

use crate::cursor::Cursor;
use crate::region::{args_if, rpl};
use lang_base::{Items, Stop};
use std::alloc::Global;
use syntax_tokens::{Keyword, Symbol, Terminal};
use syntax_tree::{BaseTree, Named, RplTree, Suffix, TypeTree};

/// `Type = Base { "[" "]" [ "<" Rpl ">" ] [ "#" Name ] }`
#[tactic(auto, using(syntax_grammar::specs::Types::type_of, crate::proofs::parts::TypeParts::ty_reading))]
pub fn ty(alloc: Global, cursor: &mut Cursor) -> Result<TypeTree, Stop>
    ensures moves { OnOk result (Reads cursor.old cursor.new) }
    ensures reads { OnOk result (Reading (part Part.type ∷ []) cursor.old cursor.new) }
    ensures stops { IfErr result (λ stop. StopsAt (part Part.type ∷ []) cursor.old stop) }
    ensures derives { IfOk result (λ tree. DerivesType cursor.old.rest.now cursor.new.rest.now tree) }
{
    let outer = cursor.joined;
    cursor.joined = 0;
    let place = cursor.place();
    let base = base(alloc, cursor)?;
    let suffixes = suffixes(alloc, cursor)?;
    cursor.joined = outer;
    Ok(TypeTree {
        place,
        base,
        suffixes,
    })
}

/// `Base = "int" | "boolean" | Name [ Args ]`
#[tactic(auto, using(crate::proofs::TypeForms::base_int, crate::proofs::TypeForms::base_boolean, syntax_grammar::specs::Types::class, crate::proofs::parts::TypeParts::base_reading))]
pub fn base(alloc: Global, cursor: &mut Cursor) -> Result<BaseTree, Stop>
    ensures same { OnOk result (cursor.new.joined ≡ cursor.old.joined) }
    ensures moves { OnOk result (Reads cursor.old cursor.new) }
    ensures reads { OnOk result (Reading (part Part.base ∷ []) cursor.old cursor.new) }
    ensures stops { IfErr result (λ stop. StopsAt (part Part.base ∷ []) cursor.old stop) }
    ensures derives { IfOk result (λ start. DerivesBase cursor.old.rest.now cursor.new.rest.now start) }
{
    match cursor.next() {
        Some(Terminal::Keyword(Keyword::Int)) => {
            cursor.accept()?;
            Ok(BaseTree::Int)
        }
        Some(Terminal::Keyword(Keyword::Boolean)) => {
            cursor.accept()?;
            Ok(BaseTree::Bool)
        }
        _ => {
            let name = cursor.name()?;
            let args = args_if(alloc, cursor)?;
            Ok(BaseTree::Class { name, args })
        }
    }
}

/// `{ "[" "]" [ "<" Rpl ">" ] [ "#" Name ] }`
#[tactic(auto, using(syntax_grammar::proofs::Lists::many_more, syntax_grammar::specs::Taking::none, crate::proofs::TypeForms::suffix_of, crate::proofs::parts::TypeParts::suffixes_reading))]
fn suffixes(alloc: Global, cursor: &mut Cursor) -> Result<Items<Suffix>, Stop>
    requires { cursor.old.joined ≤ 32 }
    ensures moves { OnOk result (Keeps cursor.old cursor.new) }
    ensures reads { OnOk result (Reading (part Part.suffixes ∷ []) cursor.old cursor.new) }
    ensures stops { IfErr result (λ stop. StopsAt (part Part.suffixes ∷ []) cursor.old stop) }
    ensures derives { IfOk result (λ suffixes. Many DerivesSuffix cursor.old.rest.now cursor.new.rest.now suffixes) }
{
    let mut suffixes = Items::new(alloc);
    while cursor.is_symbol(Symbol::OpenBracket) {
        cursor.join_open()?;
        cursor.close(Symbol::CloseBracket)?;
        suffixes.push(after_brackets(alloc, cursor)?)?;
    }
    Ok(suffixes)
}

/// `[ "<" Rpl ">" ] [ "#" Name ]`
#[tactic(auto, using(syntax_grammar::specs::Types::following, crate::proofs::parts::TypeParts::after_brackets_reading))]
pub fn after_brackets(alloc: Global, cursor: &mut Cursor) -> Result<Suffix, Stop>
    ensures same { OnOk result (cursor.new.joined ≡ cursor.old.joined) }
    ensures moves { OnOk result (Keeps cursor.old cursor.new) }
    ensures reads { OnOk result (Reading (part Part.brackets_after ∷ []) cursor.old cursor.new) }
    ensures stops { IfErr result (λ stop. StopsAt (part Part.brackets_after ∷ []) cursor.old stop) }
    ensures derives { IfOk result (λ tree. DerivesAfter cursor.old.rest.now cursor.new.rest.now tree) }
{
    let rpl = region_if(alloc, cursor)?;
    let index = index_if(cursor)?;
    Ok(Suffix { rpl, index })
}

/// `[ "<" Rpl ">" ]`
#[tactic(auto, using(crate::proofs::TypeForms::region_none, crate::proofs::TypeForms::region_some, crate::proofs::parts::TypeParts::region_if_reading))]
fn region_if(alloc: Global, cursor: &mut Cursor) -> Result<Option<RplTree>, Stop>
    ensures same { OnOk result (cursor.new.joined ≡ cursor.old.joined) }
    ensures moves { OnOk result (Keeps cursor.old cursor.new) }
    ensures reads { OnOk result (Reading (part Part.region_if ∷ []) cursor.old cursor.new) }
    ensures stops { IfErr result (λ stop. StopsAt (part Part.region_if ∷ []) cursor.old stop) }
    ensures derives { IfOk result (λ region. DerivesRegion cursor.old.rest.now cursor.new.rest.now region) }
{
    if !cursor.symbol_if(Symbol::Less)? {
        return Ok(None);
    }
    let region = rpl(alloc, cursor)?;
    cursor.symbol(Symbol::Greater)?;
    Ok(Some(region))
}

/// `[ "#" Name ]`
#[tactic(auto, using(crate::proofs::TypeForms::index_none, crate::proofs::TypeForms::index_some, crate::proofs::parts::TypeParts::index_if_reading))]
fn index_if(cursor: &mut Cursor) -> Result<Option<Named>, Stop>
    ensures same { OnOk result (cursor.new.joined ≡ cursor.old.joined) }
    ensures moves { OnOk result (Keeps cursor.old cursor.new) }
    ensures reads { OnOk result (Reading (part Part.index_if ∷ []) cursor.old cursor.new) }
    ensures stops { IfErr result (λ stop. StopsAt (part Part.index_if ∷ []) cursor.old stop) }
    ensures derives { IfOk result (λ index. DerivesIndex cursor.old.rest.now cursor.new.rest.now index) }
{
    if !cursor.symbol_if(Symbol::Hash)? {
        return Ok(None);
    }
    Ok(Some(cursor.name()?))
}

/// A type that begins with a name, within a member that might have been a constructor up to there: its suffixes are counted on.
#[tactic(auto, using(crate::proofs::InTurn::read_three, crate::proofs::Composed::refused_first, crate::proofs::InTurn::refused_second, crate::proofs::InTurn::refused_third, crate::proofs::InTurn::few_still))]
pub fn named_type(alloc: Global, cursor: &mut Cursor) -> Result<TypeTree, Stop>
    ensures moves { OnOk result (Reads cursor.old cursor.new) }
    ensures reads { OnOk result (Reading (one is_name ∷ part Part.args_if ∷ part Part.suffixes ∷ []) cursor.old cursor.new) }
    ensures stops { IfErr result (λ stop. StopsAt (one is_name ∷ part Part.args_if ∷ part Part.suffixes ∷ []) cursor.old stop) }
    ensures derives { IfOk result (λ tree. DerivesType cursor.old.rest.now cursor.new.rest.now tree) }
{
    let place = cursor.place();
    let name = cursor.name()?;
    let args = args_if(alloc, cursor)?;
    let suffixes = suffixes(alloc, cursor)?;
    let base = BaseTree::Class { name, args };
    Ok(TypeTree {
        place,
        base,
        suffixes,
    })
}
