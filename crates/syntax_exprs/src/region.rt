ghost use Rattle.std.specs.Prelude.{◌≡◌, ◌≤◌, [], IfOk, OnOk, IfErr, ◌∷◌};
ghost use Rattle.syntax_exprs.specs.Counted.{Reading, StopsAt};
ghost use Rattle.syntax_grammar.specs.Expecting.{Part, part};
ghost use Rattle.syntax_grammar.specs.Paths.{DerivesArgs, DerivesElem, DerivesHead, DerivesNext, DerivesRName, DerivesRpl, DerivesWithin};
ghost use Rattle.syntax_exprs.specs.Progress.{Keeps, Reads};
ghost use Rattle.syntax_grammar.specs.Taking.{Listed, Many, TakesName};

use crate::cursor::Cursor;
use lang_base::{Items, Stop};
use std::alloc::Global;
use syntax_tokens::{Keyword, Symbol, Terminal};
use syntax_tree::{ElemTree, Named, RName, RplHead, RplTree};

/// `Name { "," Name }`
#[tactic(auto, using(syntax_grammar::proofs::Lists::listed_more, syntax_grammar::specs::Taking::last, crate::proofs::parts::PathParts::names_reading))]
pub fn names(alloc: Global, cursor: &mut Cursor) -> Result<Items<Named>, Stop>
    ensures moves { OnOk result (Reads cursor.old cursor.new) }
    ensures reads { OnOk result (Reading (part Part.names ∷ []) cursor.old cursor.new) }
    ensures stops { IfErr result (λ stop. StopsAt (part Part.names ∷ []) cursor.old stop) }
    ensures derives { IfOk result (λ names. Listed TakesName cursor.old.rest.now cursor.new.rest.now names) }
{
    let mut names = Items::new(alloc);
    names.push(cursor.name()?)?;
    while cursor.symbol_if(Symbol::Comma)? {
        names.push(cursor.name()?)?;
    }
    Ok(names)
}

/// `RName = Name [ "." Name ]`
#[tactic(auto, using(syntax_grammar::specs::Paths::one_name, crate::proofs::Regions::second_name, crate::proofs::parts::PathParts::region_name_reading))]
fn region_name(cursor: &mut Cursor) -> Result<RName, Stop>
    ensures few { OnOk result (cursor.new.joined ≤ 32) }
    ensures moves { OnOk result (Reads cursor.old cursor.new) }
    ensures reads { OnOk result (Reading (part Part.region_name ∷ []) cursor.old cursor.new) }
    ensures stops { IfErr result (λ stop. StopsAt (part Part.region_name ∷ []) cursor.old stop) }
    ensures derives { IfOk result (λ name. DerivesRName cursor.old.rest.now cursor.new.rest.now name) }
{
    let first = cursor.name()?;
    let second = if cursor.symbol_if(Symbol::Dot)? {
        Some(cursor.name()?)
    } else {
        None
    };
    Ok(RName { first, second })
}

/// `Rpl = ( "Root" | RName ) { ":" Elem }`
#[tactic(auto, using(syntax_grammar::specs::Paths::path, crate::proofs::parts::PathParts::rpl_reading))]
pub fn rpl(alloc: Global, cursor: &mut Cursor) -> Result<RplTree, Stop>
    ensures same { OnOk result (cursor.new.joined ≡ cursor.old.joined) }
    ensures moves { OnOk result (Reads cursor.old cursor.new) }
    ensures reads { OnOk result (Reading (part Part.path ∷ []) cursor.old cursor.new) }
    ensures stops { IfErr result (λ stop. StopsAt (part Part.path ∷ []) cursor.old stop) }
    ensures derives { IfOk result (λ path. DerivesRpl cursor.old.rest.now cursor.new.rest.now path) }
{
    let outer = cursor.joined;
    cursor.joined = 0;
    let place = cursor.place();
    let head = head(cursor)?;
    let elems = elems(alloc, cursor)?;
    cursor.joined = outer;
    Ok(RplTree { place, head, elems })
}

#[tactic(auto, using(crate::proofs::Regions::head_root, crate::proofs::Regions::head_name, crate::proofs::parts::PathParts::head_reading))]
fn head(cursor: &mut Cursor) -> Result<RplHead, Stop>
    ensures few { OnOk result (cursor.new.joined ≤ 32) }
    ensures moves { OnOk result (Reads cursor.old cursor.new) }
    ensures reads { OnOk result (Reading (part Part.head ∷ []) cursor.old cursor.new) }
    ensures stops { IfErr result (λ stop. StopsAt (part Part.head ∷ []) cursor.old stop) }
    ensures derives { IfOk result (λ start. DerivesHead cursor.old.rest.now cursor.new.rest.now start) }
{
    if cursor.keyword_if(Keyword::Root)? {
        return Ok(RplHead::Root);
    }
    Ok(RplHead::Name(region_name(cursor)?))
}

/// `{ ":" Elem }`
#[tactic(auto, using(syntax_grammar::proofs::Lists::many_more, syntax_grammar::specs::Taking::none, crate::proofs::Regions::next_elem, crate::proofs::parts::PathParts::elems_reading))]
fn elems(alloc: Global, cursor: &mut Cursor) -> Result<Items<ElemTree>, Stop>
    requires { cursor.old.joined ≤ 32 }
    ensures moves { OnOk result (Keeps cursor.old cursor.new) }
    ensures reads { OnOk result (Reading (part Part.elems ∷ []) cursor.old cursor.new) }
    ensures stops { IfErr result (λ stop. StopsAt (part Part.elems ∷ []) cursor.old stop) }
    ensures derives { IfOk result (λ elems. Many DerivesNext cursor.old.rest.now cursor.new.rest.now elems) }
{
    let mut elems = Items::new(alloc);
    while cursor.symbol_if(Symbol::Colon)? {
        elems.push(elem(cursor)?)?;
    }
    Ok(elems)
}

/// `Elem = RName | "*" | "[" ( Int | Name | "?" ) "]"`, one more of its path
#[tactic(auto, using(crate::proofs::Regions::elem_star, crate::proofs::Regions::elem_name, crate::proofs::parts::PathParts::elem_reading))]
fn elem(cursor: &mut Cursor) -> Result<ElemTree, Stop>
    requires { cursor.old.joined ≤ 32 }
    ensures few { OnOk result (cursor.new.joined ≤ 32) }
    ensures moves { OnOk result (Reads cursor.old cursor.new) }
    ensures reads { OnOk result (Reading (part Part.elem ∷ []) cursor.old cursor.new) }
    ensures stops { IfErr result (λ stop. StopsAt (part Part.elem ∷ []) cursor.old stop) }
    ensures derives { IfOk result (λ tree. DerivesElem cursor.old.rest.now cursor.new.rest.now tree) }
{
    cursor.joined += 1;
    match cursor.next() {
        Some(Terminal::Symbol(Symbol::Star)) => {
            cursor.accept()?;
            Ok(ElemTree::Star)
        }
        Some(Terminal::Symbol(Symbol::OpenBracket)) => index(cursor),
        _ => Ok(ElemTree::Name(region_name(cursor)?)),
    }
}

/// `"[" ( Int | Name | "?" ) "]"`
#[tactic(auto, using(crate::proofs::Regions::elem_within, crate::proofs::parts::PathParts::index_reading))]
fn index(cursor: &mut Cursor) -> Result<ElemTree, Stop>
    ensures few { OnOk result (cursor.new.joined ≤ 32) }
    ensures moves { OnOk result (Reads cursor.old cursor.new) }
    ensures reads { OnOk result (Reading (part Part.index ∷ []) cursor.old cursor.new) }
    ensures stops { IfErr result (λ stop. StopsAt (part Part.index ∷ []) cursor.old stop) }
    ensures derives { IfOk result (λ tree. DerivesElem cursor.old.rest.now cursor.new.rest.now tree) }
{
    cursor.open(Symbol::OpenBracket)?;
    let elem = within(cursor)?;
    cursor.close(Symbol::CloseBracket)?;
    Ok(elem)
}

/// `Int | Name | "?"`
#[tactic(auto, using(syntax_grammar::specs::Paths::index, crate::proofs::Regions::within_number, crate::proofs::Regions::within_any, crate::proofs::parts::PathParts::within_reading))]
fn within(cursor: &mut Cursor) -> Result<ElemTree, Stop>
    ensures moves { OnOk result (Reads cursor.old cursor.new) }
    ensures reads { OnOk result (Reading (part Part.within ∷ []) cursor.old cursor.new) }
    ensures stops { IfErr result (λ stop. StopsAt (part Part.within ∷ []) cursor.old stop) }
    ensures derives { IfOk result (λ tree. DerivesWithin cursor.old.rest.now cursor.new.rest.now tree) }
{
    match cursor.next() {
        Some(Terminal::Int(number)) => {
            cursor.accept()?;
            Ok(ElemTree::Lit(*number))
        }
        Some(Terminal::Symbol(Symbol::Question)) => {
            cursor.accept()?;
            Ok(ElemTree::Any)
        }
        _ => Ok(ElemTree::Index(cursor.name()?)),
    }
}

/// `[ Args ]`
#[tactic(auto, using(syntax_grammar::specs::Paths::no_args, crate::proofs::parts::PathParts::args_if_reading))]
pub fn args_if(alloc: Global, cursor: &mut Cursor) -> Result<Items<RplTree>, Stop>
    ensures same { OnOk result (cursor.new.joined ≡ cursor.old.joined) }
    ensures moves { OnOk result (Keeps cursor.old cursor.new) }
    ensures reads { OnOk result (Reading (part Part.args_if ∷ []) cursor.old cursor.new) }
    ensures stops { IfErr result (λ stop. StopsAt (part Part.args_if ∷ []) cursor.old stop) }
    ensures derives { IfOk result (λ paths. DerivesArgs cursor.old.rest.now cursor.new.rest.now paths) }
{
    if !cursor.is_symbol(Symbol::Less) {
        return Ok(Items::new(alloc));
    }
    args(alloc, cursor)
}

/// `Args = "<" Rpl { "," Rpl } ">"`
#[tactic(auto, using(syntax_grammar::specs::Paths::args, crate::proofs::parts::PathParts::args_reading))]
pub fn args(alloc: Global, cursor: &mut Cursor) -> Result<Items<RplTree>, Stop>
    ensures same { OnOk result (cursor.new.joined ≡ cursor.old.joined) }
    ensures moves { OnOk result (Reads cursor.old cursor.new) }
    ensures reads { OnOk result (Reading (part Part.args ∷ []) cursor.old cursor.new) }
    ensures stops { IfErr result (λ stop. StopsAt (part Part.args ∷ []) cursor.old stop) }
    ensures derives { IfOk result (λ paths. DerivesArgs cursor.old.rest.now cursor.new.rest.now paths) }
{
    cursor.symbol(Symbol::Less)?;
    let args = paths(alloc, cursor)?;
    cursor.symbol(Symbol::Greater)?;
    Ok(args)
}

/// `Rpl { "," Rpl }`
#[tactic(auto, using(syntax_grammar::proofs::Lists::listed_more, syntax_grammar::specs::Taking::last, crate::proofs::parts::PathParts::paths_reading))]
fn paths(alloc: Global, cursor: &mut Cursor) -> Result<Items<RplTree>, Stop>
    ensures same { OnOk result (cursor.new.joined ≡ cursor.old.joined) }
    ensures moves { OnOk result (Reads cursor.old cursor.new) }
    ensures reads { OnOk result (Reading (part Part.path ∷ part Part.more_paths ∷ []) cursor.old cursor.new) }
    ensures stops { IfErr result (λ stop. StopsAt (part Part.path ∷ part Part.more_paths ∷ []) cursor.old stop) }
    ensures derives { IfOk result (λ paths. Listed DerivesRpl cursor.old.rest.now cursor.new.rest.now paths) }
{
    let mut paths = Items::new(alloc);
    paths.push(rpl(alloc, cursor)?)?;
    while cursor.symbol_if(Symbol::Comma)? {
        paths.push(rpl(alloc, cursor)?)?;
    }
    Ok(paths)
}
