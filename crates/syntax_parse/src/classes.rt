ghost use Rattle.std.specs.Prelude.{◌≡◌, IfOk, OnOk, IfErr, [], ◌∷◌};
ghost use Rattle.syntax_exprs.specs.Counted.{Reading, StopsAt};
ghost use Rattle.syntax_grammar.specs.Expecting.{Part, part};
ghost use Rattle.syntax_grammar.specs.Classes.{DerivesClass, DerivesMember, DerivesMembers, DerivesParent, DerivesProgram};
ghost use Rattle.syntax_exprs.specs.Progress.{Keeps, Reads};
ghost use Rattle.syntax_grammar.specs.Taking.{Many};

use crate::members::member;
use crate::params::params_if;
use lang_base::{Items, Stop};
use std::alloc::Global;
use syntax_exprs::{Cursor, args_if};
use syntax_tokens::{Keyword, Symbol};
use syntax_tree::{Class, Member, Parent};

/// `Class { Class }` up to the end of the text
#[tactic(auto, using(syntax_grammar::proofs::Lists::many_more, syntax_grammar::proofs::Lists::many_one, crate::proofs::MemberForms::program_of, crate::proofs::parts::ClassParts::program_refused, crate::proofs::parts::ClassParts::program_begun, crate::proofs::parts::ClassParts::more_classes_round, crate::proofs::parts::ClassParts::more_classes_end, crate::proofs::parts::ClassParts::more_classes_refused))]
pub fn classes(alloc: Global, cursor: &mut Cursor) -> Result<Items<Class>, Stop>
    ensures moves { OnOk result (Reads cursor.old cursor.new) }
    ensures reads { OnOk result (Reading (part Part.program ∷ []) cursor.old cursor.new) }
    ensures stops { IfErr result (λ stop. StopsAt (part Part.program ∷ []) cursor.old stop) }
    ensures ends { OnOk result (cursor.new.rest.now ≡ []) }
    ensures derives { IfOk result (λ classes. DerivesProgram cursor.old.rest.now classes) }
{
    let mut classes = Items::new(alloc);
    classes.push(class(alloc, cursor)?)?;
    while !cursor.rest.is_empty() {
        classes.push(class(alloc, cursor)?)?;
    }
    Ok(classes)
}

/// `Class = "class" Name [ Params ] [ "extends" Name [ Args ] ] "{" { Member } "}"`
#[tactic(auto, using(syntax_grammar::specs::Classes::class, crate::proofs::parts::ClassParts::class_reads, crate::proofs::parts::ClassParts::class_refused, syntax_exprs::proofs::Composed::refused_first, syntax_exprs::proofs::InTurn::refused_second, syntax_exprs::proofs::InTurn::refused_third, syntax_exprs::proofs::InTurn::refused_fourth, syntax_exprs::proofs::InTurn::refused_fifth))]
fn class(alloc: Global, cursor: &mut Cursor) -> Result<Class, Stop>
    ensures moves { OnOk result (Reads cursor.old cursor.new) }
    ensures reads { OnOk result (Reading (part Part.class ∷ []) cursor.old cursor.new) }
    ensures stops { IfErr result (λ stop. StopsAt (part Part.class ∷ []) cursor.old stop) }
    ensures derives { IfOk result (λ tree. DerivesClass cursor.old.rest.now cursor.new.rest.now tree) }
{
    cursor.keyword(Keyword::Class)?;
    let named = cursor.name()?;
    let params = params_if(alloc, cursor)?;
    let parent = parent(alloc, cursor)?;
    let members = members(alloc, cursor)?;
    Ok(Class {
        place: named.place,
        name: named.name,
        params,
        parent,
        members,
    })
}

/// `[ "extends" Name [ Args ] ]`
#[tactic(auto, using(syntax_grammar::specs::Classes::no_parent, crate::proofs::MemberForms::parent_of, crate::proofs::parts::ClassParts::parent_none, crate::proofs::parts::ClassParts::parent_reads, crate::proofs::parts::ClassParts::parent_lost, crate::proofs::parts::ClassParts::parent_name_refused, crate::proofs::parts::ClassParts::parent_args_refused))]
fn parent(alloc: Global, cursor: &mut Cursor) -> Result<Option<Parent>, Stop>
    ensures moves { OnOk result (Keeps cursor.old cursor.new) }
    ensures reads { OnOk result (Reading (part Part.parent_if ∷ []) cursor.old cursor.new) }
    ensures stops { IfErr result (λ stop. StopsAt (part Part.parent_if ∷ []) cursor.old stop) }
    ensures derives { IfOk result (λ parent. DerivesParent cursor.old.rest.now cursor.new.rest.now parent) }
{
    if !cursor.keyword_if(Keyword::Extends)? {
        return Ok(None);
    }
    let name = cursor.name()?;
    let args = args_if(alloc, cursor)?;
    Ok(Some(Parent { name, args }))
}

/// `"{" { Member } "}"`
#[tactic(auto, using(crate::proofs::MemberForms::members_of, crate::proofs::parts::ClassParts::members_reads, crate::proofs::parts::ClassParts::members_refused, syntax_exprs::proofs::Composed::refused_first, syntax_exprs::proofs::InTurn::refused_second, syntax_exprs::proofs::InTurn::refused_third))]
fn members(alloc: Global, cursor: &mut Cursor) -> Result<Items<Member>, Stop>
    ensures moves { OnOk result (Reads cursor.old cursor.new) }
    ensures reads { OnOk result (Reading (part Part.members ∷ []) cursor.old cursor.new) }
    ensures stops { IfErr result (λ stop. StopsAt (part Part.members ∷ []) cursor.old stop) }
    ensures derives { IfOk result (λ members. DerivesMembers cursor.old.rest.now cursor.new.rest.now members) }
{
    cursor.open(Symbol::OpenBrace)?;
    let members = member_list(alloc, cursor)?;
    cursor.close(Symbol::CloseBrace)?;
    Ok(members)
}

/// `{ Member }`
#[tactic(auto, using(syntax_grammar::proofs::Lists::many_more, syntax_grammar::specs::Taking::none, crate::proofs::parts::ClassParts::member_list_round, crate::proofs::parts::ClassParts::member_list_end, crate::proofs::parts::ClassParts::member_list_refused))]
fn member_list(alloc: Global, cursor: &mut Cursor) -> Result<Items<Member>, Stop>
    ensures moves { OnOk result (Keeps cursor.old cursor.new) }
    ensures reads { OnOk result (Reading (part Part.member_list ∷ []) cursor.old cursor.new) }
    ensures stops { IfErr result (λ stop. StopsAt (part Part.member_list ∷ []) cursor.old stop) }
    ensures derives { IfOk result (λ members. Many DerivesMember cursor.old.rest.now cursor.new.rest.now members) }
{
    let mut members = Items::new(alloc);
    while !cursor.is_symbol(Symbol::CloseBrace) {
        members.push(member(alloc, cursor)?)?;
    }
    Ok(members)
}
