ghost use Rattle.std.specs.Prelude.{◌≡◌, ◌↔◌, IfOk, IsTrue, OnOk, IfErr, [], ◌∷◌};
ghost use Rattle.syntax_exprs.specs.Counted.{Reading, StopsAt};
ghost use Rattle.syntax_grammar.specs.Expecting.{Part, one, part};
ghost use Rattle.syntax_parse.specs.Members.{BeginsAnswering, BeginsTyped, IsItemsPart, constructor_comes, member_begins, type_begins};
ghost use Rattle.syntax_grammar.specs.Types.{DerivesType};
ghost use Rattle.syntax_grammar.specs.Words.{is_name, is_semicolon};
ghost use Rattle.syntax_grammar.specs.Classes.{BeginsEffects, DerivesField, DerivesFormal, DerivesFormalList, DerivesFormals, DerivesIn, DerivesItem, DerivesItemsIf, DerivesMember, DerivesMethod, DerivesNamed, DerivesResult, DerivesSummary};
ghost use Rattle.syntax_exprs.specs.Progress.{Keeps, Reads};
ghost use Rattle.syntax_grammar.specs.Taking.{Listed};

use crate::params::{begins_kind, kind, no_params, params_if};
use crate::stmts::block;
use lang_base::{Items, Stop};
use std::alloc::Global;
use syntax_exprs::{Cursor, named_type, names, rpl, ty};
use syntax_tokens::{Keyword, Symbol, Terminal};
use syntax_tree::{
    Field, Formal, Item, Member, Method, MethodResult, Named, Params, RplTree, SummaryTree,
    TypeTree,
};

/// `Member`: its types and expressions count anew.
#[tactic(auto, using(crate::proofs::parts::MemberParts::member_reads, crate::proofs::parts::MemberParts::member_refused))]
pub fn member(alloc: Global, cursor: &mut Cursor) -> Result<Member, Stop>
    ensures moves { OnOk result (Reads cursor.old cursor.new) }
    ensures reads { OnOk result (Reading (part Part.member ∷ []) cursor.old cursor.new) }
    ensures stops { IfErr result (λ stop. StopsAt (part Part.member ∷ []) cursor.old stop) }
    ensures derives { IfOk result (λ tree. DerivesMember cursor.old.rest.now cursor.new.rest.now tree) }
{
    let outer = cursor.joined;
    cursor.joined = 0;
    let member = kind_of_member(alloc, cursor)?;
    cursor.joined = outer;
    Ok(member)
}

/// A member of one of the four kinds, which its first two terminals tell.
#[tactic(auto, using(crate::proofs::MemberForms::constructor_of, crate::proofs::parts::MemberParts::regions_comes, crate::proofs::parts::MemberParts::regions_refused, crate::proofs::parts::MemberParts::answering_comes, crate::proofs::parts::MemberParts::answering_refused, crate::proofs::parts::MemberParts::constructor_reads, crate::proofs::parts::MemberParts::constructor_refused, crate::proofs::parts::MemberParts::typed_comes))]
fn kind_of_member(alloc: Global, cursor: &mut Cursor) -> Result<Member, Stop>
    ensures moves { OnOk result (Reads cursor.old cursor.new) }
    ensures reads { OnOk result (Reading (member_begins cursor.old.rest.now) cursor.old cursor.new) }
    ensures stops { IfErr result (λ stop. StopsAt (member_begins cursor.old.rest.now) cursor.old stop) }
    ensures derives { IfOk result (λ tree. DerivesMember cursor.old.rest.now cursor.new.rest.now tree) }
{
    if begins_kind(cursor) {
        return regions(alloc, cursor);
    }
    if begins_answering(cursor) {
        return answering(alloc, cursor);
    }
    if constructs(cursor) {
        return method(alloc, cursor, no_params(alloc), MethodResult::Constructor);
    }
    typed(alloc, cursor)
}

/// `Kind Name { "," Name } ";"`
#[tactic(auto, using(crate::proofs::MemberForms::regions_of, syntax_exprs::proofs::InTurn::read_three, syntax_exprs::proofs::Composed::refused_first, syntax_exprs::proofs::InTurn::refused_second, syntax_exprs::proofs::InTurn::refused_third))]
fn regions(alloc: Global, cursor: &mut Cursor) -> Result<Member, Stop>
    ensures moves { OnOk result (Reads cursor.old cursor.new) }
    ensures reads { OnOk result (Reading (part Part.kind ∷ part Part.names ∷ one is_semicolon ∷ []) cursor.old cursor.new) }
    ensures stops { IfErr result (λ stop. StopsAt (part Part.kind ∷ part Part.names ∷ one is_semicolon ∷ []) cursor.old stop) }
    ensures derives { IfOk result (λ tree. DerivesMember cursor.old.rest.now cursor.new.rest.now tree) }
{
    let atomic = kind(cursor)?;
    let names = names(alloc, cursor)?;
    cursor.symbol(Symbol::Semicolon)?;
    Ok(Member::Regions { atomic, names })
}

/// Whether region parameters or `void` come next.
fn begins_answering(cursor: &Cursor) -> bool
    ensures { IsTrue result ↔ BeginsAnswering cursor.now.rest.now }
{
    cursor.is_symbol(Symbol::Less) || cursor.is_keyword(Keyword::Void)
}

/// `[ Params ] ( Type | "void" ) Name "(" [ Formals ] ")" Summary Block`
#[tactic(auto, using(crate::proofs::MemberForms::method_of, crate::proofs::parts::MemberParts::answering_reads, syntax_exprs::proofs::Composed::refused_first, syntax_exprs::proofs::InTurn::refused_second, crate::proofs::parts::MemberParts::answering_method_refused))]
fn answering(alloc: Global, cursor: &mut Cursor) -> Result<Member, Stop>
    ensures moves { OnOk result (Reads cursor.old cursor.new) }
    ensures reads { OnOk result (Reading (part Part.params_if ∷ part Part.result ∷ one is_name ∷ part Part.method_rest ∷ []) cursor.old cursor.new) }
    ensures stops { IfErr result (λ stop. StopsAt (part Part.params_if ∷ part Part.result ∷ one is_name ∷ part Part.method_rest ∷ []) cursor.old stop) }
    ensures derives { IfOk result (λ tree. DerivesMember cursor.old.rest.now cursor.new.rest.now tree) }
{
    let params = params_if(alloc, cursor)?;
    let returns = result(alloc, cursor)?;
    method(alloc, cursor, params, returns)
}

/// Whether the member is a constructor.
#[tactic(auto, using(crate::proofs::parts::MemberParts::constructor_here, crate::proofs::parts::MemberParts::constructor_unopened, crate::proofs::parts::MemberParts::constructor_unnamed))]
fn constructs(cursor: &Cursor) -> bool
    ensures { result ≡ constructor_comes cursor.now.rest.now }
{
    match cursor.next() {
        Some(Terminal::Name(_)) => match cursor.second() {
            Some(Terminal::Symbol(Symbol::OpenParen)) => true,
            _ => false,
        },
        _ => false,
    }
}

/// `Type | "void"`
#[tactic(auto, using(crate::proofs::MemberForms::result_void, crate::proofs::MemberForms::result_value, crate::proofs::parts::MemberParts::result_void_reads, crate::proofs::parts::MemberParts::result_void_refused, crate::proofs::parts::MemberParts::result_value_reads, crate::proofs::parts::MemberParts::result_value_refused))]
fn result(alloc: Global, cursor: &mut Cursor) -> Result<MethodResult, Stop>
    ensures moves { OnOk result (Reads cursor.old cursor.new) }
    ensures reads { OnOk result (Reading (part Part.result ∷ []) cursor.old cursor.new) }
    ensures stops { IfErr result (λ stop. StopsAt (part Part.result ∷ []) cursor.old stop) }
    ensures derives { IfOk result (λ answer. DerivesResult cursor.old.rest.now cursor.new.rest.now answer) }
{
    if cursor.keyword_if(Keyword::Void)? {
        return Ok(MethodResult::Void);
    }
    Ok(MethodResult::Value(ty(alloc, cursor)?))
}

/// A field, or a method with a result and without region parameters.
#[tactic(auto, using(crate::proofs::MemberForms::typed_field, crate::proofs::MemberForms::typed_method, crate::proofs::parts::MemberParts::typed_refused, crate::proofs::parts::MemberParts::typed_name_refused))]
fn typed(alloc: Global, cursor: &mut Cursor) -> Result<Member, Stop>
    requires { BeginsTyped cursor.old.rest.now }
    ensures moves { OnOk result (Reads cursor.old cursor.new) }
    ensures reads { OnOk result (Reading (member_begins cursor.old.rest.now) cursor.old cursor.new) }
    ensures stops { IfErr result (λ stop. StopsAt (member_begins cursor.old.rest.now) cursor.old stop) }
    ensures derives { IfOk result (λ tree. DerivesMember cursor.old.rest.now cursor.new.rest.now tree) }
{
    let ty = member_type(alloc, cursor)?;
    let named = cursor.name()?;
    if cursor.is_symbol(Symbol::OpenParen) {
        return after_name(
            alloc,
            cursor,
            no_params(alloc),
            MethodResult::Value(ty),
            named,
        );
    }
    field(alloc, cursor, ty, named)
}

/// `Type`: what follows a name counts on, since the name could still have been a constructor's.
#[tactic(auto, using(crate::proofs::parts::MemberParts::type_by_name, crate::proofs::parts::MemberParts::type_by_name_refused, crate::proofs::parts::MemberParts::type_by_itself, crate::proofs::parts::MemberParts::type_by_itself_refused))]
fn member_type(alloc: Global, cursor: &mut Cursor) -> Result<TypeTree, Stop>
    ensures moves { OnOk result (Reads cursor.old cursor.new) }
    ensures reads { OnOk result (Reading (type_begins cursor.old.rest.now) cursor.old cursor.new) }
    ensures stops { IfErr result (λ stop. StopsAt (type_begins cursor.old.rest.now) cursor.old stop) }
    ensures derives { IfOk result (λ ty. DerivesType cursor.old.rest.now cursor.new.rest.now ty) }
{
    match cursor.next() {
        Some(Terminal::Name(_)) => named_type(alloc, cursor),
        _ => ty(alloc, cursor),
    }
}

/// `[ "in" Rpl ] ";"`
#[tactic(auto, using(crate::proofs::MemberForms::field_of, syntax_exprs::proofs::InTurn::read_two, syntax_exprs::proofs::Composed::refused_first, syntax_exprs::proofs::InTurn::refused_second))]
fn field(alloc: Global, cursor: &mut Cursor, ty: TypeTree, named: Named) -> Result<Member, Stop>
    ensures moves { OnOk result (Reads cursor.old cursor.new) }
    ensures reads { OnOk result (Reading (part Part.in_if ∷ one is_semicolon ∷ []) cursor.old cursor.new) }
    ensures stops { IfErr result (λ stop. StopsAt (part Part.in_if ∷ one is_semicolon ∷ []) cursor.old stop) }
    ensures derives { IfOk result (λ tree. DerivesField ty named cursor.old.rest.now cursor.new.rest.now tree) }
{
    let region = region_if(alloc, cursor)?;
    cursor.symbol(Symbol::Semicolon)?;
    Ok(Member::Field(Field {
        place: named.place,
        name: named.name,
        ty,
        region,
    }))
}

/// `[ "in" Rpl ]`
#[tactic(auto, using(syntax_grammar::specs::Classes::nowhere, crate::proofs::MemberForms::in_region_of, crate::proofs::parts::MemberParts::in_if_none, crate::proofs::parts::MemberParts::in_if_reads, crate::proofs::parts::MemberParts::in_if_lost, crate::proofs::parts::MemberParts::in_if_refused))]
fn region_if(alloc: Global, cursor: &mut Cursor) -> Result<Option<RplTree>, Stop>
    ensures moves { OnOk result (Keeps cursor.old cursor.new) }
    ensures reads { OnOk result (Reading (part Part.in_if ∷ []) cursor.old cursor.new) }
    ensures stops { IfErr result (λ stop. StopsAt (part Part.in_if ∷ []) cursor.old stop) }
    ensures derives { IfOk result (λ region. DerivesIn cursor.old.rest.now cursor.new.rest.now region) }
{
    if !cursor.keyword_if(Keyword::In)? {
        return Ok(None);
    }
    Ok(Some(rpl(alloc, cursor)?))
}

/// `Name "(" [ Formals ] ")" Summary Block`
#[tactic(auto, using(syntax_grammar::specs::Classes::named, syntax_exprs::proofs::InTurn::read_two, syntax_exprs::proofs::Composed::refused_first, syntax_exprs::proofs::InTurn::refused_second))]
fn method(
    alloc: Global,
    cursor: &mut Cursor,
    params: Params,
    returns: MethodResult,
) -> Result<Member, Stop>
    ensures moves { OnOk result (Reads cursor.old cursor.new) }
    ensures reads { OnOk result (Reading (one is_name ∷ part Part.method_rest ∷ []) cursor.old cursor.new) }
    ensures stops { IfErr result (λ stop. StopsAt (one is_name ∷ part Part.method_rest ∷ []) cursor.old stop) }
    ensures derives { IfOk result (λ tree. DerivesNamed params returns cursor.old.rest.now cursor.new.rest.now tree) }
{
    let named = cursor.name()?;
    after_name(alloc, cursor, params, returns, named)
}

/// `"(" [ Formals ] ")" Summary Block`
#[tactic(auto, using(crate::proofs::MemberForms::method_after, crate::proofs::parts::MemberParts::method_rest_reads, crate::proofs::parts::MemberParts::method_rest_refused, syntax_exprs::proofs::Composed::refused_first, syntax_exprs::proofs::InTurn::refused_second, syntax_exprs::proofs::InTurn::refused_third))]
fn after_name(
    alloc: Global,
    cursor: &mut Cursor,
    params: Params,
    returns: MethodResult,
    named: Named,
) -> Result<Member, Stop>
    ensures moves { OnOk result (Reads cursor.old cursor.new) }
    ensures reads { OnOk result (Reading (part Part.method_rest ∷ []) cursor.old cursor.new) }
    ensures stops { IfErr result (λ stop. StopsAt (part Part.method_rest ∷ []) cursor.old stop) }
    ensures derives { IfOk result (λ tree. DerivesMethod params returns named cursor.old.rest.now cursor.new.rest.now tree) }
{
    let formals = formals(alloc, cursor)?;
    let summary = summary(alloc, cursor)?;
    let body = block(alloc, cursor)?;
    Ok(Member::Method(Method {
        place: named.place,
        name: named.name,
        params,
        result: returns,
        formals,
        summary,
        body,
    }))
}

/// `"(" [ Formals ] ")"`
#[tactic(auto, using(crate::proofs::MemberForms::formals_of, crate::proofs::parts::MemberParts::formals_reads, crate::proofs::parts::MemberParts::formals_refused, syntax_exprs::proofs::Composed::refused_first, syntax_exprs::proofs::InTurn::refused_second, syntax_exprs::proofs::InTurn::refused_third))]
fn formals(alloc: Global, cursor: &mut Cursor) -> Result<Items<Formal>, Stop>
    ensures moves { OnOk result (Reads cursor.old cursor.new) }
    ensures reads { OnOk result (Reading (part Part.formals ∷ []) cursor.old cursor.new) }
    ensures stops { IfErr result (λ stop. StopsAt (part Part.formals ∷ []) cursor.old stop) }
    ensures derives { IfOk result (λ formals. DerivesFormals cursor.old.rest.now cursor.new.rest.now formals) }
{
    cursor.open(Symbol::OpenParen)?;
    let formals = formal_list(alloc, cursor)?;
    cursor.close(Symbol::CloseParen)?;
    Ok(formals)
}

/// `[ Formals ]` with `Formals = Type Name { "," Type Name }`
#[tactic(auto, using(syntax_grammar::specs::Classes::no_formals, syntax_grammar::specs::Classes::formals, syntax_grammar::proofs::Lists::listed_more, syntax_grammar::specs::Taking::last, crate::proofs::parts::MemberParts::formal_list_none, crate::proofs::parts::MemberParts::formal_list_refused, crate::proofs::parts::MemberParts::formal_list_begun, crate::proofs::parts::MemberParts::more_formals_round, crate::proofs::parts::MemberParts::more_formals_end, crate::proofs::parts::MemberParts::more_formals_lost, crate::proofs::parts::MemberParts::more_formals_refused))]
fn formal_list(alloc: Global, cursor: &mut Cursor) -> Result<Items<Formal>, Stop>
    ensures moves { OnOk result (Keeps cursor.old cursor.new) }
    ensures reads { OnOk result (Reading (part Part.formal_list ∷ []) cursor.old cursor.new) }
    ensures stops { IfErr result (λ stop. StopsAt (part Part.formal_list ∷ []) cursor.old stop) }
    ensures derives { IfOk result (λ formals. DerivesFormalList cursor.old.rest.now cursor.new.rest.now formals) }
{
    if cursor.is_symbol(Symbol::CloseParen) {
        return Ok(Items::new(alloc));
    }
    let mut formals = Items::new(alloc);
    formals.push(formal(alloc, cursor)?)?;
    while cursor.symbol_if(Symbol::Comma)? {
        formals.push(formal(alloc, cursor)?)?;
    }
    Ok(formals)
}

/// `Type Name`
#[tactic(auto, using(syntax_grammar::specs::Classes::formal, crate::proofs::parts::MemberParts::formal_reads, crate::proofs::parts::MemberParts::formal_refused, syntax_exprs::proofs::Composed::refused_first, syntax_exprs::proofs::InTurn::refused_second))]
fn formal(alloc: Global, cursor: &mut Cursor) -> Result<Formal, Stop>
    ensures moves { OnOk result (Reads cursor.old cursor.new) }
    ensures reads { OnOk result (Reading (part Part.formal ∷ []) cursor.old cursor.new) }
    ensures stops { IfErr result (λ stop. StopsAt (part Part.formal ∷ []) cursor.old stop) }
    ensures derives { IfOk result (λ tree. DerivesFormal cursor.old.rest.now cursor.new.rest.now tree) }
{
    let ty = ty(alloc, cursor)?;
    let named = cursor.name()?;
    Ok(Formal {
        place: named.place,
        name: named.name,
        ty,
    })
}

/// `Summary = [ "pure" | "reads" Items [ "writes" Items ] | "writes" Items ]`
#[tactic(auto, using(syntax_grammar::specs::Classes::no_summary, crate::proofs::MemberForms::summary_pure, crate::proofs::MemberForms::summary_effects, crate::proofs::parts::MemberParts::summary_effects_reads, crate::proofs::parts::MemberParts::summary_reads_refused, crate::proofs::parts::MemberParts::summary_writes_refused, crate::proofs::parts::MemberParts::summary_pure_reads, crate::proofs::parts::MemberParts::summary_pure_refused, crate::proofs::parts::MemberParts::summary_none, crate::specs::Members::reads, crate::specs::Members::writes))]
fn summary(alloc: Global, cursor: &mut Cursor) -> Result<Option<SummaryTree>, Stop>
    ensures moves { OnOk result (Keeps cursor.old cursor.new) }
    ensures reads { OnOk result (Reading (part Part.summary ∷ []) cursor.old cursor.new) }
    ensures stops { IfErr result (λ stop. StopsAt (part Part.summary ∷ []) cursor.old stop) }
    ensures derives { IfOk result (λ summary. DerivesSummary cursor.old.rest.now cursor.new.rest.now summary) }
{
    if begins_effects(cursor) {
        let reads = items_if(alloc, cursor, Keyword::Reads)?;
        let writes = items_if(alloc, cursor, Keyword::Writes)?;
        return Ok(Some(SummaryTree { reads, writes }));
    }
    if !cursor.keyword_if(Keyword::Pure)? {
        return Ok(None);
    }
    Ok(Some(SummaryTree {
        reads: Items::new(alloc),
        writes: Items::new(alloc),
    }))
}

/// Whether `reads` or `writes` comes next.
fn begins_effects(cursor: &Cursor) -> bool
    ensures { IsTrue result ↔ BeginsEffects cursor.now.rest.now }
{
    cursor.is_keyword(Keyword::Reads) || cursor.is_keyword(Keyword::Writes)
}

/// A keyword and Items, or neither.
#[tactic(auto, using(crate::proofs::MemberForms::items_none, crate::proofs::MemberForms::items_some, crate::proofs::parts::MemberParts::items_if_none, crate::proofs::parts::MemberParts::items_if_reads, crate::proofs::parts::MemberParts::items_if_lost, crate::proofs::parts::MemberParts::items_if_refused))]
fn items_if(alloc: Global, cursor: &mut Cursor, keyword: Keyword) -> Result<Items<Item>, Stop>
    ensures moves { OnOk result (Keeps cursor.old cursor.new) }
    ensures reads { OnOk result ((n : Part) → IsItemsPart keyword n → Reading (part n ∷ []) cursor.old cursor.new) }
    ensures stops { IfErr result (λ stop. (n : Part) → IsItemsPart keyword n → StopsAt (part n ∷ []) cursor.old stop) }
    ensures derives { IfOk result (λ items. DerivesItemsIf keyword cursor.old.rest.now cursor.new.rest.now items) }
{
    if !cursor.keyword_if(keyword)? {
        return Ok(Items::new(alloc));
    }
    items(alloc, cursor)
}

/// `Items = [ "atomic" ] Rpl { "," [ "atomic" ] Rpl }`
#[tactic(auto, using(syntax_grammar::proofs::Lists::listed_more, syntax_grammar::specs::Taking::last, crate::proofs::parts::MemberParts::items_refused, crate::proofs::parts::MemberParts::items_begun, crate::proofs::parts::MemberParts::more_items_round, crate::proofs::parts::MemberParts::more_items_end, crate::proofs::parts::MemberParts::more_items_lost, crate::proofs::parts::MemberParts::more_items_refused))]
fn items(alloc: Global, cursor: &mut Cursor) -> Result<Items<Item>, Stop>
    ensures moves { OnOk result (Reads cursor.old cursor.new) }
    ensures reads { OnOk result (Reading (part Part.items ∷ []) cursor.old cursor.new) }
    ensures stops { IfErr result (λ stop. StopsAt (part Part.items ∷ []) cursor.old stop) }
    ensures derives { IfOk result (λ items. Listed DerivesItem cursor.old.rest.now cursor.new.rest.now items) }
{
    let mut items = Items::new(alloc);
    items.push(item(alloc, cursor)?)?;
    while cursor.symbol_if(Symbol::Comma)? {
        items.push(item(alloc, cursor)?)?;
    }
    Ok(items)
}

/// `[ "atomic" ] Rpl`
#[tactic(auto, using(crate::proofs::MemberForms::item_of, crate::proofs::parts::MemberParts::item_reads, crate::proofs::parts::MemberParts::item_lost, crate::proofs::parts::MemberParts::item_refused))]
fn item(alloc: Global, cursor: &mut Cursor) -> Result<Item, Stop>
    ensures moves { OnOk result (Reads cursor.old cursor.new) }
    ensures reads { OnOk result (Reading (part Part.item ∷ []) cursor.old cursor.new) }
    ensures stops { IfErr result (λ stop. StopsAt (part Part.item ∷ []) cursor.old stop) }
    ensures derives { IfOk result (λ tree. DerivesItem cursor.old.rest.now cursor.new.rest.now tree) }
{
    let atomic = cursor.keyword_if(Keyword::Atomic)?;
    let rpl = rpl(alloc, cursor)?;
    Ok(Item { atomic, rpl })
}
