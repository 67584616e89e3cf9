ghost use Rattle.std.specs.Prelude.{◌≡◌, ◌||◌, [], IfOk, OnOk, IfErr, ◌∷◌};
ghost use Rattle.syntax_exprs.specs.Counted.{Reading, StopsAt};
ghost use Rattle.syntax_grammar.specs.Expecting.{Part, next_is, next_of, one, part};
ghost use Rattle.syntax_grammar.specs.Classes.{DerivesConstr, DerivesDeclared, DerivesGiven, DerivesKind, DerivesKindOr, DerivesParam, DerivesParams};
ghost use Rattle.syntax_exprs.specs.Progress.{Keeps, Reads};
ghost use Rattle.syntax_grammar.specs.Taking.{Listed};
ghost use Rattle.syntax_grammar.specs.Words.{is_atomic, is_name, is_region};

use lang_base::{Items, Stop};
use std::alloc::Global;
use syntax_exprs::{Cursor, rpl};
use syntax_tokens::{Keyword, Symbol};
use syntax_tree::{ConstrTree, ParamTree, Params};

/// `[ Params ]`
#[tactic(auto, using(syntax_grammar::specs::Classes::no_params, crate::proofs::parts::ParamParts::params_if_reading))]
pub fn params_if(alloc: Global, cursor: &mut Cursor) -> Result<Params, Stop>
    ensures moves { OnOk result (Keeps cursor.old cursor.new) }
    ensures reads { OnOk result (Reading (part Part.params_if ∷ []) cursor.old cursor.new) }
    ensures stops { IfErr result (λ stop. StopsAt (part Part.params_if ∷ []) cursor.old stop) }
    ensures derives { IfOk result (λ params. DerivesParams cursor.old.rest.now cursor.new.rest.now params) }
{
    if !cursor.is_symbol(Symbol::Less) {
        return Ok(no_params(alloc));
    }
    params(alloc, cursor)
}

/// No region parameters are written.
pub fn no_params(alloc: Global) -> Params
    ensures { result ≡ record { list = []; given = [] } }
{
    Params {
        list: Items::new(alloc),
        given: Items::new(alloc),
    }
}

/// `Params = "<" Kind Name { "," [ Kind ] Name } [ "|" Constr { "," Constr } ] ">"`
#[tactic(auto, using(syntax_grammar::specs::Classes::params, crate::proofs::parts::ParamParts::params_reading))]
fn params(alloc: Global, cursor: &mut Cursor) -> Result<Params, Stop>
    ensures moves { OnOk result (Reads cursor.old cursor.new) }
    ensures reads { OnOk result (Reading (part Part.params ∷ []) cursor.old cursor.new) }
    ensures stops { IfErr result (λ stop. StopsAt (part Part.params ∷ []) cursor.old stop) }
    ensures derives { IfOk result (λ params. DerivesParams cursor.old.rest.now cursor.new.rest.now params) }
{
    cursor.symbol(Symbol::Less)?;
    let list = declared(alloc, cursor)?;
    let given = given(alloc, cursor)?;
    cursor.symbol(Symbol::Greater)?;
    Ok(Params { list, given })
}

/// `Kind Name { "," [ Kind ] Name }`: a bare name has the kind of the one before it.
#[tactic(auto, using(crate::proofs::ParamForms::declares_first, crate::proofs::ParamForms::declares_more, crate::proofs::ParamForms::declares_done, crate::proofs::parts::ParamParts::declared_reading))]
fn declared(alloc: Global, cursor: &mut Cursor) -> Result<Items<ParamTree>, Stop>
    ensures moves { OnOk result (Reads cursor.old cursor.new) }
    ensures reads { OnOk result (Reading (part Part.kind ∷ one is_name ∷ part Part.more_declared ∷ []) cursor.old cursor.new) }
    ensures stops { IfErr result (λ stop. StopsAt (part Part.kind ∷ one is_name ∷ part Part.more_declared ∷ []) cursor.old stop) }
    ensures derives { IfOk result (λ list. DerivesDeclared cursor.old.rest.now cursor.new.rest.now list) }
{
    let mut list = Items::new(alloc);
    let mut atomic = kind(cursor)?;
    list.push(param(cursor, atomic)?)?;
    while cursor.symbol_if(Symbol::Comma)? {
        atomic = kind_or(cursor, atomic)?;
        list.push(param(cursor, atomic)?)?;
    }
    Ok(list)
}

#[tactic(auto, using(syntax_grammar::specs::Classes::param))]
fn param(cursor: &mut Cursor, atomic: bool) -> Result<ParamTree, Stop>
    ensures moves { OnOk result (Reads cursor.old cursor.new) }
    ensures reads { OnOk result (Reading (one is_name ∷ []) cursor.old cursor.new) }
    ensures stops { IfErr result (λ stop. StopsAt (one is_name ∷ []) cursor.old stop) }
    ensures derives { IfOk result (λ tree. DerivesParam atomic cursor.old.rest.now cursor.new.rest.now tree) }
{
    let named = cursor.name()?;
    Ok(ParamTree {
        place: named.place,
        name: named.name,
        atomic,
    })
}

/// Whether `atomic` or `region` comes next.
#[tactic(auto, using(crate::proofs::parts::ParamParts::begins_kind_reading))]
pub fn begins_kind(cursor: &Cursor) -> bool
    ensures { result ≡ (next_is is_atomic (next_of cursor.now.rest.now) || next_is is_region (next_of cursor.now.rest.now)) }
{
    cursor.is_keyword(Keyword::Atomic) || cursor.is_keyword(Keyword::Region)
}

/// `Kind = [ "atomic" ] "region"`: whether it is atomic.
#[tactic(auto, using(crate::proofs::ParamForms::kind_of, crate::proofs::parts::ParamParts::kind_reading))]
pub fn kind(cursor: &mut Cursor) -> Result<bool, Stop>
    ensures moves { OnOk result (Reads cursor.old cursor.new) }
    ensures reads { OnOk result (Reading (part Part.kind ∷ []) cursor.old cursor.new) }
    ensures stops { IfErr result (λ stop. StopsAt (part Part.kind ∷ []) cursor.old stop) }
    ensures derives { IfOk result (λ atomic. DerivesKind cursor.old.rest.now cursor.new.rest.now atomic) }
{
    let atomic = cursor.keyword_if(Keyword::Atomic)?;
    cursor.keyword(Keyword::Region)?;
    Ok(atomic)
}

/// `[ Kind ]`: whether it is atomic, or the one before it.
#[tactic(auto, using(syntax_grammar::specs::Classes::same, syntax_grammar::specs::Classes::other, crate::proofs::parts::ParamParts::kind_or_reading))]
fn kind_or(cursor: &mut Cursor, earlier: bool) -> Result<bool, Stop>
    ensures moves { OnOk result (Keeps cursor.old cursor.new) }
    ensures reads { OnOk result (Reading (part Part.kind_if ∷ []) cursor.old cursor.new) }
    ensures stops { IfErr result (λ stop. StopsAt (part Part.kind_if ∷ []) cursor.old stop) }
    ensures derives { IfOk result (λ atomic. DerivesKindOr earlier cursor.old.rest.now cursor.new.rest.now atomic) }
{
    if begins_kind(cursor) {
        return kind(cursor);
    }
    Ok(earlier)
}

/// `[ "|" Constr { "," Constr } ]`
#[tactic(auto, using(syntax_grammar::specs::Classes::nothing_given, crate::proofs::ParamForms::given_after, crate::proofs::parts::ParamParts::given_reading))]
fn given(alloc: Global, cursor: &mut Cursor) -> Result<Items<ConstrTree>, Stop>
    ensures moves { OnOk result (Keeps cursor.old cursor.new) }
    ensures reads { OnOk result (Reading (part Part.given ∷ []) cursor.old cursor.new) }
    ensures stops { IfErr result (λ stop. StopsAt (part Part.given ∷ []) cursor.old stop) }
    ensures derives { IfOk result (λ given. DerivesGiven cursor.old.rest.now cursor.new.rest.now given) }
{
    if !cursor.symbol_if(Symbol::Bar)? {
        return Ok(Items::new(alloc));
    }
    constraints(alloc, cursor)
}

/// `Constr { "," Constr }`
#[tactic(auto, using(syntax_grammar::proofs::Lists::listed_more, syntax_grammar::specs::Taking::last, crate::proofs::parts::ParamParts::constraints_reading))]
fn constraints(alloc: Global, cursor: &mut Cursor) -> Result<Items<ConstrTree>, Stop>
    ensures moves { OnOk result (Reads cursor.old cursor.new) }
    ensures reads { OnOk result (Reading (part Part.constraint ∷ part Part.more_constraints ∷ []) cursor.old cursor.new) }
    ensures stops { IfErr result (λ stop. StopsAt (part Part.constraint ∷ part Part.more_constraints ∷ []) cursor.old stop) }
    ensures derives { IfOk result (λ given. Listed DerivesConstr cursor.old.rest.now cursor.new.rest.now given) }
{
    let mut given = Items::new(alloc);
    given.push(constraint(alloc, cursor)?)?;
    while cursor.symbol_if(Symbol::Comma)? {
        given.push(constraint(alloc, cursor)?)?;
    }
    Ok(given)
}

/// `Constr = Rpl "#" Rpl`
#[tactic(auto, using(syntax_grammar::specs::Classes::constraint, crate::proofs::parts::ParamParts::constraint_reading))]
fn constraint(alloc: Global, cursor: &mut Cursor) -> Result<ConstrTree, Stop>
    ensures moves { OnOk result (Reads cursor.old cursor.new) }
    ensures reads { OnOk result (Reading (part Part.constraint ∷ []) cursor.old cursor.new) }
    ensures stops { IfErr result (λ stop. StopsAt (part Part.constraint ∷ []) cursor.old stop) }
    ensures derives { IfOk result (λ tree. DerivesConstr cursor.old.rest.now cursor.new.rest.now tree) }
{
    let left = rpl(alloc, cursor)?;
    cursor.symbol(Symbol::Hash)?;
    let right = rpl(alloc, cursor)?;
    Ok(ConstrTree { left, right })
}
