ghost use Rattle.std.specs.Prelude.{◌≡◌, ◌+◌, ◌<◌, ◌≤◌, ◌↔◌, true, [], ◌∷◌, MatchOption, OnOk, IfErr, IfOk, IsTrue};

use lang_base::{Kind, Place, Refusal, Stop};
use syntax_tokens::{Keyword, Placed, Symbol, Terminal};
use syntax_tree::Named;

/// How deep a text may nest, and how many operators, elements and suffixes may follow each other.
pub const MOST: u32 = 32;

/// Where the reading of a text stands.
#[derive(Clone, Copy)]
pub struct Cursor<'a> {
    /// The place after the text.
    pub end: Place,
    /// The terminals that are still to come.
    pub rest: &'a [Placed],
    /// How many brackets are open, and how many bodies without braces we stand in.
    pub level: u32,
    /// How many operators, dots and brackets the expression has so far, elements the region path, or suffixes the type.
    pub joined: u32,

    /// No terminal is taken at a level over the greatest.
    pub ghost deep: { level ≤ 33 },

    /// None is taken that is one too many.
    pub ghost few: { joined ≤ 33 },
}

impl<'a> Cursor<'a> {
    ghost use Rattle.lang_base.specs.Refused.{IfRefused};
    ghost use Rattle.syntax_exprs.specs.Counted.{HaltsAt, IsPlain, Reading, StopsAt, Took, counts};
    ghost use Rattle.syntax_grammar.specs.Expecting.{one};
    ghost use Rattle.syntax_grammar.specs.Limits.{Counts, Fits, Refuses, Within, deeper, higher, more, past};
    ghost use Rattle.syntax_exprs.specs.Progress.{Closes, Opens, Reads, ReadsIf};
    ghost use Rattle.syntax_grammar.specs.Taking.{Next, StandsAt, TakesIf, TakesKeyword, TakesName, TakesNext, TakesOne, TakesSymbol, place_of};
    ghost use Rattle.syntax_exprs.specs.Targets.{rest_of};
    ghost use Rattle.syntax_grammar.specs.Words.{is_name, is_open_bracket, sign, word};

    /// The next terminal.
    pub fn next(&self) -> Option<&'a Terminal>
        ensures { MatchOption result (self.now.rest.now ≡ []) (λ next. Next next.now self.now.rest.now) }
    {
        match self.rest {
            [first, ..] => Some(&first.terminal),
            [] => None,
        }
    }

    /// The terminal after the next one.
    pub fn second(&self) -> Option<&'a Terminal>
        ensures { MatchOption result (rest_of self.now.rest.now ≡ []) (λ next. Next next.now (rest_of self.now.rest.now)) }
    {
        match self.rest {
            [_, second, ..] => Some(&second.terminal),
            _ => None,
        }
    }

    /// The terminal after the second one.
    pub fn third(&self) -> Option<&'a Terminal>
        ensures { MatchOption result (rest_of (rest_of self.now.rest.now) ≡ []) (λ next. Next next.now (rest_of (rest_of self.now.rest.now))) }
    {
        match self.rest {
            [_, _, third, ..] => Some(&third.terminal),
            _ => None,
        }
    }

    /// The place of the next terminal, or the end.
    pub fn place(&self) -> Place
        ensures place { result ≡ place_of self.now.rest.now self.now.end }
        ensures stands { StandsAt self.now.rest.now result }
    {
        match self.rest {
            [first, ..] => first.place,
            [] => self.end,
        }
    }

    pub fn is_symbol(&self, symbol: Symbol) -> bool
        ensures { IsTrue result ↔ Next (Terminal.Symbol symbol) self.now.rest.now }
    {
        match self.next() {
            Some(Terminal::Symbol(next)) => *next == symbol,
            _ => false,
        }
    }

    pub fn is_keyword(&self, keyword: Keyword) -> bool
        ensures { IsTrue result ↔ Next (Terminal.Keyword keyword) self.now.rest.now }
    {
        match self.next() {
            Some(Terminal::Keyword(next)) => *next == keyword,
            _ => false,
        }
    }

    /// No program goes on with the next terminal, or the text ends too early.
    pub fn unexpected(&self) -> Stop
        ensures { result ≡ Stop.Refused (record { kind = Kind.Syntax; place = place_of self.now.rest.now self.now.end }) }
    {
        Stop::Refused(Refusal {
            kind: Kind::Syntax,
            place: self.place(),
        })
    }

    /// Whether a terminal may stand here.
    fn fits(&self) -> bool
        ensures { IsTrue result ↔ Fits (counts self.now) }
    {
        self.level <= MOST && self.joined <= MOST
    }

    /// The next terminal is one too many.
    fn too_many(&self) -> Stop
        ensures { result ≡ Stop.Refused (record { kind = Kind.Nest; place = place_of self.now.rest.now self.now.end }) }
    {
        Stop::Refused(Refusal {
            kind: Kind::Nest,
            place: self.place(),
        })
    }

    /// Takes the next terminal, which the grammar has here, if it isn't one too many.
    #[tactic(auto, using(crate::proofs::Coming::ends_halts, crate::proofs::Coming::over_halts))]
    pub fn accept(&mut self) -> Result<(), Stop>
        ensures moves { OnOk result (Reads self.old self.new) }
        ensures takes { OnOk result (TakesNext self.old.rest.now self.new.rest.now (place_of self.old.rest.now self.old.end)) }
        ensures took { OnOk result (Took self.old self.new) }
        ensures halts { IfErr result (λ stop. HaltsAt (counts self.old) self.old stop) }
    {
        match self.rest {
            [] => Err(self.unexpected()),
            [_, following @ ..] => {
                if !self.fits() {
                    return Err(self.too_many());
                }
                self.rest = following;
                Ok(())
            }
        }
    }

    /// Takes a symbol that is no bracket, and tells where it stands.
    pub fn symbol(&mut self, symbol: Symbol) -> Result<Place, Stop>
        requires { IsPlain (Terminal.Symbol symbol) }
        ensures moves { OnOk result (Reads self.old self.new) }
        ensures takes { IfOk result (λ place. TakesSymbol symbol self.old.rest.now self.new.rest.now place) }
        ensures reads { OnOk result (Reading (one (sign symbol) ∷ []) self.old self.new) }
        ensures stops { IfErr result (λ stop. StopsAt (one (sign symbol) ∷ []) self.old stop) }
    {
        self.bracket(symbol)
    }

    /// Takes a symbol, and tells where it stands. The level stays as it is.
    #[tactic(auto, using(crate::proofs::Coming::lost_symbol, crate::proofs::Coming::halted_symbol, crate::proofs::Coming::read_symbol))]
    fn bracket(&mut self, symbol: Symbol) -> Result<Place, Stop>
        ensures moves { OnOk result (Reads self.old self.new) }
        ensures same { OnOk result (counts self.new ≡ counts self.old) }
        ensures takes { IfOk result (λ place. TakesSymbol symbol self.old.rest.now self.new.rest.now place) }
        ensures reads { OnOk result (Within (counts self.old) (one (sign symbol) ∷ []) self.old.rest.now (past (Terminal.Symbol symbol) (counts self.old)) self.new.rest.now) }
        ensures stops { IfErr result (λ stop. StopsAt (one (sign symbol) ∷ []) self.old stop) }
    {
        if !self.is_symbol(symbol) {
            return Err(self.unexpected());
        }
        let place = self.place();
        self.accept()?;
        Ok(place)
    }

    /// Takes a keyword, and tells where it stands.
    #[tactic(auto, using(crate::proofs::Coming::lost_keyword, crate::proofs::Coming::halted_keyword, crate::proofs::Coming::read_keyword))]
    pub fn keyword(&mut self, keyword: Keyword) -> Result<Place, Stop>
        ensures moves { OnOk result (Reads self.old self.new) }
        ensures takes { IfOk result (λ place. TakesKeyword keyword self.old.rest.now self.new.rest.now place) }
        ensures reads { OnOk result (Reading (one (word keyword) ∷ []) self.old self.new) }
        ensures stops { IfErr result (λ stop. StopsAt (one (word keyword) ∷ []) self.old stop) }
    {
        if !self.is_keyword(keyword) {
            return Err(self.unexpected());
        }
        let place = self.place();
        self.accept()?;
        Ok(place)
    }

    /// Takes a symbol that is no bracket where it comes next.
    pub fn symbol_if(&mut self, symbol: Symbol) -> Result<bool, Stop>
        requires { IsPlain (Terminal.Symbol symbol) }
        ensures moves { IfOk result (λ found. ReadsIf found self.old self.new) }
        ensures takes { IfOk result (λ found. TakesIf (Terminal.Symbol symbol) found self.old.rest.now self.new.rest.now) }
        ensures reads { IfOk result (λ found. found ≡ true → Reading (one (sign symbol) ∷ []) self.old self.new) }
        ensures stops { IfErr result (λ stop. Next (Terminal.Symbol symbol) self.old.rest.now × StopsAt (one (sign symbol) ∷ []) self.old stop) }
    {
        if !self.is_symbol(symbol) {
            return Ok(false);
        }
        self.symbol(symbol)?;
        Ok(true)
    }

    /// Takes a keyword where it comes next.
    pub fn keyword_if(&mut self, keyword: Keyword) -> Result<bool, Stop>
        ensures moves { IfOk result (λ found. ReadsIf found self.old self.new) }
        ensures takes { IfOk result (λ found. TakesIf (Terminal.Keyword keyword) found self.old.rest.now self.new.rest.now) }
        ensures reads { IfOk result (λ found. found ≡ true → Reading (one (word keyword) ∷ []) self.old self.new) }
        ensures stops { IfErr result (λ stop. Next (Terminal.Keyword keyword) self.old.rest.now × StopsAt (one (word keyword) ∷ []) self.old stop) }
    {
        if !self.is_keyword(keyword) {
            return Ok(false);
        }
        self.keyword(keyword)?;
        Ok(true)
    }

    /// Takes a name.
    #[tactic(auto, using(crate::proofs::Coming::lost_name, crate::proofs::Coming::halted_name, crate::proofs::Coming::read_name))]
    pub fn name(&mut self) -> Result<Named, Stop>
        ensures moves { OnOk result (Reads self.old self.new) }
        ensures takes { IfOk result (λ named. TakesName self.old.rest.now self.new.rest.now named) }
        ensures reads { OnOk result (Reading (one is_name ∷ []) self.old self.new) }
        ensures stops { IfErr result (λ stop. StopsAt (one is_name ∷ []) self.old stop) }
    {
        let Some(Terminal::Name(name)) = self.next() else {
            return Err(self.unexpected());
        };
        let place = self.place();
        self.accept()?;
        Ok(Named { name: *name, place })
    }

    /// Takes a bracket, and tells where it stands. What follows is a level deeper.
    pub fn open(&mut self, bracket: Symbol) -> Result<Place, Stop>
        requires { (c : Counts) → past (Terminal.Symbol bracket) c ≡ deeper c }
        ensures moves { OnOk result (Opens self.old self.new) }
        ensures takes { IfOk result (λ place. TakesSymbol bracket self.old.rest.now self.new.rest.now place) }
        ensures reads { OnOk result (Reading (one (sign bracket) ∷ []) self.old self.new) }
        ensures stops { IfErr result (λ stop. StopsAt (one (sign bracket) ∷ []) self.old stop) }
    {
        let place = self.bracket(bracket)?;
        self.level += 1;
        Ok(place)
    }

    /// Takes the bracket that closes the level.
    pub fn close(&mut self, bracket: Symbol) -> Result<(), Stop>
        requires level { 1 ≤ self.old.level }
        requires bracket { (c : Counts) → past (Terminal.Symbol bracket) c ≡ higher c }
        ensures moves { OnOk result (Closes self.old self.new) }
        ensures takes { OnOk result (TakesOne (Terminal.Symbol bracket) self.old.rest.now self.new.rest.now) }
        ensures reads { OnOk result (Reading (one (sign bracket) ∷ []) self.old self.new) }
        ensures stops { IfErr result (λ stop. StopsAt (one (sign bracket) ∷ []) self.old stop) }
    {
        self.bracket(bracket)?;
        self.level -= 1;
        Ok(())
    }

    /// Takes an operator or a dot of an expression, and tells where it stands.
    pub fn join(&mut self) -> Result<Place, Stop>
        requires { self.old.joined ≤ 32 }
        ensures moves { OnOk result (Reads self.old self.new) }
        ensures takes { IfOk result (λ place. TakesNext self.old.rest.now self.new.rest.now place) }
        ensures counted { OnOk result (counts self.new ≡ more (counts self.old)) }
        ensures fits { OnOk result (Fits (more (counts self.old))) }
        ensures halts { IfErr result (λ stop. HaltsAt (more (counts self.old)) self.old stop) }
    {
        self.joined += 1;
        let place = self.place();
        self.accept()?;
        Ok(place)
    }

    /// Takes a `[` of an expression or a type, and tells where it stands. What follows is a level deeper.
    pub fn join_open(&mut self) -> Result<Place, Stop>
        requires { self.old.joined ≤ 32 }
        ensures moves { OnOk result (Opens self.old self.new) }
        ensures takes { IfOk result (λ place. TakesSymbol Symbol.OpenBracket self.old.rest.now self.new.rest.now place) }
        ensures reads { OnOk result (Within (more (counts self.old)) (one is_open_bracket ∷ []) self.old.rest.now (counts self.new) self.new.rest.now) }
        ensures stops { IfErr result (λ stop. IfRefused stop (Refuses (more (counts self.old)) (one is_open_bracket ∷ []) self.old.rest.now self.old.end)) }
    {
        self.joined += 1;
        self.open(Symbol::OpenBracket)
    }
}
