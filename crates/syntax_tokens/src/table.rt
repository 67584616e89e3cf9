ghost use Rattle.std.specs.Prelude.{◌≡◌, ◌==◌, ◌<◌, ◌+◌, true, false, nat_eq, IsTrue, IfSome, IfNone, ◌↔◌, ◌∷◌, [], map, filter, slice_index};
ghost use Rattle.std.specs.List.{Contains, starts_with};
ghost use Rattle.lang_base.specs.Lexical.{keywords};
ghost use Rattle.syntax_tokens.specs.Piece.{IsLongestSymbol};
ghost use Rattle.syntax_tokens.specs.Spelling.{symbol_text, keyword_text};
ghost use Rattle.syntax_tokens.specs.declared.token.Symbol.{Symbol};

use crate::token::{Keyword, Symbol};

/// The longest symbol that the bytes begin with.
pub fn symbol_of(bytes: &[u8]) -> Option<Symbol>
    ensures found { IfSome result (λ s. starts_with nat_eq bytes.now (symbol_text s) ≡ true) }
    ensures longest { IfSome result (λ s. IsLongestSymbol s bytes.now) }
    ensures none { IfNone result ((s : Symbol) → starts_with nat_eq bytes.now (symbol_text s) ≡ false) }
{
    match bytes {
        [] => None,
        [first] => single(*first),
        [first, second, ..] => match double(*first, *second) {
            Some(symbol) => Some(symbol),
            None => single(*first),
        },
    }
}

/// The symbol of two bytes.
fn double(first: u8, second: u8) -> Option<Symbol>
    ensures { (s : Symbol) → (result ≡ Some s) ↔ (symbol_text s ≡ first ∷ second ∷ []) }
{
    match (first, second) {
        (b'<', b'=') => Some(Symbol::AtMost),
        (b'>', b'=') => Some(Symbol::AtLeast),
        (b'=', b'=') => Some(Symbol::Equal),
        (b'!', b'=') => Some(Symbol::NotEqual),
        (b'&', b'&') => Some(Symbol::And),
        (b'|', b'|') => Some(Symbol::Or),
        _ => None,
    }
}

/// The symbol of one byte.
fn single(byte: u8) -> Option<Symbol>
    ensures { (s : Symbol) → (result ≡ Some s) ↔ (symbol_text s ≡ byte ∷ []) }
{
    match byte {
        b'{' => Some(Symbol::OpenBrace),
        b'}' => Some(Symbol::CloseBrace),
        b'(' => Some(Symbol::OpenParen),
        b')' => Some(Symbol::CloseParen),
        b'[' => Some(Symbol::OpenBracket),
        b']' => Some(Symbol::CloseBracket),
        b'<' => Some(Symbol::Less),
        b'>' => Some(Symbol::Greater),
        b'=' => Some(Symbol::Assign),
        b'+' => Some(Symbol::Plus),
        b'-' => Some(Symbol::Minus),
        b'*' => Some(Symbol::Star),
        b'/' => Some(Symbol::Slash),
        b'%' => Some(Symbol::Percent),
        b'!' => Some(Symbol::Not),
        b';' => Some(Symbol::Semicolon),
        b',' => Some(Symbol::Comma),
        b'.' => Some(Symbol::Dot),
        b':' => Some(Symbol::Colon),
        b'#' => Some(Symbol::Hash),
        b'|' => Some(Symbol::Bar),
        b'?' => Some(Symbol::Question),
        _ => None,
    }
}

/// The keyword that a word is.
pub fn keyword_of(word: &[u8]) -> Option<Keyword>
    ensures found { IfSome result (λ k. word.now ≡ keyword_text k) }
    ensures none { IfNone result (¬ (Contains keywords word.now)) }
{
    // Most names are short, and no keyword has a single letter.
    let [first, _, ..] = word else {
        return None;
    };
    for keyword in keywords_from(*first) {
        if spells(*keyword, word) {
            return Some(*keyword);
        }
    }
    None
}

/// The keywords that begin with a byte.
fn keywords_from(first: u8) -> &'static [Keyword]
    ensures { map keyword_text result.now ≡ filter (λ text. slice_index text 0 == first) keywords }
{
    match first {
        b'R' => &[Keyword::Root],
        b'a' => &[Keyword::Atomic],
        b'b' => &[Keyword::Boolean],
        b'c' => &[Keyword::Class, Keyword::Cobegin, Keyword::CobeginNd],
        b'e' => &[Keyword::Extends, Keyword::Else],
        b'f' => &[
            Keyword::Final,
            Keyword::Foreach,
            Keyword::ForeachNd,
            Keyword::ForeachParts,
            Keyword::False,
        ],
        b'i' => &[Keyword::In, Keyword::Int, Keyword::If],
        b'n' => &[Keyword::New, Keyword::Null],
        b'p' => &[Keyword::Pure, Keyword::Print],
        b'r' => &[Keyword::Region, Keyword::Reads, Keyword::Return],
        b't' => &[Keyword::This, Keyword::True],
        b'v' => &[Keyword::Void],
        b'w' => &[Keyword::Writes, Keyword::While],
        _ => &[],
    }
}

fn spells(keyword: Keyword, word: &[u8]) -> bool
    ensures { IsTrue result ↔ (keyword_text keyword ≡ word.now) }
{
    keyword.text().as_bytes() == word
}
