ghost use Rattle.std.specs.Prelude.{◌≡◌, ◌≤◌, ◌<◌, ◌+◌, ◌^◌, ◌∷◌, ◌++◌, ◌↔◌, [], ℕ, true, length, take, drop, List, IfSome, IfNone, IsUtf8, IsTrue, slice_index};
ghost use Rattle.std.specs.List.{prefix_len};
ghost use Rattle.std.specs.Str.Lossy.{utf8_valid_len};
ghost use Rattle.lang_base.specs.Lexical.{is_letter, is_digit, decimal_value};
ghost use Rattle.syntax_tokens.specs.Piece.{IsInside, ClosesAt, IsComment, HasLeadingZero, is_escape, is_no_line_feed};
ghost use Rattle.syntax_tokens.specs.Fault.{EndsInside};
ghost use Rattle.syntax_tokens.specs.Reading.{IsFound, Reads, BeginsOtherwise};

use crate::byte::{digits, is_blank, is_digit, is_escape, is_letter, is_plain, name_bytes};
use crate::table::{keyword_of, symbol_of};
use crate::token::TokenKind;
use lang_base::Kind;
use std::str;

/// The greatest int.
const GREATEST: u64 = 2147483647;

/// What the bytes begin with: a token, or else a blank or a comment, and its length.
#[derive(Clone, Copy)]
pub struct Found {
    pub token: Option<TokenKind>,
    pub len: usize,
}

/// Why the bytes begin with no piece, and how many stand before the place of the fault.
#[derive(Clone, Copy)]
pub struct Fault {
    pub kind: Kind,
    pub at: usize,
}

/// What the bytes begin with.
pub fn piece(bytes: &[u8]) -> Result<Found, Fault>
    requires { 0 < length bytes.now }
    ensures { Reads bytes.now result }
{
    match bytes {
        [b'/', b'/', following @ ..] => line_comment(bytes, following),
        [b'/', b'*', following @ ..] => block_comment(bytes, following),
        [b'"', following @ ..] => text(following),
        [first, ..] if is_blank(*first) => Ok(Found {
            token: None,
            len: 1,
        }),
        [first, ..] if is_letter(*first) => Ok(word(bytes)),
        [first, ..] if is_digit(*first) => int(bytes),
        _ => symbol(bytes),
    }
}

/// A fault of this kind after so many bytes.
fn syntax(at: usize) -> Fault
    ensures kind { result.kind ≡ Kind.Syntax }
    ensures at { result.at ≡ at }
{
    Fault {
        kind: Kind::Syntax,
        at,
    }
}

/// The first byte that isn't UTF-8.
fn utf8_fault(bytes: &[u8]) -> Option<usize>
    ensures none { IfNone result (IsUtf8 bytes.now) }
    ensures some { IfSome result (λ at. ¬ (IsUtf8 bytes.now) × (at ≡ utf8_valid_len bytes.now)) }
    ensures within { IfSome result (λ at. at < length bytes.now) }
{
    match str::from_utf8(bytes) {
        Ok(_) => None,
        Err(error) => Some(error.valid_up_to()),
    }
}

/// How many bytes stand before the line feed or the end.
fn line_len(bytes: &[u8]) -> usize
    ensures run { result ≡ prefix_len is_no_line_feed bytes.now }
    ensures within { result ≤ length bytes.now }
{
    bytes.iter().take_while(|byte| **byte != b'\n').count()
}

/// How many bytes stand before the first `*/`.
fn closing(bytes: &[u8]) -> Option<usize>
    ensures some { IfSome result (λ at. (at + 2 ≤ length bytes.now) × ClosesAt bytes.now at × ((k : ℕ) → k < at → ¬ (ClosesAt bytes.now k))) }
    ensures none { IfNone result ((k : ℕ) → ¬ (ClosesAt bytes.now k)) }
{
    for slash in 1..bytes.len() {
        if bytes[slash - 1] == b'*' && bytes[slash] == b'/' {
            return Some(slash - 1);
        }
    }
    None
}

/// A comment of so many bytes, all of them UTF-8.
fn comment(bytes: &[u8], len: usize) -> Result<Found, Fault>
    requires some { 0 < len }
    requires within { len ≤ length bytes.now }
    requires comment { IsComment (take len bytes.now) (drop len bytes.now) }
    ensures { Reads bytes.now result }
{
    match utf8_fault(&bytes[..len]) {
        Some(at) => Err(syntax(at)),
        None => Ok(Found { token: None, len }),
    }
}

/// A comment that begins with `//`.
fn line_comment(bytes: &[u8], following: &[u8]) -> Result<Found, Fault>
    requires { bytes.now ≡ 47 ∷ 47 ∷ following.now }
    ensures { Reads bytes.now result }
{
    comment(bytes, 2 + line_len(following))
}

/// A comment that begins with `/*`.
fn block_comment(bytes: &[u8], following: &[u8]) -> Result<Found, Fault>
    requires { bytes.now ≡ 47 ∷ 42 ∷ following.now }
    ensures { Reads bytes.now result }
{
    match closing(following) {
        Some(at) => comment(bytes, at + 4),
        None => Err(syntax(0)),
    }
}

/// The inside of a text, up to where it goes no further, and what is left.
fn split_inside(bytes: &[u8]) -> (&[u8], &[u8])
    ensures whole { bytes.now ≡ result.0.now ++ result.1.now }
    ensures inside { IsInside result.0.now }
    ensures ends { EndsInside result.1.now }
{
    let mut at = 0;
    loop {
        let len = part_len(&bytes[at..]);
        if len == 0 {
            return bytes.split_at(at);
        }
        at += len;
    }
}

/// The length of the plain byte or the escape that the bytes begin with, or 0.
fn part_len(bytes: &[u8]) -> usize
    ensures within { result ≤ length bytes.now }
    ensures part { 0 < result → (tail : List ℕ) → IsInside tail → IsInside (take result bytes.now ++ tail) }
    ensures none { result ≡ 0 → EndsInside bytes.now }
{
    match bytes {
        [] => 0,
        [first, following @ ..] => {
            if is_plain(*first) {
                1
            } else if *first == b'\\' && begins_escape(following) {
                2
            } else {
                0
            }
        }
    }
}

/// Whether a letter of an escape comes next.
#[tactic(auto, unfolding(crate::specs::Piece::is_escape))]
fn begins_escape(bytes: &[u8]) -> bool
    ensures { result ≡ is_escape (slice_index bytes.now 0) }
{
    match bytes {
        [] => false,
        [first, ..] => is_escape(*first),
    }
}

/// A text after its first quote.
fn text(following: &[u8]) -> Result<Found, Fault>
    requires { length following.now + 1 < 2 ^ 64 }
    ensures { Reads (34 ∷ following.now) result }
{
    let (inside, rest) = split_inside(following);
    if let Some(at) = utf8_fault(inside) {
        return Err(syntax(1 + at));
    }
    match rest.first() {
        None => Err(syntax(0)),
        Some(b'"') => Ok(Found {
            token: Some(TokenKind::Text),
            len: inside.len() + 2,
        }),
        Some(_) => Err(syntax(1 + inside.len())),
    }
}

/// A keyword or a name.
fn word(bytes: &[u8]) -> Found
    requires { is_letter (slice_index bytes.now 0) ≡ true }
    ensures { IsFound bytes.now result }
{
    let len = name_bytes(bytes);
    let kind = match keyword_of(&bytes[..len]) {
        Some(keyword) => TokenKind::Keyword(keyword),
        None => TokenKind::Name,
    };
    Found {
        token: Some(kind),
        len,
    }
}

/// An int.
fn int(bytes: &[u8]) -> Result<Found, Fault>
    requires { is_digit (slice_index bytes.now 0) ≡ true }
    ensures { Reads bytes.now result }
{
    let len = digits(bytes);
    let text = &bytes[..len];
    if has_leading_zero(text) || is_too_great(text) {
        return Err(Fault {
            kind: Kind::Number,
            at: 0,
        });
    }
    Ok(Found {
        token: Some(TokenKind::Int),
        len,
    })
}

/// Whether a zero stands before other digits.
fn has_leading_zero(digits: &[u8]) -> bool
    ensures { IsTrue result ↔ HasLeadingZero digits.now }
{
    digits.len() > 1 && digits[0] == b'0'
}

/// Whether digits spell a number over the greatest int.
fn is_too_great(digits: &[u8]) -> bool
    ensures { IsTrue result ↔ (GREATEST < decimal_value digits.now) }
{
    let mut value = 0;
    for digit in digits {
        value = 10 * value + u64::from(digit.saturating_sub(b'0'));
        if value > GREATEST {
            return true;
        }
    }
    false
}

/// The longest symbol, where nothing else begins.
fn symbol(bytes: &[u8]) -> Result<Found, Fault>
    requires other { BeginsOtherwise bytes.now }
    ensures { Reads bytes.now result }
{
    match symbol_of(bytes) {
        Some(symbol) => Ok(Found {
            token: Some(TokenKind::Symbol(symbol)),
            len: symbol.text().len(),
        }),
        None => Err(syntax(0)),
    }
}
