ghost use Rattle.std.specs.Prelude.{◌≡◌, ◌≤◌, ◌<◌, ◌+◌, ◌^◌, ◌++◌, length, take, List, ℕ, IfOk, IfErr, OnOk};
ghost use Rattle.std.specs.List.{fold};
ghost use Rattle.lang_base.specs.Refused.{IfRefused};
ghost use Rattle.syntax_tokens.specs.Cutting.{Cuts, FaultsAt, OneCutting, StandInOrder, token_at};
ghost use Rattle.syntax_tokens.specs.Place.{next_place};
ghost use Rattle.syntax_tokens.specs.declared.token.Token.{Token};
ghost use Rattle.lang_base.specs.declared.place.Place.{Place};

use crate::piece::{Fault, Found, piece};
use crate::token::{Token, Tokens};
use lang_base::{Items, NoMemory, Place, Refusal, Stop};
use std::alloc::Global;

/// The tokens of a text, or its first fault: `syntax` or `number`.
pub fn tokens(alloc: Global, bytes: &[u8]) -> Result<Tokens, Stop>
    requires { length bytes.now ≤ 1048576 }
    ensures cut { IfOk result (λ tokens. Cuts bytes.now tokens.list tokens.end) }
    ensures spans { IfOk result (λ tokens. StandInOrder bytes.now 0 tokens.list) }
    ensures fault { IfErr result (λ stop. IfRefused stop (λ refusal. FaultsAt bytes.now refusal)) }
{
    let mut list = Items::new(alloc);
    let mut place = Place { line: 1, col: 1 };
    let mut at = 0;
    while at < bytes.len() {
        let left = &bytes[at..];
        let found = match piece(left) {
            Ok(found) => found,
            Err(fault) => return Err(Stop::Refused(refused(place, left, fault))),
        };
        put(&mut list, at, place, found)?;
        place = following(place, &left[..found.len]);
        at += found.len;
    }
    Ok(Tokens { list, end: place })
}

/// Puts the token of a piece that begins at an offset and a place; a blank or a comment has none.
fn put(list: &mut Items<Token>, from: usize, place: Place, found: Found) -> Result<(), NoMemory>
    requires { from + found.len ≤ 1048576 }
    ensures { OnOk result (list.new ≡ list.old ++ token_at from found.len place found.token) }
{
    if let Some(kind) = found.token {
        list.push(Token {
            kind,
            from: from as u32,
            to: (from + found.len) as u32,
            place,
        })?;
    }
    Ok(())
}

/// The refusal for a fault of what is left after a place.
fn refused(place: Place, left: &[u8], fault: Fault) -> Refusal
    requires within { fault.at ≤ length left.now }
    requires column { 1 ≤ place.col }
    requires room { place.line + place.col + length left.now < 2 ^ 32 }
    ensures kind { result.kind ≡ fault.kind }
    ensures place { result.place ≡ fold next_place place (take fault.at left.now) }
{
    Refusal {
        kind: fault.kind,
        place: following(place, &left[..fault.at]),
    }
}

/// The place after bytes that begin at a place.
fn following(place: Place, bytes: &[u8]) -> Place
    requires column { 1 ≤ place.col }
    requires room { place.line + place.col + length bytes.now < 2 ^ 32 }
    ensures place { result ≡ fold next_place place bytes.now }
    ensures column { 1 ≤ result.col }
    ensures room { result.line + result.col ≤ place.line + place.col + length bytes.now }
{
    let mut place = place;
    for byte in bytes {
        place = if *byte == b'\n' {
            Place {
                line: place.line + 1,
                col: 1,
            }
        } else {
            Place {
                line: place.line,
                col: place.col + 1,
            }
        };
    }
    place
}

/// The tokens of a text stand in it in order, each where its span says, whichever call cut it.
pub fn tokens_stand()
    ensures { (bytes : List ℕ) (tokens : List Token) (end : Place) → Cuts bytes tokens end → StandInOrder bytes 0 tokens }
{}

/// A text has one list of tokens and one end, or one first fault, and never both.
pub fn one_cutting()
    ensures { OneCutting }
{}
