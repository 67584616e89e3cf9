ghost use Rattle.std.specs.Prelude.{◌≡◌, ◌≤◌, ◌<◌, ◌+◌, length, slice_range, IfOk, OnOk};
ghost use Rattle.syntax_tokens.specs.Cutting.{StandInOrder, Stands};
ghost use Rattle.syntax_tokens.specs.Says.{CanSay, Means, MeanAll, distinct_names, with_token};

use crate::names::Names;
use crate::spelling::{number, unescaped};
use crate::terminal::{Placed, Terminal, Terminals};
use crate::{Token, TokenKind, Tokens};
use lang_base::{Items, NoMemory};
use std::alloc::Global;

/// What the tokens of a text say.
pub fn terminals(alloc: Global, bytes: &[u8], tokens: &Tokens) -> Result<Terminals, NoMemory>
    requires small { length bytes.now ≤ 1048576 }
    requires stand { StandInOrder bytes.now 0 tokens.now.list }
    ensures count { IfOk result (λ found. length found.list ≡ length tokens.now.list) }
    ensures small { IfOk result (λ found. length found.list ≤ length bytes.now) }
    ensures said { IfOk result (λ found. MeanAll found.names bytes.now tokens.now.list found.list) }
    ensures names { IfOk result (λ found. found.names ≡ distinct_names bytes.now tokens.now.list) }
{
    let mut names = Names::new(alloc);
    let mut list = Items::new(alloc);
    for token in tokens.list.as_slice() {
        let text = text_at(bytes, *token);
        let terminal = said(alloc, &mut names, token.kind, text)?;
        list.push(Placed {
            terminal,
            place: token.place,
        })?;
    }
    Ok(Terminals {
        list,
        names: names.into_items(alloc)?,
    })
}

/// The bytes of a token.
fn text_at(bytes: &[u8], token: Token) -> &[u8]
    requires { Stands bytes.now token }
    ensures text { result.now ≡ slice_range bytes.now token.from token.to }
    ensures known { CanSay token.kind result.now }
{
    &bytes[token.from as usize..token.to as usize]
}

/// What one token says.
fn said<'a>(
    alloc: Global,
    names: &mut Names<'a>,
    kind: TokenKind,
    text: &'a [u8],
) -> Result<Terminal, NoMemory>
    requires room { length names.old < 2097152 }
    requires token { CanSay kind text.now }
    ensures count { OnOk result (length names.new ≤ length names.old + 1) }
    ensures noted { OnOk result (names.new ≡ with_token kind names.old text.now) }
    ensures means { IfOk result (λ terminal. Means names.new kind text.now terminal) }
{
    Ok(match kind {
        TokenKind::Name => Terminal::Name(names.number(text)?),
        TokenKind::Int => Terminal::Int(number(text)),
        TokenKind::Text => Terminal::Text(unescaped(alloc, &text[1..text.len() - 1])?),
        TokenKind::Symbol(symbol) => Terminal::Symbol(symbol),
        TokenKind::Keyword(keyword) => Terminal::Keyword(keyword),
    })
}
