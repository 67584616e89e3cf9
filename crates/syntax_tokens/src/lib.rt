//! The tokens of a program text, and what they say.
//!
//! A text is a row of blanks, comments and tokens: names, keywords, ints, texts and symbols, each the longest at its place. Spans and
//! columns count bytes, and lines count line feeds.
//!
//! What it promises: `tokens` gives exactly the tokens of a text with their spans and places and the place after its last byte, or else
//! the first fault: `number` for an int with a leading zero or over 2147483647, and `syntax` for a byte that begins nothing, a byte that
//! isn't UTF-8 in a comment or a text, a bad escape or a line feed in a text, and a comment or a text that isn't closed.
//!
//! `terminals` gives what tokens say, so that the grammar needs neither bytes nor spans: of a name its number in the list of the distinct
//! names of the text, in order of first occurrence; of an int the number that its digits spell; of a text its bytes with the escapes
//! replaced. Both take time that grows with the text alone.
#![tactic(auto)]

mod byte;
mod cut;
mod names;
mod piece;
mod say;
mod spelling;
mod table;
mod terminal;
mod token;

pub use cut::{one_cutting, tokens, tokens_stand};
pub use say::terminals;
pub use terminal::{Placed, Terminal, Terminals};
pub use token::{Keyword, Symbol, Token, TokenKind, Tokens};
