use crate::{Keyword, Symbol};
use lang_base::{Bytes, Items, Place};

/// What one token says.
#[derive(Debug, Drop)]
pub enum Terminal {
    /// A name, by its position in the list of the text's names.
    Name(u32),
    /// The number that the digits spell.
    Int(i32),
    /// The bytes of a text literal, its escapes replaced.
    Text(Bytes),
    Symbol(Symbol),
    Keyword(Keyword),
}

/// A terminal, and where its first byte stands.
#[derive(Debug, Drop)]
pub struct Placed {
    pub terminal: Terminal,
    pub place: Place,
}

/// The terminals of a text in its order, and its distinct names in order of first occurrence.
#[derive(Debug, Drop)]
pub struct Terminals {
    pub list: Items<Placed>,
    pub names: Items<Bytes>,
}
