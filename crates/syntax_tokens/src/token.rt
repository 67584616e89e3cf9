ghost use Rattle.std.specs.Prelude.{◌≡◌};

use lang_base::{Items, Place};

/// The tokens of a text, in its order.
#[derive(Debug, Drop)]
pub struct Tokens {
    pub list: Items<Token>,
    /// One column after the last byte, or the first column of the next line where that is a line feed.
    pub end: Place,
}

/// One token: the bytes of the text from `from` on and before `to`.
#[derive(Clone, Copy, Debug, PartialEq, Eq)]
pub struct Token {
    pub kind: TokenKind,
    pub from: u32,
    pub to: u32,
    /// Where its first byte stands.
    pub place: Place,
}

#[derive(Clone, Copy, Debug, PartialEq, Eq)]
pub enum TokenKind {
    /// A word that is no keyword.
    Name,
    /// Decimal digits of a number up to 2147483647, without a leading zero.
    Int,
    /// A text literal, with its quotes.
    Text,
    Symbol(Symbol),
    Keyword(Keyword),
}

/// A symbol, by what it means between two expressions where it stands there.
#[derive(Clone, Copy, Debug, PartialEq, Eq)]
pub enum Symbol {
    /// `<=`
    AtMost,
    /// `>=`
    AtLeast,
    /// `==`
    Equal,
    /// `!=`
    NotEqual,
    /// `&&`
    And,
    /// `||`
    Or,
    /// `{`
    OpenBrace,
    /// `}`
    CloseBrace,
    /// `(`
    OpenParen,
    /// `)`
    CloseParen,
    /// `[`
    OpenBracket,
    /// `]`
    CloseBracket,
    /// `<`
    Less,
    /// `>`
    Greater,
    /// `=`
    Assign,
    /// `+`
    Plus,
    /// `-`
    Minus,
    /// `*`
    Star,
    /// `/`
    Slash,
    /// `%`
    Percent,
    /// `!`
    Not,
    /// `;`
    Semicolon,
    /// `,`
    Comma,
    /// `.`
    Dot,
    /// `:`
    Colon,
    /// `#`
    Hash,
    /// `|`
    Bar,
    /// `?`
    Question,
}

/// A word that is kept for the language.
#[derive(Clone, Copy, Debug, PartialEq, Eq)]
pub enum Keyword {
    Class,
    Extends,
    Region,
    Atomic,
    In,
    Reads,
    Writes,
    Pure,
    Int,
    Boolean,
    Void,
    Final,
    If,
    Else,
    While,
    Return,
    Print,
    Cobegin,
    CobeginNd,
    Foreach,
    ForeachNd,
    ForeachParts,
    New,
    This,
    True,
    False,
    Null,
    Root,
}

impl Symbol {
    ghost use Rattle.syntax_tokens.specs.Spelling.{symbol_text};

    /// Its spelling.
    pub const fn text(self) -> &'static str
        ensures { result.now ≡ symbol_text self }
    {
        match self {
            Symbol::AtMost => "<=",
            Symbol::AtLeast => ">=",
            Symbol::Equal => "==",
            Symbol::NotEqual => "!=",
            Symbol::And => "&&",
            Symbol::Or => "||",
            Symbol::OpenBrace => "{",
            Symbol::CloseBrace => "}",
            Symbol::OpenParen => "(",
            Symbol::CloseParen => ")",
            Symbol::OpenBracket => "[",
            Symbol::CloseBracket => "]",
            Symbol::Less => "<",
            Symbol::Greater => ">",
            Symbol::Assign => "=",
            Symbol::Plus => "+",
            Symbol::Minus => "-",
            Symbol::Star => "*",
            Symbol::Slash => "/",
            Symbol::Percent => "%",
            Symbol::Not => "!",
            Symbol::Semicolon => ";",
            Symbol::Comma => ",",
            Symbol::Dot => ".",
            Symbol::Colon => ":",
            Symbol::Hash => "#",
            Symbol::Bar => "|",
            Symbol::Question => "?",
        }
    }
}

impl Keyword {
    ghost use Rattle.syntax_tokens.specs.Spelling.{keyword_text};

    /// Its spelling.
    pub const fn text(self) -> &'static str
        ensures { result.now ≡ keyword_text self }
    {
        match self {
            Keyword::Class => "class",
            Keyword::Extends => "extends",
            Keyword::Region => "region",
            Keyword::Atomic => "atomic",
            Keyword::In => "in",
            Keyword::Reads => "reads",
            Keyword::Writes => "writes",
            Keyword::Pure => "pure",
            Keyword::Int => "int",
            Keyword::Boolean => "boolean",
            Keyword::Void => "void",
            Keyword::Final => "final",
            Keyword::If => "if",
            Keyword::Else => "else",
            Keyword::While => "while",
            Keyword::Return => "return",
            Keyword::Print => "print",
            Keyword::Cobegin => "cobegin",
            Keyword::CobeginNd => "cobegin_nd",
            Keyword::Foreach => "foreach",
            Keyword::ForeachNd => "foreach_nd",
            Keyword::ForeachParts => "foreach_parts",
            Keyword::New => "new",
            Keyword::This => "this",
            Keyword::True => "true",
            Keyword::False => "false",
            Keyword::Null => "null",
            Keyword::Root => "Root",
        }
    }
}
