ghost use Rattle.std.specs.Prelude.{Some};

use std::fmt;

/// Where a byte of a text stands. The order is that of the text.
#[derive(Clone, Copy, Debug, PartialEq, Eq, PartialOrd, Ord)]
pub struct Place {
    /// The line, from 1.
    pub line: u32,
    /// The column in bytes, from 1.
    pub col: u32,
}

/// `line:col`, both in decimal.
impl fmt::Display for Place {
    ghost use Rattle.lang_base.specs.Text.{place_text};

    ghost output = { λ place. Some (place_text place) };

    fn fmt<W: fmt::Write>(&self, f: &mut fmt::Formatter<W>) -> fmt::Result {
        let line = self.line;
        let col = self.col;
        write!(f, "{line}:{col}")
    }
}
