ghost use Rattle.std.specs.Prelude.{Some};

use crate::instr::{name, operand_of};
use code_instrs::Instr;
use std::fmt;

/// An instruction at its position.
#[derive(Clone, Copy)]
pub struct Line {
    pub at: usize,
    pub instr: Instr,
}

/// The line without its end.
impl fmt::Display for Line {
    ghost use Rattle.code_listing.specs.Listing.{instr_text};

    ghost output = { λ line. Some (instr_text line.at line.instr) };

    fn fmt<W: fmt::Write>(&self, f: &mut fmt::Formatter<W>) -> fmt::Result {
        let at = self.at;
        let name = name(self.instr);
        let operand = operand_of(self.instr);
        write!(f, "{at:>4} {name}{operand}")
    }
}
