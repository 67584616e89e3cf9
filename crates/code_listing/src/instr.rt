ghost use Rattle.std.specs.Prelude.{◌≡◌, Some};

use code_instrs::Instr;
use std::fmt;

/// What stands after the name of an instruction.
#[derive(Clone, Copy)]
pub enum Operand {
    Nothing,
    Int(i32),
    Bool(bool),
    /// A slot, a position, a site or a text.
    Number(usize),
}

/// A space and the operand, where there is one.
impl fmt::Display for Operand {
    ghost use Rattle.code_listing.specs.Operands.{operand_text};

    ghost output = { λ operand. Some (operand_text operand) };

    fn fmt<W: fmt::Write>(&self, f: &mut fmt::Formatter<W>) -> fmt::Result {
        match *self {
            Operand::Nothing => Ok(()),
            Operand::Int(n) => write!(f, " {n}"),
            Operand::Bool(b) => write!(f, " {b}"),
            Operand::Number(n) => write!(f, " {n}"),
        }
    }
}

ghost use Rattle.code_listing.specs.Listing.{instr_name, instr_operand};
ghost use Rattle.code_listing.specs.Operands.{operand_text};

/// The name of an instruction.
pub fn name(instr: Instr) -> &'static str
    ensures { result.now ≡ instr_name instr }
{
    match instr {
        Instr::Int(_) => "int",
        Instr::Bool(_) => "bool",
        Instr::Null => "null",
        Instr::Load(_) => "load",
        Instr::Store(_) => "store",
        Instr::Pop => "pop",
        Instr::Unary(op) => op.name(),
        Instr::Binary(op) => op.name(),
        Instr::Jump(_) => "jump",
        Instr::Unless(_) => "unless",
        Instr::Turn => "turn",
        Instr::Get(_) => "get",
        Instr::Put(_) => "put",
        Instr::Elem => "elem",
        Instr::PutElem => "putelem",
        Instr::Length => "length",
        Instr::Call(_) => "call",
        Instr::New(_) => "new",
        Instr::Array(_) => "array",
        Instr::Return => "return",
        Instr::Leave => "leave",
        Instr::Print => "print",
        Instr::Text(_) => "text",
        Instr::Fork(_) => "fork",
        Instr::Spread(_) => "spread",
        Instr::Join => "join",
        Instr::Enter(_) => "enter",
        Instr::Exit => "exit",
        Instr::End => "end",
        Instr::Region(_) => "region",
        Instr::Part(_) => "part",
        Instr::InPart(_) => "inpart",
        Instr::InParts(_) => "inparts",
    }
}

/// Its operand.
pub fn operand_of(instr: Instr) -> Operand
    ensures { operand_text result ≡ instr_operand instr }
{
    match instr {
        Instr::Int(n) => Operand::Int(n),
        Instr::Bool(b) => Operand::Bool(b),
        Instr::Get(n) | Instr::Put(n) | Instr::Region(n) => Operand::Number(n as usize),
        Instr::Load(n)
        | Instr::Store(n)
        | Instr::Jump(n)
        | Instr::Unless(n)
        | Instr::Call(n)
        | Instr::New(n)
        | Instr::Array(n)
        | Instr::Text(n)
        | Instr::Fork(n)
        | Instr::Spread(n)
        | Instr::Enter(n)
        | Instr::Part(n)
        | Instr::InPart(n)
        | Instr::InParts(n) => Operand::Number(n),
        _ => Operand::Nothing,
    }
}
