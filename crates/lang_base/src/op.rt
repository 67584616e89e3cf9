ghost use Rattle.std.specs.Prelude.{◌≡◌};
ghost use Rattle.lang_base.specs.Operators.{binary_name, level_of, logic_level, operands_of, result_of, unary_name, unary_type};
ghost use Rattle.lang_base.specs.Types.{plain_type};

use crate::ty::Ty;

/// An operation on one value.
#[derive(Clone, Copy, Debug, PartialEq, Eq)]
pub enum UnaryOp {
    Negate,
    Not,
}

/// An operation on two values, both of which are evaluated.
#[derive(Clone, Copy, Debug, PartialEq, Eq)]
pub enum BinaryOp {
    Add,
    Subtract,
    Multiply,
    Divide,
    Remainder,
    Equal,
    NotEqual,
    Less,
    AtMost,
    Greater,
    AtLeast,
}

/// `&&` and `||`: the right operand is evaluated only where the left one leaves the result open.
#[derive(Clone, Copy, Debug, PartialEq, Eq)]
pub enum LogicOp {
    And,
    Or,
}

/// What an operation on two values takes.
#[derive(Clone, Copy, Debug, PartialEq, Eq)]
pub enum Operands {
    /// Two ints.
    Ints,
    /// Two ints, two booleans or two references.
    Same,
}

impl UnaryOp {
    /// The type of the operand, and of the result.
    pub fn ty(self) -> Ty
        ensures { plain_type result ≡ unary_type self }
    {
        match self {
            UnaryOp::Negate => Ty::Int,
            UnaryOp::Not => Ty::Bool,
        }
    }

    /// Its name in a listing.
    pub fn name(self) -> &'static str
        ensures { result.now ≡ unary_name self }
    {
        match self {
            UnaryOp::Negate => "neg",
            UnaryOp::Not => "not",
        }
    }
}

impl LogicOp {
    /// How tightly it binds.
    pub fn level(self) -> u32
        ensures { result ≡ logic_level self }
    {
        match self {
            LogicOp::Or => 0,
            LogicOp::And => 1,
        }
    }
}

impl BinaryOp {
    /// How tightly it binds.
    pub fn level(self) -> u32
        ensures { result ≡ level_of self }
    {
        match self {
            BinaryOp::Equal | BinaryOp::NotEqual => 2,
            BinaryOp::Less | BinaryOp::AtMost | BinaryOp::Greater | BinaryOp::AtLeast => 3,
            BinaryOp::Add | BinaryOp::Subtract => 4,
            BinaryOp::Multiply | BinaryOp::Divide | BinaryOp::Remainder => 5,
        }
    }

    pub fn operands(self) -> Operands
        ensures { result ≡ operands_of self }
    {
        match self {
            BinaryOp::Equal | BinaryOp::NotEqual => Operands::Same,
            _ => Operands::Ints,
        }
    }

    pub fn result(self) -> Ty
        ensures { plain_type result ≡ result_of self }
    {
        match self {
            BinaryOp::Add
            | BinaryOp::Subtract
            | BinaryOp::Multiply
            | BinaryOp::Divide
            | BinaryOp::Remainder => Ty::Int,
            _ => Ty::Bool,
        }
    }

    /// Its name in a listing.
    pub fn name(self) -> &'static str
        ensures { result.now ≡ binary_name self }
    {
        match self {
            BinaryOp::Add => "add",
            BinaryOp::Subtract => "sub",
            BinaryOp::Multiply => "mul",
            BinaryOp::Divide => "div",
            BinaryOp::Remainder => "rem",
            BinaryOp::Equal => "eq",
            BinaryOp::NotEqual => "ne",
            BinaryOp::Less => "lt",
            BinaryOp::AtMost => "le",
            BinaryOp::Greater => "gt",
            BinaryOp::AtLeast => "ge",
        }
    }
}
