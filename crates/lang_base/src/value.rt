ghost use Rattle.std.specs.Prelude.{Some, ◌≡◌, ◌↔◌, IsTrue, IfOk};

use crate::memory::NoMemory;
use crate::plain::Plain;
use crate::ty::Ty;
use std::alloc::Global;
use std::fmt;

/// A value of a run, of at most 16 bytes.
#[derive(Clone, Copy, Debug, PartialEq, Eq)]
pub enum Value {
    Int(i32),
    Bool(bool),
    Null,
    /// An object or an array, by its number in the heap.
    Obj(u32),
}

const _: () = prove!(size_of::<Value>() <= 16);

/// What a field or an element holds before it is assigned. A byte, since the code of a class has one for each of its fields.
#[derive(Clone, Copy, Debug, PartialEq, Eq)]
pub enum FirstValue {
    Zero,
    False,
    Null,
}

impl FirstValue {
    ghost use Rattle.lang_base.specs.FirstValues.{first_value, constant_of};
    ghost use Rattle.lang_base.specs.Types.{plain_type};

    /// Of a field or an element of this type.
    pub fn of(ty: &Ty) -> FirstValue
        ensures { result ≡ first_value (plain_type ty.now) }
    {
        match ty {
            Ty::Int => FirstValue::Zero,
            Ty::Bool => FirstValue::False,
            Ty::Void | Ty::Null | Ty::Class { .. } | Ty::Array { .. } => FirstValue::Null,
        }
    }

    pub fn value(self) -> Value
        ensures { result ≡ constant_of self }
    {
        match self {
            FirstValue::Zero => Value::Int(0),
            FirstValue::False => Value::Bool(false),
            FirstValue::Null => Value::Null,
        }
    }
}

/// The value of a local, which has this number in its body.
#[derive(Clone, Copy, Debug, PartialEq, Eq)]
pub struct SlotValue {
    pub slot: u32,
    pub value: Value,
}

impl Plain for SlotValue {
    fn copy(&self, _alloc: Global) -> Result<SlotValue, NoMemory> {
        Ok(*self)
    }

    fn same(&self, other: &SlotValue) -> bool {
        *self == *other
    }
}

/// Why a task ended before its end. Nothing catches a trap.
#[derive(Clone, Copy, Debug, PartialEq, Eq)]
pub enum Trap {
    /// A divisor of 0.
    Divide,
    /// `null` where an object or an array is used.
    Null,
    /// An index out of bounds.
    Index,
    /// An array length below 0.
    Size,
    /// More than 500 calls and branches deep, or a region of more than 500 elements.
    Stack,
}

impl Trap {
    ghost use Rattle.lang_base.specs.Text.{trap_name};

    /// The name that a report gives it.
    pub fn name(self) -> &'static str
        ensures { result.now ≡ trap_name self }
    {
        match self {
            Trap::Divide => "divide",
            Trap::Null => "null",
            Trap::Index => "index",
            Trap::Size => "size",
            Trap::Stack => "stack",
        }
    }
}

impl fmt::Display for Trap {
    ghost use Rattle.lang_base.specs.Text.{trap_name};

    ghost output = { λ trap. Some (trap_name trap) };

    fn fmt<W: fmt::Write>(&self, f: &mut fmt::Formatter<W>) -> fmt::Result {
        f.write_str(self.name())
    }
}
