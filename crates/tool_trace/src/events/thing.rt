ghost use Rattle.std.specs.Prelude.{◌≡◌};

use lang_base::Value;

/// What the elements of an array are.
#[derive(Clone, Copy, Debug, PartialEq, Eq)]
pub enum Elements {
    Ints,
    Booleans,
    References,
}

/// What an object or an array of a run is.
#[derive(Clone, Copy, Debug, PartialEq, Eq)]
pub enum Thing {
    /// An object of this class.
    Object(u32),
    Array(Elements),
}

impl Elements {
    ghost use Rattle.tool_trace.specs.events.Names.{elements_name, elements_of};

    /// What the elements of an array are, by the first value of each.
    pub fn of(first: Value) -> Elements
        ensures { result ≡ elements_of first }
    {
        match first {
            Value::Int(_) => Elements::Ints,
            Value::Bool(_) => Elements::Booleans,
            Value::Null | Value::Obj(_) => Elements::References,
        }
    }

    pub fn name(self) -> &'static [u8]
        ensures { result.now ≡ elements_name self }
    {
        match self {
            Elements::Ints => b"int",
            Elements::Booleans => b"boolean",
            Elements::References => b"ref",
        }
    }
}
