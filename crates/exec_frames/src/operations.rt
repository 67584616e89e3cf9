ghost use Rattle.std.specs.Prelude.{◌≡◌, option_map};
ghost use Rattle.lang_meaning.specs.Counts.{same_value, unary, operated, divided};
ghost use Rattle.exec_frames.specs.Names.{plain_value, same_object};
ghost use Rattle.std.specs.Int.{int_wrapping_div, w32};
ghost use Rattle.std.specs.Prelude.{int_rem};

use crate::values::{number, truth};
use lang_base::{BinaryOp, UnaryOp, Value};

/// The value of an operation on two values; None where it divides by zero.
#[inline]
pub fn operated(op: BinaryOp, left: Value, right: Value) -> Option<Value>
    ensures { option_map plain_value result ≡ operated same_object op (plain_value left) (plain_value right) }
{
    let (j, k) = (number(left), number(right));
    Some(match op {
        BinaryOp::Add => Value::Int(j.wrapping_add(k)),
        BinaryOp::Subtract => Value::Int(j.wrapping_sub(k)),
        BinaryOp::Multiply => Value::Int(j.wrapping_mul(k)),
        BinaryOp::Divide => return quotient(j, k),
        BinaryOp::Remainder => return remainder(j, k),
        BinaryOp::Equal => Value::Bool(same_value(left, right)),
        BinaryOp::NotEqual => Value::Bool(!same_value(left, right)),
        BinaryOp::Less => Value::Bool(j < k),
        BinaryOp::AtMost => Value::Bool(j <= k),
        BinaryOp::Greater => Value::Bool(j > k),
        BinaryOp::AtLeast => Value::Bool(j >= k),
    })
}

fn quotient(j: i32, k: i32) -> Option<Value>
    ensures { option_map plain_value result ≡ divided (int_wrapping_div w32) j k }
{
    if k == 0 {
        return None;
    }
    Some(Value::Int(j.wrapping_div(k)))
}

fn remainder(j: i32, k: i32) -> Option<Value>
    ensures { option_map plain_value result ≡ divided int_rem j k }
{
    if k == 0 {
        return None;
    }
    Some(Value::Int(j.wrapping_rem(k)))
}

/// Whether two values are the same.
fn same_value(left: Value, right: Value) -> bool
    ensures { result ≡ same_value same_object (plain_value left) (plain_value right) }
{
    match (left, right) {
        (Value::Int(j), Value::Int(k)) => j == k,
        (Value::Bool(a), Value::Bool(b)) => a == b,
        (Value::Null, Value::Null) => true,
        (Value::Obj(n), Value::Obj(m)) => n == m,
        _ => false,
    }
}

/// The value of an operation on one value.
pub fn apply(op: UnaryOp, value: Value) -> Value
    ensures { plain_value result ≡ unary op (plain_value value) }
{
    match op {
        UnaryOp::Negate => Value::Int(number(value).wrapping_neg()),
        UnaryOp::Not => Value::Bool(!truth(value)),
    }
}
