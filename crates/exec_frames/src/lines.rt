ghost use Rattle.std.specs.Prelude.{◌≡◌, ◌∷◌, [], codes, IfOk};
ghost use Rattle.std.specs.Fmt.{signed_decimal};
ghost use Rattle.lang_meaning.specs.Counts.{text_of, line};
ghost use Rattle.exec_frames.specs.Names.{plain_value};

use lang_base::{Bytes, NoMemory, Plain, Value};
use std::alloc::Global;

/// The line of a printed value.
pub fn value_line(alloc: Global, value: Value) -> Result<Bytes, NoMemory>
    ensures { IfOk result (λ bytes. bytes ≡ line (text_of (plain_value value))) }
{
    let mut bytes = value_text(alloc, value)?;
    bytes.push(b'\n')?;
    Ok(bytes)
}

fn value_text(alloc: Global, value: Value) -> Result<Bytes, NoMemory>
    ensures { IfOk result (λ bytes. bytes ≡ text_of (plain_value value)) }
{
    match value {
        Value::Int(n) => number_text(alloc, n),
        Value::Bool(true) => Bytes::from_slice(alloc, b"true"),
        Value::Bool(false) => Bytes::from_slice(alloc, b"false"),
        Value::Null | Value::Obj(_) => Bytes::from_slice(alloc, b"0"),
    }
}

/// A number in decimal.
fn number_text(alloc: Global, n: i32) -> Result<Bytes, NoMemory>
    ensures { IfOk result (λ bytes. bytes ≡ signed_decimal n) }
{
    let text = format!(in alloc; "{n}")?;
    Bytes::from_slice(alloc, text.as_bytes())
}

/// The line of a printed text.
pub fn text_line(alloc: Global, text: &Bytes) -> Result<Bytes, NoMemory>
    ensures { IfOk result (λ bytes. bytes ≡ line text.now) }
{
    let mut bytes = text.copy(alloc)?;
    bytes.push(b'\n')?;
    Ok(bytes)
}
