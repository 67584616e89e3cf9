ghost use Rattle.std.specs.Prelude.{◌≡◌, ◌≤◌, ◌<◌, ◌∷◌, [], length, pos, MatchOption, IfSome, IfOk};
ghost use Rattle.lang_base.specs.Lexical.{decimal_value};
ghost use Rattle.syntax_tokens.specs.Says.{escaped_byte, unescaped_bytes};

use lang_base::{Bytes, NoMemory};
use std::alloc::Global;

/// The number that decimal digits spell.
pub fn number(digits: &[u8]) -> i32
    requires { decimal_value digits.now ≤ 2147483647 }
    ensures { result ≡ pos (decimal_value digits.now) }
{
    let mut value = 0u32;
    for digit in digits {
        value = 10 * value + u32::from(digit.saturating_sub(b'0'));
    }
    value as i32
}

/// What stands between the quotes of a text, each escape replaced by the byte that it stands for.
pub fn unescaped(alloc: Global, inside: &[u8]) -> Result<Bytes, NoMemory>
    ensures { IfOk result (λ bytes. bytes ≡ unescaped_bytes inside.now) }
{
    let mut bytes = Bytes::new(alloc);
    let mut rest = inside;
    while let Some((byte, following)) = front(rest) {
        bytes.push(byte)?;
        rest = following;
    }
    Ok(bytes)
}

/// The first byte that is meant, and what stands after it.
fn front(inside: &[u8]) -> Option<(u8, &[u8])>
    ensures meant { MatchOption result (inside.now ≡ []) (λ p. unescaped_bytes inside.now ≡ p.0 ∷ unescaped_bytes p.1.now) }
    ensures shorter { IfSome result (λ p. length p.1.now < length inside.now) }
{
    match inside {
        [] => None,
        [b'\\', letter, following @ ..] => Some((escaped(*letter), following)),
        [first, following @ ..] => Some((*first, following)),
    }
}

/// The byte that `\` and a letter stand for.
fn escaped(letter: u8) -> u8
    ensures { result ≡ escaped_byte letter }
{
    match letter {
        b'n' => b'\n',
        b't' => b'\t',
        other => other,
    }
}
