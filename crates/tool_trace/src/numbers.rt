ghost use Rattle.std.specs.Prelude.{◌≡◌, ◌<◌, ◌≤◌, ℕ, ℤ, pos, neg_ℤ, Some, min, FitsSigned, MatchOption};
ghost use Rattle.std.specs.Fmt.{decimal, signed_decimal};
ghost use Rattle.std.specs.Int.{w32};
ghost use Rattle.std.specs.Str.Parse.{AllDigits, digits_value};
ghost use Rattle.tool_trace.specs.Pieces.{IsNumber};

/// What `value` gives for every greater number.
pub const GREATEST: u64 = 1000000000000000;

/// The number in a range whose decimal text this is, if any.
pub fn number(text: &[u8], least: u64, most: u64) -> Option<u64>
    requires small { most < 1000000000000000 }
    ensures { MatchOption result
        ((n : ℕ) → least ≤ n → n ≤ most → text.now ≡ decimal n → ⊥)
        (λ n. (least ≤ n) × (n ≤ most) × (text.now ≡ decimal n)) }
{
    let value = value(text)?;
    if least <= value && value <= most {
        Some(value)
    } else {
        None
    }
}

/// The number of 32 bits whose decimal text this is, if any.
pub fn argument(text: &[u8]) -> Option<i32>
    ensures { MatchOption result
        ((z : ℤ) → FitsSigned w32 z → text.now ≡ signed_decimal z → ⊥)
        (λ z. text.now ≡ signed_decimal z) }
{
    match text {
        [b'-', digits @ ..] => negative(number(digits, 1, 2147483648)?),
        _ => Some(number(text, 0, 2147483647)? as i32),
    }
}

fn negative(size: u64) -> Option<i32>
    requires { size ≤ 2147483648 }
    ensures { result ≡ Some (neg_ℤ (pos size)) }
{
    Some((-(size as i64)) as i32)
}

/// The number that decimal digits without a leading zero spell, if it isn't greater than the greatest.
pub fn value(text: &[u8]) -> Option<u64>
    ensures { MatchOption result
        (IsNumber text.now → ⊥)
        (λ n. IsNumber text.now × (n ≡ min (digits_value 10 text.now) 1000000000000000)) }
{
    match text {
        [] | [b'0', _, ..] => None,
        _ => digits(text),
    }
}

/// The same of any digits.
fn digits(text: &[u8]) -> Option<u64>
    ensures { MatchOption result
        (AllDigits 10 text.now → ⊥)
        (λ n. AllDigits 10 text.now × (n ≡ min (digits_value 10 text.now) 1000000000000000)) }
{
    let mut number = 0u64;
    for byte in text {
        if !byte.is_ascii_digit() {
            return None;
        }
        number = (number * 10 + u64::from(*byte - b'0')).min(GREATEST);
    }
    Some(number)
}
