ghost use Rattle.std.specs.Prelude.{◌≡◌, ◌≢◌, ◌↔◌, ◌≤◌, map, length, slice_index, IsTrue, IfOk, IfSome, MatchResult};
ghost use Rattle.std.specs.Result.{result_ok};
ghost use Rattle.std.specs.Option.{option_map, option_to_list};
ghost use Rattle.std.specs.String.{string_bytes};
ghost use Rattle.tool_words.specs.Words.{values_for, number_in, arg_of, mode_of, seeded_by};
ghost use Rattle.tool_words.specs.Jobs.{one_of, argument_of, alone, own_mode, made_by};

use crate::command::Command;
use crate::job::Usage;
use crate::key::{Key, Mode};

/// What the words set a key of numbers to, or its default.
pub fn number_set(
    settings: &[String],
    key: Key,
    least: u64,
    most: u64,
    default: u64,
) -> Result<u64, Usage>
    requires default_least { least ≤ default }
    requires default_most { default ≤ most }
    ensures given { result_ok result
        ≡ one_of (number_in least most) default (values_for key (map string_bytes settings.now)) }
    ensures at_least { IfOk result (λ n. least ≤ n) }
    ensures at_most { IfOk result (λ n. n ≤ most) }
{
    match value_set(settings, key)? {
        None => Ok(default),
        Some(value) => number(value, least, most).ok_or(Usage),
    }
}

/// What the words set the argument to, or its default.
pub fn arg_set(settings: &[String]) -> Result<i32, Usage>
    ensures { result_ok result ≡ argument_of (map string_bytes settings.now) }
{
    match value_set(settings, Key::Arg)? {
        None => Ok(0),
        Some(value) => argument(value).ok_or(Usage),
    }
}

/// What the words set the mode to, by its name or by a seed, or the command's own. A seed stands with neither a name nor workers.
pub fn mode_set(command: Command, settings: &[String]) -> Result<Mode, Usage>
    ensures { result_ok result ≡ made_by command (map string_bytes settings.now) }
{
    match value_set(settings, Key::Seed)? {
        None => mode_named(command, settings),
        Some(seed) => mode_seeded(seed, settings),
    }
}

// What the words set the mode to by its name, or the command's own.
fn mode_named(command: Command, settings: &[String]) -> Result<Mode, Usage>
    ensures { result_ok result
        ≡ one_of mode_of (own_mode command) (values_for Key.Mode (map string_bytes settings.now)) }
{
    match value_set(settings, Key::Mode)? {
        None => Ok(own_mode(command)),
        Some("steps") => Ok(Mode::Steps),
        Some("rounds") => Ok(Mode::Rounds),
        Some(_) => Err(Usage),
    }
}

// The mode of a seed, where the words set neither the mode by its name nor the workers.
fn mode_seeded(seed: &str, settings: &[String]) -> Result<Mode, Usage>
    ensures { result_ok result
        ≡ alone (values_for Key.Mode (map string_bytes settings.now)) (values_for Key.Workers (map string_bytes settings.now)) (seeded_by seed.now) }
{
    let name = value_set(settings, Key::Mode)?;
    let workers = value_set(settings, Key::Workers)?;
    match (name, workers) {
        (None, None) => seeded(seed).ok_or(Usage),
        _ => Err(Usage),
    }
}

// How the run of a command is made where the words don't say it.
fn own_mode(command: Command) -> Mode
    ensures { result ≡ own_mode command }
{
    match command {
        Command::Cost => Mode::Rounds,
        _ => Mode::Steps,
    }
}

// The mode of a seed.
fn seeded(seed: &str) -> Option<Mode>
    ensures { result ≡ seeded_by seed.now }
{
    number(seed, 0, 4294967295).map(|seed| Mode::Seeded(seed as u32))
}

// The value that one of the words gives to a key, if any does; Usage where more than one does.
fn value_set(settings: &[String], key: Key) -> Result<Option<&str>, Usage>
    ensures { MatchResult result
        (λ value. values_for key (map string_bytes settings.now)
        ≡ option_to_list (option_map (λ text. text.now) value))
        (λ _. 2 ≤ length (values_for key (map string_bytes settings.now))) }
{
    let mut value = None;
    for word in settings {
        if let Some(given) = key.value_in(word.as_str()) {
            if value.is_some() {
                return Err(Usage);
            }
            value = Some(given);
        }
    }
    Ok(value)
}

// The number that a text of decimal digits is for, without a leading zero, where it lies in a range.
fn number(text: &str, least: u64, most: u64) -> Option<u64>
    ensures given { result ≡ number_in least most text.now }
    ensures at_least { IfSome result (λ n. least ≤ n) }
    ensures at_most { IfSome result (λ n. n ≤ most) }
{
    if !is_plain(text) {
        return None;
    }
    match text.parse::<u64>() {
        Ok(value) if least <= value && value <= most => Some(value),
        _ => None,
    }
}

// Whether a text begins with neither a `+` nor a leading zero.
fn is_plain(text: &str) -> bool
    ensures { IsTrue result
        ↔ ((slice_index text.now 0 ≢ 43) × (slice_index text.now 0 ≡ 48 → length text.now ≡ 1)) }
{
    !matches!(text.as_bytes(), [b'+', ..] | [b'0', _, ..])
}

// The number of 32 bits that a text of decimal digits is for, with a `-` before one that is below 0.
fn argument(text: &str) -> Option<i32>
    ensures { result ≡ arg_of text.now }
{
    match text.strip_prefix("-") {
        Some(digits) => number(digits, 1, 2147483648).map(|size| (-(size as i64)) as i32),
        None => number(text, 0, 2147483647).map(|size| size as i32),
    }
}
