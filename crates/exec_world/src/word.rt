ghost use Rattle.std.specs.Prelude.{◌≡◌, ◌≢◌, ◌<◌, ◌≤◌, ◌-◌, ◌*◌, ◌^◌, ◌%◌, ℕ, MatchOption};
ghost use Rattle.std.specs.Int.{bit_at};
ghost use Rattle.exec_world.specs.Words.{InWord, IsWord, IsLastInWord};

/// How many numbers share a word.
pub const WIDTH: u32 = 64;

/// The bit of a place: the first has the highest.
fn bit(place: u32) -> u64
    requires { place < 64 }
    ensures { result ≡ 1 * 2 ^ (63 - place) % 2 ^ 64 }
{
    1 << (63 - place)
}

/// The word with the number at a place.
pub fn with_place(word: u64, place: u32) -> u64
    requires { place < 64 }
    ensures there { InWord result place }
    ensures others { (k : ℕ) → k < 64 → k ≢ place → bit_at result (63 - k) ≡ bit_at word (63 - k) }
    ensures word { IsWord result }
{
    word | bit(place)
}

/// The word without the number at a place.
pub fn without_place(word: u64, place: u32) -> u64
    requires { place < 64 }
    ensures gone { InWord result place → ⊥ }
    ensures others { (k : ℕ) → k < 64 → k ≢ place → bit_at result (63 - k) ≡ bit_at word (63 - k) }
{
    word & !bit(place)
}

/// The last place of a word that has a number.
pub fn last_place(word: u64) -> u32
    requires { IsWord word }
    ensures { IsLastInWord word 63 result }
{
    63 - word.trailing_zeros()
}

/// The last place of a word that has a number, up to another place.
pub fn last_up_to(word: u64, place: u32) -> Option<u32>
    requires { place < 64 }
    ensures { MatchOption result ((k : ℕ) → k ≤ place → InWord word k → ⊥) (IsLastInWord word place) }
{
    let rest = word & (u64::MAX << (63 - place));
    if rest == 0 {
        return None;
    }
    Some(last_place(rest))
}
