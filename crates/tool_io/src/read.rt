ghost use Rattle.std.specs.Prelude.{◌≡◌, ◌<◌, ◌≤◌, ◌+◌, ℕ, Err, Some, [], length, drop, vec_len, IfOk, IfSome};
ghost use Rattle.tool_io.specs.Ends.{Rose};

use crate::traits::{Failed, Source};
use std::alloc::{AllocError, Global};
use thiserror::Error;

/// Why reading stopped before the end of input.
#[derive(Clone, Copy, Debug, PartialEq, Eq, Error)]
pub enum ReadEnd {
    /// More bytes came than were allowed.
    #[error("the input is too long")]
    TooLong = 1,
    /// A read failed.
    #[error("reading failed")]
    ReadFault = 2,
    #[error("out of memory")]
    NoMemory = 3,
}

impl From<Failed> for ReadEnd {
    ghost use Rattle.std.specs.Prelude.{◌≡◌};
    ghost use Rattle.tool_io.specs.declared.read.ReadEnd.TheVariants.{ReadFault};

    ghost from_gives = { λ _ end. end ≡ ReadFault };

    fn from(_failed: Failed) -> ReadEnd {
        ReadEnd::ReadFault
    }
}

impl From<AllocError> for ReadEnd {
    ghost use Rattle.std.specs.Prelude.{◌≡◌};
    ghost use Rattle.tool_io.specs.declared.read.ReadEnd.TheVariants.{NoMemory};

    ghost from_gives = { λ _ end. end ≡ NoMemory };

    fn from(_error: AllocError) -> ReadEnd {
        ReadEnd::NoMemory
    }
}

/// The most bytes that are asked for at once.
const PIECE: usize = 4096;

/// The bytes up to the end of input, of which there are at most `max`. Each fill is offered 4096 bytes, or
/// what is left up to `max + 1` if that is less.
pub fn read_all<S: Source>(alloc: Global, source: &mut S, max: usize) -> Result<Vec<u8>, ReadEnd>
    ensures bound { IfOk result (λ v. vec_len v ≤ max) }
    ensures all { IfOk result (λ v. IfSome (S.left source.old) (λ bytes. v.items ≡ bytes)) }
    ensures ended { IfOk result (λ _. IfSome (S.left source.old) (λ _. S.left source.new ≡ Some [])) }

    // `TooLong` comes only where more is left than `max` bytes, and then one byte more than that is taken.
    ensures too_long { result ≡ Err ReadEnd.TooLong → IfSome (S.left source.old) (λ bytes. max < length bytes) }
    ensures taken { result ≡ Err ReadEnd.TooLong → IfSome (S.left source.old) (λ bytes. S.left source.new ≡ Some (drop (max + 1) bytes)) }

    // After any answer, what is gone is a first part of at most `max + 1` bytes.
    ensures rest { IfSome (S.left source.old) (λ bytes. (n : ℕ) × (n ≤ max + 1) × (S.left source.new ≡ Some (drop n bytes))) }

    ensures fault { result ≡ Err ReadEnd.ReadFault → Rose (S.faults source.old) (S.faults source.new) }
    ensures never_falls { S.faults source.old ≤ S.faults source.new }
{
    let mut all = Vec::new(alloc);
    let mut piece = [0u8; PIECE];
    while all.len() <= max {
        let wanted = (max - all.len()).min(PIECE - 1) + 1;
        let count = source.fill(&mut piece[..wanted])?;
        if count == 0 {
            return Ok(all);
        }
        all.extend_from_slice(&piece[..count])?;
    }
    Err(ReadEnd::TooLong)
}
