ghost use Rattle.std.specs.Prelude.{◌≡◌};
ghost use Rattle.lang_typed.specs.Effects.{does, uses};
ghost use Rattle.body_infer.specs.Walked.{done_of, access_to};

use lang_base::{Access, Effect, Rpl};
use lang_typed::Slot;

/// An effect, or one that an access through a part of an array has.
#[derive(Drop)]
pub struct Own {
    pub effect: Effect,
    /// The slot of the part.
    pub part: Option<Slot>,
}

/// An access to a region path.
pub fn does(access: Access, rpl: Rpl) -> Own
    ensures { done_of result ≡ does (access_to access rpl) }
{
    Own {
        effect: plain(access, rpl),
        part: None,
    }
}

/// An access through a part of an array in that region path.
pub fn uses(part: Slot, access: Access, rpl: Rpl) -> Own
    ensures { done_of result ≡ uses part.number (access_to access rpl) }
{
    Own {
        effect: plain(access, rpl),
        part: Some(part),
    }
}

fn plain(access: Access, rpl: Rpl) -> Effect
    ensures { result ≡ access_to access rpl }
{
    Effect {
        access,
        atomic: false,
        rpl,
    }
}
