ghost use Rattle.std.specs.Prelude.{◌≡◌, IfOk};
ghost use Rattle.lang_base.specs.Types.{plain_type};
ghost use Rattle.body_exprs.specs.Env.{supers_of};
ghost use Rattle.body_exprs.specs.Fits.{fits_as};
ghost use Rattle.body_exprs.specs.Partial.{param_number, mentions_partial, rigid_in_partial};
ghost use Rattle.body_exprs.specs.Refusing.{refusal_at};
ghost use Rattle.body_exprs.specs.Typed.{value_type};

use crate::env::Env;
use crate::typed::Typed;
use lang_base::{Kind, NoMemory, Place, Refusal, Rpl, Stop, Ty};
use region_paths::is_full;
use region_types::{mentions, rigid};

/// A refusal as what stops a pass.
pub fn refused(kind: Kind, place: Place) -> Stop
    ensures { result ≡ refusal_at kind place }
{
    Stop::Refused(Refusal { kind, place })
}

/// Whether a value may stand where the type is declared.
pub fn fits(env: &Env, value: &Typed, declared: &Ty) -> Result<bool, NoMemory>
    ensures { IfOk result (λ fit. fit ≡ fits_as (supers_of env.now) (value_type value.now) (plain_type declared.now)) }
{
    match value {
        Typed::Known(value) => env.supers.fit(env.alloc, &value.ty, declared),
        Typed::Any => Ok(true),
    }
}

/// A position among region parameters as a number.
fn param_number(at: usize) -> u32
    ensures { result ≡ param_number at }
{
    at.min(u32::MAX as usize) as u32
}

/// Whether the type mentions a parameter whose argument isn't fully specified.
pub fn mentions_partial(t: &Ty, args: &[Rpl]) -> bool
    ensures { result ≡ mentions_partial (plain_type t.now) 0 args.now }
{
    for (number, arg) in args.iter().enumerate() {
        if !is_full(arg) && mentions(t, param_number(number)) {
            return true;
        }
    }
    false
}

/// Whether the type is rigid in a parameter whose argument isn't fully specified.
pub fn rigid_in_partial(t: &Ty, args: &[Rpl]) -> bool
    ensures { result ≡ rigid_in_partial (plain_type t.now) 0 args.now }
{
    for (number, arg) in args.iter().enumerate() {
        if !is_full(arg) && rigid(t, param_number(number)) {
            return true;
        }
    }
    false
}
