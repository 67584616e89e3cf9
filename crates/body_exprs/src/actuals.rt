ghost use Rattle.std.specs.Prelude.{◌≡◌, None, Some, map, IfOk};
ghost use Rattle.decl_headers.specs.Faults.{reported, all_noted, settled};
ghost use Rattle.decl_headers.specs.Passes.{fault_if};
ghost use Rattle.decl_resolve.specs.Constraints.{all_hold};
ghost use Rattle.body_exprs.specs.Answer.{Says};
ghost use Rattle.body_exprs.specs.Env.{supers_of, given_in};
ghost use Rattle.body_exprs.specs.Fits.{all_fit};
ghost use Rattle.body_exprs.specs.Typed.{value_type};
ghost use Rattle.body_exprs.specs.Uses.{use_faults, use_reported, unknown_reported};

use crate::env::Env;
use crate::fitting::{fits, refused};
use crate::typed::Typed;
use decl_headers::Faults;
use decl_resolve::constraints_hold;
use lang_base::{Constraint, Kind, NoMemory, Place, Rpl, Stop, Ty};
use region_types::subst_type;

/// Notes a fault where something is so.
pub fn note_if(faults: &mut Faults, is_so: bool, kind: Kind, place: Place)
    ensures { faults.new ≡ all_noted faults.old (fault_if is_so kind place) }
{
    if is_so {
        faults.note(kind, place);
    }
}

/// Tells what is wrong in a call or a creation whose region arguments are known, after the faults that are noted
/// already.
pub fn check_use(
    env: &Env,
    faults: Faults,
    args: &[Rpl],
    actuals: &[Typed],
    declared: &[Ty],
    constraints: &[Constraint],
    partial: bool,
    place: Place,
) -> Result<(), Stop>
    ensures { Says result (λ u. None) Some (λ t. use_reported env.now faults args.now (map value_type actuals.now) declared.now partial (all_hold (given_in env.now) args.now constraints.now) place ≡ t) }
{
    let fit = all_fit(env, actuals, declared, args)?;
    let hold = constraints_hold(env.alloc, constraints, args, env.given())?;
    tell_use(faults, partial, fit, hold, place)?;
    Ok(())
}

#[tactic(auto, using(crate::proofs::Telling::noted_three))]
fn tell_use(faults: Faults, partial: bool, fit: bool, hold: bool, place: Place) -> Result<(), Stop>
    ensures { result ≡ settled (reported (all_noted faults (use_faults partial fit hold place))) }
{
    let mut faults = faults;
    note_if(&mut faults, partial, Kind::PartialWrite, place);
    note_if(&mut faults, !fit, Kind::Type, place);
    note_if(&mut faults, !hold, Kind::Constraint, place);
    faults.settle()
}

/// The refusal of a call or a creation whose region arguments aren't known, where the actuals may fit for some regions
/// or not.
pub fn unknown_args(faults: Faults, fit: bool, place: Place) -> Stop
    ensures { result ≡ Stop.Refused (unknown_reported faults fit place) }
{
    let mut faults = faults;
    note_if(&mut faults, !fit, Kind::Type, place);
    match faults.settle() {
        Ok(()) => refused(Kind::RegionArgs, place),
        Err(stop) => stop,
    }
}

/// Whether there are as many values as declared types, and each fits the one at its place with region arguments put
/// in.
fn all_fit(env: &Env, actuals: &[Typed], declared: &[Ty], args: &[Rpl]) -> Result<bool, NoMemory>
    ensures { IfOk result (λ fit. fit ≡ all_fit (supers_of env.now) args.now (map value_type actuals.now) declared.now) }
{
    if actuals.len() != declared.len() {
        return Ok(false);
    }
    for i in 0..actuals.len() {
        let ty = subst_type(env.alloc, &declared[i], args)?;
        if !fits(env, &actuals[i], &ty)? {
            return Ok(false);
        }
    }
    Ok(true)
}
