ghost use Rattle.std.specs.Prelude.{◌≡◌, IfOk};
ghost use Rattle.decl_resolve.specs.Constraints.{holds_at, all_hold};

use lang_base::{Constraint, NoMemory, Rpl};
use region_paths::{disjoint, subst};
use std::alloc::Global;

/// Whether each of the constraints holds with region arguments put in, where those that are given are in force.
pub fn constraints_hold(
    alloc: Global,
    constraints: &[Constraint],
    args: &[Rpl],
    given: &[Constraint],
) -> Result<bool, NoMemory>
    ensures { IfOk result (λ hold. hold ≡ all_hold given.now args.now constraints.now) }
{
    for constraint in constraints {
        if !holds_at(alloc, constraint, args, given)? {
            return Ok(false);
        }
    }
    Ok(true)
}

fn holds_at(
    alloc: Global,
    constraint: &Constraint,
    args: &[Rpl],
    given: &[Constraint],
) -> Result<bool, NoMemory>
    ensures { IfOk result (λ holds. holds ≡ holds_at given.now args.now constraint.now) }
{
    let left = subst(alloc, &constraint.left, args)?;
    let right = subst(alloc, &constraint.right, args)?;
    Ok(disjoint(&left, &right, given))
}
