ghost use Rattle.std.specs.Prelude.{◌≡◌, IfOk, OnOk};
ghost use Rattle.decl_headers.specs.Faults.{all_noted};
ghost use Rattle.decl_resolve.specs.declared.scope.Site.TheVariants.{Signature as InSignature};
ghost use Rattle.decl_resolve.specs.Scopes.{plain_scope};
ghost use Rattle.decl_classes.specs.Around.{class_names, method_names, scope_under, with_names};
ghost use Rattle.decl_classes.specs.Signatures.{rpl_meant, rpl_faults, constraint_meant, constraint_faults, constraints_meant, constraints_faults};

use decl_headers::{Faults, Headers};
use decl_resolve::{IndexNames, Need, Scope, Scoped, Site, path};
use lang_base::{Constraint, Items, NoMemory, Rpl, Stop};
use std::alloc::Global;
use syntax_tree::{ConstrTree, Method, RplTree};

/// The names that a method has around its signature. A class has none.
#[derive(Drop)]
pub struct Names {
    params: Scoped<bool>,
    /// No formal stands in an index.
    formals: Scoped<Option<u32>>,
    regions: Scoped<u32>,
}

impl Names {
    pub fn new(alloc: Global) -> Names
        ensures { result ≡ class_names }
    {
        Names {
            params: Scoped::new(alloc),
            formals: Scoped::new(alloc),
            regions: Scoped::new(alloc),
        }
    }

    pub fn of_method(alloc: Global, method: &Method) -> Result<Names, NoMemory>
        ensures { IfOk result (λ names. names ≡ method_names method.now) }
    {
        let mut names = Names::new(alloc);
        for param in method.params.list.as_slice() {
            names.params.enter(param.name, param.atomic)?;
        }
        for formal in method.formals.as_slice() {
            names.formals.enter(formal.name, None)?;
        }
        Ok(names)
    }

    /// What is around a signature of a class, where some constraints are in force.
    pub fn scope<'a>(
        &'a self,
        headers: &'a Headers,
        class: u32,
        given: &'a [Constraint],
        classes_given: &'a [Items<Constraint>],
    ) -> Scope<'a>
        ensures scope { plain_scope result ≡ with_names self.now (scope_under headers.now classes_given.now class given.now) }
        ensures site { result.site ≡ InSignature }
    {
        Scope {
            headers,
            class,
            params: &self.params,
            variables: &self.formals,
            regions: &self.regions,
            given,
            classes_given,
            site: Site::Signature,
        }
    }
}

/// Reads a region path outside of types. In a signature its faults are only noted, so nothing but memory can be
/// wanting.
pub fn read_path(
    alloc: Global,
    scope: &Scope,
    faults: &mut Faults,
    tree: &RplTree,
    full: bool,
) -> Result<Option<Rpl>, NoMemory>
    requires { scope.now.site ≡ InSignature }
    ensures meant { IfOk result (λ rpl. rpl ≡ rpl_meant (plain_scope scope.now) tree.now) }
    ensures noted { OnOk result (faults.new ≡ all_noted faults.old (rpl_faults (plain_scope scope.now) full tree.now)) }
{
    let need = Need {
        full,
        atomic: false,
    };
    match path(alloc, scope, faults, tree, need, &IndexNames::none()) {
        Ok(rpl) => Ok(rpl),
        Err(Stop::NoMemory) => Err(NoMemory),
        Err(Stop::Refused(_)) => unreachable!(),
    }
}

/// Reads constraints. One with a path that isn't known is left out.
#[tactic(auto, using(decl_headers::proofs::Noting::noting))]
pub fn read_constraints(
    alloc: Global,
    scope: &Scope,
    faults: &mut Faults,
    trees: &[ConstrTree],
) -> Result<Items<Constraint>, NoMemory>
    requires { scope.now.site ≡ InSignature }
    ensures meant { IfOk result (λ given. given ≡ constraints_meant (plain_scope scope.now) trees.now) }
    ensures noted { OnOk result (faults.new ≡ all_noted faults.old (constraints_faults (plain_scope scope.now) trees.now)) }
{
    let mut given = Items::new(alloc);
    for tree in trees {
        if let Some(constraint) = read_constraint(alloc, scope, faults, tree)? {
            given.push(constraint)?;
        }
    }
    Ok(given)
}

#[tactic(auto, using(decl_headers::proofs::Noting::noting))]
fn read_constraint(
    alloc: Global,
    scope: &Scope,
    faults: &mut Faults,
    tree: &ConstrTree,
) -> Result<Option<Constraint>, NoMemory>
    requires { scope.now.site ≡ InSignature }
    ensures meant { IfOk result (λ constraint. constraint ≡ constraint_meant (plain_scope scope.now) tree.now) }
    ensures noted { OnOk result (faults.new ≡ all_noted faults.old (constraint_faults (plain_scope scope.now) tree.now)) }
{
    let left = read_path(alloc, scope, faults, &tree.left, false)?;
    let right = read_path(alloc, scope, faults, &tree.right, false)?;
    match (left, right) {
        (Some(left), Some(right)) => Ok(Some(Constraint { left, right })),
        _ => Ok(None),
    }
}
