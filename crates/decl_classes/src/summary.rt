ghost use Rattle.std.specs.Prelude.{◌≡◌, ◌∷◌, [], None, IfOk, OnOk};
ghost use Rattle.lang_base.specs.Effects.{gathered};
ghost use Rattle.decl_headers.specs.Faults.{all_noted};
ghost use Rattle.decl_resolve.specs.declared.scope.Site.TheVariants.{Signature as InSignature};
ghost use Rattle.decl_resolve.specs.Scopes.{plain_scope};
ghost use Rattle.decl_classes.specs.Signatures.{effects_meant, item_faults, summary_meant, summary_faults};
ghost use Rattle.decl_classes.specs.Summary.{anything};

use crate::around::read_path;
use decl_headers::Faults;
use decl_resolve::Scope;
use lang_base::{Access, Effect, Elem, Elems, Head, NoMemory, Rpl};
use region_effects::EffectSet;
use std::alloc::Global;
use syntax_tree::{Item, SummaryTree};

/// Reads a summary. One that is missing is `writes Root:*`. An item with a path that isn't known is left out.
#[tactic(auto, using(decl_headers::proofs::Noting::noting))]
pub fn read_summary(
    alloc: Global,
    scope: &Scope,
    faults: &mut Faults,
    tree: &Option<SummaryTree>,
) -> Result<EffectSet, NoMemory>
    requires { scope.now.site ≡ InSignature }
    ensures missing { IfOk result (λ made. tree.now ≡ None → made ≡ anything ∷ []) }
    ensures meant { IfOk result (λ made. made ≡ summary_meant (plain_scope scope.now) tree.now) }
    ensures noted { OnOk result (faults.new ≡ all_noted faults.old (summary_faults (plain_scope scope.now) tree.now)) }
{
    let mut summary = EffectSet::new(alloc);
    match tree {
        None => summary.add(anything(alloc)?)?,
        Some(tree) => {
            let (reads, writes) = (tree.reads.as_slice(), tree.writes.as_slice());
            read_items(alloc, scope, faults, reads, Access::Read, &mut summary)?;
            read_items(alloc, scope, faults, writes, Access::Write, &mut summary)?;
        }
    }
    Ok(summary)
}

/// `writes Root:*`.
fn anything(alloc: Global) -> Result<Effect, NoMemory>
    ensures { IfOk result (λ made. made ≡ anything) }
{
    let mut elems = Elems::new(alloc);
    elems.push(Elem::Star)?;
    Ok(Effect {
        access: Access::Write,
        atomic: false,
        rpl: Rpl {
            head: Head::Root,
            elems,
        },
    })
}

#[tactic(auto, using(decl_headers::proofs::Noting::noting))]
fn read_items(
    alloc: Global,
    scope: &Scope,
    faults: &mut Faults,
    items: &[Item],
    access: Access,
    summary: &mut EffectSet,
) -> Result<(), NoMemory>
    requires { scope.now.site ≡ InSignature }
    ensures meant { OnOk result (summary.new ≡ gathered summary.old (effects_meant (plain_scope scope.now) access items.now)) }
    ensures noted { OnOk result (faults.new ≡ all_noted faults.old (item_faults (plain_scope scope.now) items.now)) }
{
    for item in items {
        if let Some(rpl) = read_path(alloc, scope, faults, &item.rpl, false)? {
            summary.add(Effect {
                access,
                atomic: item.atomic,
                rpl,
            })?;
        }
    }
    Ok(())
}
