ghost use Rattle.std.specs.Prelude.{◌≡◌, ◌↔◌, ℕ, Contains, IsTrue, IfOk};
ghost use Rattle.std.specs.Ordering.{nat_cmp};
ghost use Rattle.std.specs.List.Sorted.{IsStrictlySortedBy};
ghost use Rattle.syntax_tree.specs.Plain.{plain_stmt};
ghost use Rattle.body_locals.specs.Touches.{stmt_reads, stmt_assigns};

use crate::branch::Touched;
use crate::walk::statement;
use lang_base::{Items, NoMemory};
use std::alloc::Global;
use std::collections::BTreeSet;
use syntax_tree::Stmt;

/// The locals declared outside of a statement that it reads and assigns, each once. No two locals that are in
/// scope at one place share a name, so that a name tells the local.
pub fn touched(alloc: Global, stmt: &Stmt) -> Result<Touched, NoMemory>
    ensures reads { IfOk result (λ t. (x : ℕ) → IsTrue (stmt_reads x (plain_stmt stmt.now)) ↔ Contains t.reads x) }
    ensures writes { IfOk result (λ t. (x : ℕ) → IsTrue (stmt_assigns x (plain_stmt stmt.now)) ↔ Contains t.writes x) }
    ensures once { IfOk result (λ t. IsStrictlySortedBy nat_cmp t.reads × IsStrictlySortedBy nat_cmp t.writes) }
{
    let mut inside = BTreeSet::new(alloc);
    let mut reads = BTreeSet::new(alloc);
    let mut writes = BTreeSet::new(alloc);
    statement(alloc, &mut inside, &mut reads, &mut writes, stmt)?;
    Ok(Touched {
        reads: listed(alloc, &reads)?,
        writes: listed(alloc, &writes)?,
    })
}

/// The names of a set, in order.
fn listed(alloc: Global, names: &BTreeSet<u32>) -> Result<Items<u32>, NoMemory>
    ensures keys { IfOk result (λ list. list ≡ names.now.keys) }
    ensures sorted { IfOk result (λ list. IsStrictlySortedBy nat_cmp list) }
{
    let list = names.iter().copied().collect(alloc)?;
    Ok(Items::from_vec(list))
}
