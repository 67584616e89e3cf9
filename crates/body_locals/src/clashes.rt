ghost use Rattle.std.specs.Prelude.{◌↔◌, ◌<◌, length, IsTrue, Contains};
ghost use Rattle.lang_base.specs.Pairs.{FirstPair, FirstAfter};
ghost use Rattle.body_locals.specs.Clash.{Uses, Disturbs, Clash};

use crate::branch::Touched;
use lang_base::Items;

/// The first two branches, in their order, of which one assigns a local that the other reads or assigns.
pub fn clash(branches: &[Touched]) -> Option<(u32, u32)>
    requires { length branches.now < 4294967296 }
    ensures { FirstPair Clash branches.now result }
{
    for i in 0..branches.len() {
        if let Some(j) = clash_after(branches, i) {
            return Some((i as u32, j as u32));
        }
    }
    None
}

/// The first branch after this one that clashes with it.
fn clash_after(branches: &[Touched], i: usize) -> Option<usize>
    requires { i < length branches.now }
    ensures { FirstAfter Clash branches.now i result }
{
    for j in i + 1..branches.len() {
        if clashes(&branches[i], &branches[j]) {
            return Some(j);
        }
    }
    None
}

fn clashes(branch: &Touched, other: &Touched) -> bool
    ensures { IsTrue result ↔ Clash branch.now other.now }
{
    disturbs(branch, other) || disturbs(other, branch)
}

/// Whether a branch assigns a local that the other one reads or assigns.
fn disturbs(branch: &Touched, other: &Touched) -> bool
    ensures { IsTrue result ↔ Disturbs branch.now other.now }
{
    for local in branch.writes.as_slice() {
        if uses(other, *local) {
            return true;
        }
    }
    false
}

fn uses(branch: &Touched, local: u32) -> bool
    ensures { IsTrue result ↔ Uses branch.now local }
{
    has(&branch.reads, local) || has(&branch.writes, local)
}

fn has(locals: &Items<u32>, local: u32) -> bool
    ensures { IsTrue result ↔ Contains locals.now local }
{
    locals.as_slice().contains(&local)
}
