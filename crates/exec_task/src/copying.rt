ghost use Rattle.std.specs.Prelude.{◌≡◌, ◌==◌, map, true, IsTrue};
ghost use Rattle.std.specs.List.{list_any};
ghost use Rattle.lang_meaning.specs.Counts.{copied};
ghost use Rattle.code_instrs.specs.Machine.{all_copied};
ghost use Rattle.exec_frames.specs.Names.{plain_value};
ghost use Rattle.exec_task.specs.Tasks.{plain_slot};

use code_instrs::BranchCopies;
use exec_frames::set_slot;
use lang_base::{Items, SlotValue, Value};

/// Where among the slots that a join copies back one stands. The branches gave them in the same order, so each is looked for first
/// where the last one was found.
#[derive(Clone, Copy, Debug)]
struct Spot {
    branch: usize,
    at: usize,
}

impl Spot {
    /// The first one of this branch, or of a later one.
    fn first(copies: &[BranchCopies], branch: usize) -> Spot {
        for branch in branch..copies.len() {
            if !copies[branch].slots.is_empty() {
                return Spot { branch, at: 0 };
            }
        }
        Spot { branch, at: 0 }
    }

    /// Whether this slot stands there.
    #[tactic(auto, using(crate::proofs::Spots::copied_there))]
    fn has(self, copies: &[BranchCopies], slot: u32) -> bool
        ensures { IsTrue result → list_any (λ y. slot == y) (all_copied (map (λ c. c.slots) copies.now)) ≡ true }
    {
        let Some(copied) = copies.get(self.branch) else {
            return false;
        };
        let Some(found) = copied.slots.get(self.at) else {
            return false;
        };
        slot == *found
    }

    /// The next one, in this branch or a later one.
    fn next(self, copies: &[BranchCopies]) -> Spot {
        let at = self.at.saturating_add(1);
        if let Some(copied) = copies.get(self.branch)
            && at < copied.slots.len()
        {
            return Spot {
                branch: self.branch,
                at,
            };
        }
        Spot::first(copies, self.branch.saturating_add(1))
    }
}

/// Whether a join copies a slot back, which may stand here.
fn is_copied_at(copies: &[BranchCopies], spot: Spot, slot: u32) -> bool
    ensures { result ≡ list_any (λ y. slot == y) (all_copied (map (λ c. c.slots) copies.now)) }
{
    if spot.has(copies, slot) {
        return true;
    }
    is_copied(copies, slot)
}

/// Whether a join copies a slot back.
fn is_copied(copies: &[BranchCopies], slot: u32) -> bool
    ensures { result ≡ list_any (λ y. slot == y) (all_copied (map (λ c. c.slots) copies.now)) }
{
    for copied in copies {
        if is_among(copied.slots.as_slice(), slot) {
            return true;
        }
    }
    false
}

fn is_among(slots: &[u32], slot: u32) -> bool
    ensures { result ≡ list_any (λ y. slot == y) slots.now }
{
    for other in slots {
        if slot == *other {
            return true;
        }
    }
    false
}

/// Copies the slots back that a join does copy back.
pub fn copy_back(values: &mut Items<Value>, copies: &[BranchCopies], slots: &[SlotValue])
    ensures { map plain_value values.new ≡ copied (all_copied (map (λ c. c.slots) copies.now)) (map plain_slot slots.now) (map plain_value values.old) }
{
    let mut spot = Spot::first(copies, 0);
    for copied in slots {
        if is_copied_at(copies, spot, copied.slot) {
            set_slot(values, copied.slot as usize, copied.value);
        }
        spot = spot.next(copies);
    }
}
