ghost use Rattle.std.specs.Prelude.{◌≡◌, ◌==◌, ◌++◌, map, OnOk};
ghost use Rattle.std.specs.List.{list_any};
ghost use Rattle.lang_typed.specs.Plain.{branches_of};
ghost use Rattle.lang_meaning.specs.Counts.{assigned, copied};
ghost use Rattle.lang_meaning.specs.Statements.{all_copies};
ghost use Rattle.exec_frames.specs.Names.{plain_value};
ghost use Rattle.exec_walker.specs.States.{plain_branch, plain_given};

use crate::waiting::{Fork, Given};
use exec_frames::{set_slot, slot};
use lang_base::{Items, NoMemory, Value};
use lang_typed::{Branch, Slot};

impl<'p> Fork<'p> {
    /// The branch at work gives its locals back.
    pub fn give_back(&mut self, values: &Items<Value>) -> Result<(), NoMemory>
        ensures back { OnOk result (map plain_given self.new.back ≡ map plain_given self.old.back ++ assigned (map (λ slot. slot.number) self.old.running.now) (map plain_value values.now)) }
        ensures kept { OnOk result (self.new ≡ record self.old { back = self.new.back }) }
    {
        for copied in self.running {
            self.back.push(Given {
                slot: copied.number,
                value: slot(values, copied.number as usize),
            })?;
        }
        Ok(())
    }
}

/// Copies the slots back that the join of these branches copies back.
pub fn copy_back(values: &mut Items<Value>, branches: &[Branch], back: &[Given])
    ensures { map plain_value values.new ≡ copied (all_copies (branches_of (map plain_branch branches.now))) (map plain_given back.now) (map plain_value values.old) }
{
    for given in back {
        if is_copied(branches, given.slot) {
            set_slot(values, given.slot as usize, given.value);
        }
    }
}

/// Whether the join of branches copies a slot back.
fn is_copied(branches: &[Branch], slot: u32) -> bool
    ensures { result ≡ list_any (λ y. slot == y) (all_copies (branches_of (map plain_branch branches.now))) }
{
    for branch in branches {
        if is_among(branch.copies.as_slice(), slot) {
            return true;
        }
    }
    false
}

fn is_among(slots: &[Slot], slot: u32) -> bool
    ensures { result ≡ list_any (λ y. slot == y) (map (λ s. s.number) slots.now) }
{
    for other in slots {
        if other.number == slot {
            return true;
        }
    }
    false
}
