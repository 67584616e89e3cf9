use decl_table::{MethodRow, Table};
use lang_base::{Access, Effect, Items, NoMemory, PartUse, Rpl};
use region_effects::EffectSet;
use region_paths::subst;
use std::alloc::Global;

/// What was found, in the order of evaluation: the effects, and the uses of array parts apart from them.
#[derive(Drop)]
pub struct Found {
    pub effects: EffectSet,
    pub uses: Items<PartUse>,
    /// An nd construct stands there, or is reached through a method or a constructor that is called.
    pub reaches_nd: bool,
}

impl Found {
    ghost use Rattle.std.specs.Prelude.{◌≡◌, [], false, OnOk};
    ghost use Rattle.body_exprs.specs.Answer.{with_access, with_part_use, with_summary, with_call};

    pub fn new(alloc: Global) -> Found
        ensures { result ≡ record { effects = []; uses = []; reaches_nd = false } }
    {
        Found {
            effects: EffectSet::new(alloc),
            uses: Items::new(alloc),
            reaches_nd: false,
        }
    }

    /// Adds a plain read or write.
    pub fn access(&mut self, rpl: Rpl, access: Access) -> Result<(), NoMemory>
        ensures { OnOk result (self.new ≡ with_access self.old rpl access) }
    {
        self.effects.add(Effect {
            access,
            atomic: false,
            rpl,
        })
    }

    /// Adds a read or a write through a part of an array.
    pub fn part_use(&mut self, view: u32, rpl: Rpl, access: Access) -> Result<(), NoMemory>
        ensures { OnOk result (self.new ≡ with_part_use self.old view rpl access) }
    {
        self.uses.push(PartUse { view, rpl, access })
    }

    /// Adds what a call of a method or a constructor of the table does, with region arguments put in.
    pub fn call(
        &mut self,
        alloc: Global,
        table: &Table,
        row: &MethodRow,
        args: &[Rpl],
    ) -> Result<(), NoMemory>
        ensures { OnOk result (self.new ≡ with_call table.now self.old row.now args.now) }
    {
        self.reaches_nd = self.reaches_nd || table.forks(row.id);
        self.summary(alloc, &row.summary, args)
    }

    /// Adds the effects of a summary, with region arguments put in.
    fn summary(&mut self, alloc: Global, summary: &EffectSet, args: &[Rpl]) -> Result<(), NoMemory>
        ensures { OnOk result (self.new ≡ with_summary self.old summary.now args.now) }
    {
        for effect in summary.as_slice() {
            self.effects.add(Effect {
                access: effect.access,
                atomic: effect.atomic,
                rpl: subst(alloc, &effect.rpl, args)?,
            })?;
        }
        Ok(())
    }
}
