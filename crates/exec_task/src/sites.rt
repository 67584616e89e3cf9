ghost use Rattle.std.specs.Prelude.{◌≡◌, map, slice_get, IfOk};
ghost use Rattle.lang_meaning.specs.Regions.{around, concrete, some_long};
ghost use Rattle.code_instrs.specs.Machine.{called, created, makes_array, forked, spread};
ghost use Rattle.code_instrs.specs.Plain.{plain_code};
ghost use Rattle.exec_frames.specs.Names.{plain_value};
ghost use Rattle.exec_task.specs.Names.{names_of};
ghost use Rattle.exec_task.specs.Steps.{Acts, Looks, Creates, Spreads};
ghost use Rattle.exec_task.specs.Tasks.{plain_frame, plain_level};

use crate::action::{Action, Ending, Own};
use crate::classes::constructor_of;
use crate::step::Step;
use crate::task::Level;
use code_instrs::{Code, Site};
use exec_frames::{concrete, concrete_all, how_many, is_long, number, reference, some_long};
use lang_base::{Items, NoMemory, Place, Region, Rpl, Trap, Value};
use lang_typed::Forking;
use std::alloc::Global;

/// An end by a trap.
fn trapped(trap: Trap, place: Place) -> Step
    ensures { result ≡ Step.Ends (Ending.Trapped trap place) }
{
    Step::Ends(Ending::Trapped(trap, place))
}

fn new_object(class: u32, regions: Items<Region>, constructor: bool) -> Step
    ensures { result ≡ Step.Waits (Action.Do (Own.NewObject class regions constructor)) }
{
    Step::Waits(Action::Do(Own::NewObject {
        class,
        regions,
        constructor,
    }))
}

impl Level {
    /// A call, by its site.
    pub fn call(
        &self,
        alloc: Global,
        code: &Code,
        place: Place,
        site: usize,
    ) -> Result<Step, NoMemory>
        ensures { IfOk result (λ s. Acts (plain_code code.now) (λ names fs. called names (plain_code code.now) place (slice_get (plain_code code.now).sites site) (plain_level self.now) fs) self.now s) }
    {
        let Some(
            Site::Call {
                formals,
                regions,
                ..
            },
        ) = code.sites.get(site)
        else {
            return Ok(Step::Stuck);
        };
        let Some(receiver) = self.stack.get(*formals) else {
            return Ok(Step::Stuck);
        };
        self.look(alloc, place, *receiver, regions)
    }

    /// The look at the receiver of a call.
    fn look(
        &self,
        alloc: Global,
        place: Place,
        receiver: Value,
        regions: &Items<Rpl>,
    ) -> Result<Step, NoMemory>
        ensures { IfOk result (λ s. Looks place receiver regions.now self.now s) }
    {
        let Some(object) = reference(receiver) else {
            return Ok(trapped(Trap::Null, place));
        };
        if self.frame.left == 0 {
            return Ok(trapped(Trap::Stack, place));
        }
        if self.takes_long(alloc, regions)? {
            return Ok(trapped(Trap::Stack, place));
        }
        Ok(Step::Waits(Action::Do(Own::Look { object })))
    }

    /// Whether one of these region arguments has too many elements.
    fn takes_long(&self, alloc: Global, regions: &Items<Rpl>) -> Result<bool, NoMemory>
        ensures { IfOk result (λ b. b ≡ some_long (map (concrete (names_of 0) (around (plain_frame self.now.frame))) regions.now)) }
    {
        Ok(some_long(&concrete_all(alloc, &self.frame, regions)?))
    }

    /// The creation of an object, by its site.
    pub fn create(
        &self,
        alloc: Global,
        code: &Code,
        place: Place,
        site: usize,
    ) -> Result<Step, NoMemory>
        ensures { IfOk result (λ s. Acts (plain_code code.now) (λ names fs. created names (plain_code code.now) place (slice_get (plain_code code.now).sites site) (plain_level self.now) fs) self.now s) }
    {
        let Some(
            Site::New {
                class,
                formals,
                regions,
            },
        ) = code.sites.get(site)
        else {
            return Ok(Step::Stuck);
        };
        if self.stack.len() < *formals {
            return Ok(Step::Stuck);
        }
        self.make(alloc, code, place, *class, regions)
    }

    /// The making of the object.
    fn make(
        &self,
        alloc: Global,
        code: &Code,
        place: Place,
        class: u32,
        regions: &Items<Rpl>,
    ) -> Result<Step, NoMemory>
        ensures { IfOk result (λ s. Creates (plain_code code.now) place class regions.now self.now s) }
    {
        let regions = concrete_all(alloc, &self.frame, regions)?;
        if some_long(&regions) {
            return Ok(trapped(Trap::Stack, place));
        }
        if constructor_of(code, class).is_none() {
            return Ok(new_object(class, regions, false));
        }
        if self.frame.left == 0 {
            return Ok(trapped(Trap::Stack, place));
        }
        Ok(new_object(class, regions, true))
    }

    /// The creation of an array, by its site.
    pub fn create_array(
        &self,
        alloc: Global,
        code: &Code,
        place: Place,
        site: usize,
    ) -> Result<Step, NoMemory>
        ensures { IfOk result (λ s. Acts (plain_code code.now) (λ names fs. makes_array names place (slice_get (plain_code code.now).sites site) (plain_level self.now) fs) self.now s) }
    {
        let Some(Site::Array { region, first }) = code.sites.get(site) else {
            return Ok(Step::Stuck);
        };
        let Some(len) = self.stack.top() else {
            return Ok(Step::Stuck);
        };
        let len = number(len);
        if len < 0 {
            return Ok(trapped(Trap::Size, place));
        }
        let region = concrete(alloc, &self.frame, region)?;
        if is_long(&region) {
            return Ok(trapped(Trap::Stack, place));
        }
        Ok(Step::Waits(Action::Do(Own::NewArray {
            region,
            len: len as u32,
            first: first.value(),
        })))
    }

    /// Branches, by their site.
    pub fn fork(&self, code: &Code, place: Place, site: usize) -> Step
        ensures { Acts (plain_code code.now) (λ names fs. forked place (slice_get (plain_code code.now).sites site) (plain_level self.now) fs) self.now result }
    {
        let Some(
            Site::Fork {
                forking,
                bodies,
                ..
            },
        ) = code.sites.get(site)
        else {
            return Step::Stuck;
        };
        if self.frame.left == 0 {
            return trapped(Trap::Stack, place);
        }
        Step::Waits(Action::Fork {
            forking: *forking,
            branches: bodies.len(),
        })
    }

    /// A branch for each number, by its site.
    pub fn spread(&self, code: &Code, place: Place, site: usize) -> Step
        ensures { Acts (plain_code code.now) (λ names fs. spread place (slice_get (plain_code code.now).sites site) (plain_level self.now) fs) self.now result }
    {
        let Some(Site::Spread { forking, .. }) = code.sites.get(site) else {
            return Step::Stuck;
        };
        self.spread_out(place, *forking)
    }

    /// The fork of a branch for each number.
    #[tactic(auto, using(crate::proofs::Taken::length_each))]
    fn spread_out(&self, place: Place, forking: Forking) -> Step
        ensures { Spreads place forking self.now result }
    {
        let Some((_, count)) = self.stack.top_two() else {
            return Step::Stuck;
        };
        if self.frame.left == 0 {
            return trapped(Trap::Stack, place);
        }
        Step::Waits(Action::Fork {
            forking,
            branches: how_many(number(count)),
        })
    }
}
