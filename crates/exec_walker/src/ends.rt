ghost use Rattle.std.specs.Prelude.{◌∷◌, map};
ghost use Rattle.lang_meaning.specs.Counts.{brought};
ghost use Rattle.lang_meaning.specs.Elision.{LocalRegion};
ghost use Rattle.lang_meaning.specs.Elision.{Store as Elided};
ghost use Rattle.lang_meaning.specs.Outcomes.{joined_or};
ghost use Rattle.exec_walker.specs.Walk.{At, falls, ends, branches, noted, rejoins, for_branch};
ghost use Rattle.exec_walker.specs.Falls.{FallsOn, IsShorter, IsNoLonger};
ghost use Rattle.exec_walker.specs.States.{Does, end_of, construct, plain_given, plain_level, plain_waiting, rest_of, work_of};
ghost use Rattle.exec_walker.specs.Stores.{Holds};
ghost use Rattle.lang_meaning.specs.Asking.{ended};
ghost use Rattle.lang_base.specs.declared.outcome.Limits.{Limits};

use crate::Halt;
use crate::copies::copy_back;
use crate::level::Level;
use crate::waiting::{Awaited, Fork, Waiting};
use crate::walker::{Falling, Over, Walker};
use lang_base::{Place, Trap, Value};

impl<'p> Walker<'p> {
    /// A trap ends the body at work and those that called it, up to a branch: the next branch begins, or after the last one the
    /// first trap goes on.
    pub fn fall(&mut self, trap: Trap, place: Place) -> Result<Option<Over>, Halt>
        ensures { Does (λ g ws w. falls ws trap place w) self.old result self.new }
    {
        let mut falling = (trap, place);
        loop {
            match self.fall_once(falling.0, falling.1)? {
                Falling::On(trap, place) => falling = (trap, place),
                Falling::Comes(over) => return Ok(over),
            }
        }
    }

    /// A trap ends the innermost of what waits.
    fn fall_once(&mut self, trap: Trap, place: Place) -> Result<Falling, Halt>
        ensures falls { (L : Limits) (w : Elided) → Holds L self.old.store w → FallsOn L (map plain_waiting self.old.waiting) trap place w result self.new }
        ensures shorter { IsShorter self.old result self.new }
    {
        match self.waiting.pop() {
            None => {
                self.store.note(trap, place);
                Ok(Falling::Comes(Some(Over::Trapped(trap, place))))
            }
            Some(Waiting { level, awaited }) => match awaited {
                Awaited::Value | Awaited::Object(_) => Ok(Falling::On(trap, place)),
                Awaited::Branch(fork) => self.branch_falls(level, fork, trap, place),
            },
        }
    }

    /// A branch ends by a trap.
    #[tactic(auto, using(crate::proofs::OverLimit::overs, crate::proofs::Falling::fallings))]
    fn branch_falls(
        &mut self,
        outer: Level<'p>,
        fork: Fork<'p>,
        trap: Trap,
        place: Place,
    ) -> Result<Falling, Halt>
        ensures falls { (L : Limits) (w : Elided) → Holds L self.old.store w → FallsOn L (for_branch (construct fork.entry (plain_level outer.entry)) (work_of fork.entry.running.now) (rest_of fork.entry (plain_level outer.entry)) ∷ map plain_waiting self.old.waiting) trap place w result self.new }
        ensures shorter { IsNoLonger self.old result self.new }
    {
        let mut fork = fork;
        self.store.note(trap, place);
        let fell = fork.fell.unwrap_or((trap, place));
        fork.fell = Some(fell);
        self.store.count()?;
        match fork.begin(self.alloc, &outer)? {
            Some(level) => Ok(Falling::Comes(self.start(level, outer, fork)?)),
            None => Ok(Falling::On(fell.0, fell.1)),
        }
    }

    /// A branch is at work, and its construct waits for it.
    fn start(
        &mut self,
        level: Level<'p>,
        outer: Level<'p>,
        fork: Fork<'p>,
    ) -> Result<Option<Over>, Halt>
        ensures { Does (λ g ws w. At (plain_level level.entry) (for_branch (construct fork.entry (plain_level outer.entry)) (work_of fork.entry.running.now) (rest_of fork.entry (plain_level outer.entry)) ∷ ws) w) self.old result self.new }
    {
        self.level = level;
        self.wait(Waiting {
            level: outer,
            awaited: Awaited::Branch(fork),
        })
    }

    /// Something waits for the body at work.
    pub fn wait(&mut self, waiting: Waiting<'p>) -> Result<Option<Over>, Halt>
        ensures { Does (λ g ws w. At g (plain_waiting waiting.entry ∷ ws) w) self.old result self.new }
    {
        if self.waiting.push(waiting).is_err() {
            return Err(Halt::NoMemory);
        }
        Ok(None)
    }

    /// The next branch of a construct begins, or its branches join.
    #[tactic(auto, using(crate::proofs::OverLimit::overs, crate::proofs::Falling::fallings))]
    pub fn branches(&mut self, outer: Level<'p>, fork: Fork<'p>) -> Result<Option<Over>, Halt>
        ensures { Does (λ g ws w. branches (construct fork.entry (plain_level outer.entry)) (rest_of fork.entry (plain_level outer.entry)) ws w) self.old result self.new }
    {
        let mut fork = fork;
        self.store.count()?;
        match fork.begin(self.alloc, &outer)? {
            Some(level) => self.start(level, outer, fork),
            None => self.join(outer, fork),
        }
    }

    /// The body that forked goes on with what the branches gave back, or with the trap of the first that fell.
    fn join(&mut self, outer: Level<'p>, fork: Fork<'p>) -> Result<Option<Over>, Halt>
        ensures { Does (λ g ws w. rejoins (construct fork.entry (plain_level outer.entry)) ws (brought {M = LocalRegion} (joined_or fork.entry.fell (map plain_given fork.entry.back))) w) self.old result self.new }
    {
        if let Some((trap, place)) = fork.fell {
            return self.fall(trap, place);
        }
        self.level = outer;
        copy_back(
            &mut self.level.frame.values,
            fork.branches,
            fork.back.as_slice(),
        );
        Ok(None)
    }

    /// The body at work ends, with a value or without one: what waits for it goes on.
    pub fn end(&mut self, value: Option<Value>) -> Result<Option<Over>, Halt>
        ensures { Does (λ g ws w. ends ws (end_of value g.frame) w) self.old result self.new }
    {
        match self.waiting.pop() {
            None => Ok(Some(Over::Returned(value.unwrap_or(Value::Null)))),
            Some(Waiting { level, awaited }) => match awaited {
                Awaited::Value => {
                    self.level = level;
                    self.give(0, value.unwrap_or(Value::Null))
                }
                Awaited::Object(object) => {
                    self.level = level;
                    self.give(0, object)
                }
                Awaited::Branch(fork) => self.end_branch(level, fork, value),
            },
        }
    }

    /// A branch ends.
    fn end_branch(
        &mut self,
        outer: Level<'p>,
        fork: Fork<'p>,
        value: Option<Value>,
    ) -> Result<Option<Over>, Halt>
        ensures { Does (λ g ws w. branches (noted (construct fork.entry (plain_level outer.entry)) (ended (work_of fork.entry.running.now) (end_of value g.frame))) (rest_of fork.entry (plain_level outer.entry)) ws w) self.old result self.new }
    {
        let mut fork = fork;
        if value.is_none() {
            fork.give_back(&self.level.frame.values)?;
        }
        self.branches(outer, fork)
    }
}
