ghost use Rattle.std.specs.Prelude.{◌≡◌, ◌≢◌, ◌∷◌, ◌++◌, [], All, None, Some, IfOk, IfErr, OnOk, OnErr};
ghost use Rattle.std.specs.FinMap.{get, insert, remove};
ghost use Rattle.code_instrs.specs.Plain.{plain_code};
ghost use Rattle.exec_task.specs.Halts.{IsWidthBounded};
ghost use Rattle.exec_task.specs.Tasks.{state_of};
ghost use Rattle.exec_task.specs.declared.action.Ending.{Ending};
ghost use Rattle.exec_tasks.specs.Tree.{task_at, out_of};
ghost use Rattle.exec_world.specs.World.{Fits, answer_to, world_after};
ghost use Rattle.exec_machine.specs.declared.slot.Slot.{Slot};
ghost use Rattle.exec_machine.specs.Keeping.{Keeps, HasNext, CanStep, IsAt, WhyHalted, Recorded, Comes, with_answer, with_slots};
ghost use Rattle.exec_machine.specs.Replay.{Moment, Moves, outcome_after, came_to};
ghost use Rattle.exec_machine.specs.Wants.{WantsRightly};
ghost use Rattle.exec_machine.specs.Running.{OfSlot, IsFirst};
ghost use Rattle.exec_machine.specs.Events.{place_at};
ghost use Rattle.exec_machine.specs.MadeEvents.{StepsWith, MakesIn, answer_in, is_limit, met_limit};

use crate::answers::copied as copied_answer;
use crate::copies::copied;
use crate::halted::Halted;
use crate::made_event::MadeEvent;
use crate::outcome::{came_to, limited};
use crate::places::place_of;
use crate::schedule::Schedule;
use crate::slot::Slot;
use crate::slots::Slots;
use crate::wants::wants_at;
use code_instrs::Code;
use exec_task::{Action, Answer, Start, Task};
use exec_world::{Event, QueuedWorld, Stop};
use lang_base::{Bytes, Ending as Came, Limits, NoMemory, Outcome, Place, Plain};
use std::alloc::Global;

/// What a machine changes.
#[derive(Drop)]
pub struct Run {
    pub world: QueuedWorld,
    pub slots: Slots,
    /// The tasks of all events, in their order.
    pub schedule: Schedule,
    pub outcome: Option<Outcome>,
}

impl Run {
    /// Lets a ready task make its next event, if it can. Where it isn't made the task may be further on its way to it.
    pub fn step(
        &mut self,
        alloc: Global,
        code: &Code,
        limits: Limits,
        task: u32,
    ) -> Result<(), Halted>
        requires few { All IsWidthBounded code.now.sites }
        requires can { (m : Moment) × CanStep code.now limits self.old m task }
        ensures moves { (m : Moment) → CanStep code.now limits self.old m task → OnOk result ((n : Moment) × Moves code.now limits m task n × Keeps (plain_code code.now) self.new n) }
        ensures noted { OnOk result (self.new.schedule ≡ self.old.schedule ++ task ∷ []) }
        ensures why { (m : Moment) → CanStep code.now limits self.old m task → IfErr result (WhyHalted (plain_code code.now) m task) }
        ensures kept { (m : Moment) → CanStep code.now limits self.old m task → OnErr result (Keeps (plain_code code.now) self.new m) }
        ensures err { OnErr result (self.new.schedule ≡ self.old.schedule) }
    {
        let event = self.next_event(alloc, code, task)?;
        self.make(alloc, code, limits, event)
    }

    /// Lets a ready task make its next event, as `step`, and gives it back; none, where a limit is met by it. When
    /// memory runs out the event may have been made.
    pub fn step_with_event(
        &mut self,
        alloc: Global,
        code: &Code,
        limits: Limits,
        task: u32,
    ) -> Result<Option<MadeEvent>, Halted>
        requires few { All IsWidthBounded code.now.sites }
        requires can { (m : Moment) × CanStep code.now limits self.old m task }
        ensures steps { (m : Moment) → CanStep code.now limits self.old m task → IfOk result (StepsWith code.now limits m task self.new) }
        ensures noted { OnOk result (self.new.schedule ≡ self.old.schedule ++ task ∷ []) }
        ensures why { (m : Moment) → CanStep code.now limits self.old m task → IfErr result (WhyHalted (plain_code code.now) m task) }
    {
        let event = self.next_event(alloc, code, task)?;
        let place = self.place(code, task);
        let copy = copied(alloc, &event)?;
        self.make(alloc, code, limits, event)?;
        if met_limit(&self.outcome) {
            return Ok(None);
        }
        let answer = self.answer_of(alloc, task)?;
        Ok(Some(MadeEvent {
            event: copy,
            answer,
            place,
        }))
    }

    /// Where in the text a task stands, unless it is at its end.
    fn place(&self, code: &Code, task: u32) -> Option<Place>
        requires { OfSlot (get self.now.slots task) (λ slot. Unit {0}) }
        ensures { OfSlot (get self.now.slots task) (λ slot. result ≡ place_at (plain_code code.now) (state_of slot.task)) }
    {
        let Some(slot) = self.slots.get(task) else {
            unreachable!()
        };
        place_of(code, &slot.task)
    }

    /// What a task was answered that has made an event and not gone on.
    fn answer_of(&self, alloc: Global, task: u32) -> Result<Answer, NoMemory>
        ensures { IfOk result (λ answer. answer ≡ answer_in (get self.now.slots task)) }
    {
        let Some(slot) = self.slots.get(task) else {
            return Ok(Answer::Went);
        };
        match &slot.pending {
            Some(answer) => copied_answer(alloc, answer),
            None => Ok(Answer::Went),
        }
    }

    /// Takes a ready task to its next event. When memory runs out, it may be further on its way to it.
    fn next_event(&mut self, alloc: Global, code: &Code, task: u32) -> Result<Event, NoMemory>
        requires few { All IsWidthBounded code.now.sites }
        requires has_next { (m : Moment) × HasNext (plain_code code.now) self.old m task }
        ensures others { self.new ≡ with_slots self.old self.new.slots }
        ensures has_next { (m : Moment) → HasNext (plain_code code.now) self.old m task → HasNext (plain_code code.now) self.new m task }
        ensures task { IfOk result (λ event. event.task ≡ task) }
        ensures at { IfOk result (λ event. OfSlot (get self.new.slots task) (IsAt (plain_code code.now) event)) }
    {
        let action = self.slots.advance(alloc, code, task)?;
        let Some(slot) = self.slots.get(task) else {
            unreachable!()
        };
        event_of(alloc, code, task, &slot.task, action)
    }

    /// Makes the event at which its task stands, if it can be made.
    fn make(
        &mut self,
        alloc: Global,
        code: &Code,
        limits: Limits,
        event: Event,
    ) -> Result<(), Halted>
        requires at { OfSlot (get self.old.slots event.task) (IsAt (plain_code code.now) event) }
        requires can { (m : Moment) × CanStep code.now limits self.old m event.task }
        ensures makes { (m : Moment) → CanStep code.now limits self.old m event.task → OnOk result (MakesIn code.now limits m event (get self.old.slots event.task) self.new) }
        ensures noted { OnOk result (self.new.schedule ≡ self.old.schedule ++ event.task ∷ []) }
        ensures why { (m : Moment) → CanStep code.now limits self.old m event.task → IfErr result (WhyHalted (plain_code code.now) m event.task) }
        ensures err { OnErr result (self.new ≡ self.old) }
    {
        if !self.world.fits(&event) {
            return Err(Halted::Stuck);
        }
        match &event.action {
            Action::Begin { branch } => {
                let branch = *branch;
                self.make_begin(alloc, code, limits, event, branch)
            }
            Action::End(_) => Ok(self.end(alloc, code, limits, event)?),
            _ => Ok(self.go_on(alloc, code, limits, event)?),
        }
    }

    /// Makes the begin of a branch, if there is a start of it.
    fn make_begin(
        &mut self,
        alloc: Global,
        code: &Code,
        limits: Limits,
        event: Event,
        branch: usize,
    ) -> Result<(), Halted>
        requires begins { event.action ≡ Action.Begin branch }
        requires fits { Fits self.old.world event }
        requires at { OfSlot (get self.old.slots event.task) (IsAt (plain_code code.now) event) }
        requires can { (m : Moment) × CanStep code.now limits self.old m event.task }
        ensures makes { (m : Moment) → CanStep code.now limits self.old m event.task → OnOk result (MakesIn code.now limits m event (get self.old.slots event.task) self.new) }
        ensures noted { OnOk result (self.new.schedule ≡ self.old.schedule ++ event.task ∷ []) }
        ensures why { (m : Moment) → CanStep code.now limits self.old m event.task → IfErr result (WhyHalted (plain_code code.now) m event.task) }
        ensures err { OnErr result (self.new ≡ self.old) }
    {
        let Some(slot) = self.slots.get(event.task) else {
            unreachable!()
        };
        if branch >= slot.task.branches(code) {
            return Err(Halted::Stuck);
        }
        let start = slot.task.branch_start(alloc, code, branch)?;
        if start.body >= code.bodies.len() {
            return Err(Halted::Stuck);
        }
        self.begin(alloc, code, limits, event, start)?;
        Ok(())
    }

    /// Notes an event in the schedule and makes it. It answers None where a limit is met, which finishes the run.
    fn record(
        &mut self,
        alloc: Global,
        code: &Code,
        limits: Limits,
        event: Event,
    ) -> Result<Option<Answer>, NoMemory>
        requires { Fits self.old.world event }
        ensures ok { IfOk result (λ o. Recorded code.now limits self.old event o self.new) }
        ensures err { OnErr result (self.new ≡ self.old) }
    {
        self.schedule.push(event.task)?;
        match self.world.perform(alloc, code, event) {
            Ok(answer) => Ok(Some(answer)),
            Err(Stop::Limited) => {
                self.outcome = Some(limited(alloc, limits));
                Ok(None)
            }
            Err(Stop::NoMemory) => {
                let _ = self.schedule.pop();
                Err(NoMemory)
            }
        }
    }

    /// An event after which its task goes on.
    fn go_on(
        &mut self,
        alloc: Global,
        code: &Code,
        limits: Limits,
        event: Event,
    ) -> Result<(), NoMemory>
        requires fits { Fits self.old.world event }
        requires there { OfSlot (get self.old.slots event.task) (λ slot. Unit {0}) }
        ensures ok { OnOk result (OfSlot (get self.old.slots event.task) (λ slot. Comes code.now limits self.old event (with_answer self.old.slots event.task slot (answer_to self.old.world event)) self.old.outcome self.new)) }
        ensures err { OnErr result (self.new ≡ self.old) }
    {
        let task = event.task;
        if let Some(answer) = self.record(alloc, code, limits, event)? {
            self.slots.settle(task, answer);
        }
        Ok(())
    }

    /// The begin of a branch, which starts so.
    fn begin(
        &mut self,
        alloc: Global,
        code: &Code,
        limits: Limits,
        event: Event,
        start: Start,
    ) -> Result<(), NoMemory>
        requires fits { Fits self.old.world event }
        requires there { OfSlot (get self.old.slots event.task) (λ slot. Unit {0}) }
        requires apart { event.task ≢ self.old.world.tree.begun }
        requires next { get self.old.slots self.old.world.tree.begun ≡ None }
        ensures ok { OnOk result (OfSlot (get self.old.slots event.task) (λ slot. (child : Slot) × IsFirst self.old.world.tree.begun start child × Comes code.now limits self.old event (with_answer (insert self.old.slots self.old.world.tree.begun child) event.task slot (answer_to self.old.world event)) self.old.outcome self.new)) }
        ensures err { OnErr result (self.new ≡ self.old) }
    {
        let number = self.world.begun();
        let task = event.task;
        self.slots
            .insert(number, Slot::start(alloc, number, start))?;
        match self.record(alloc, code, limits, event) {
            Ok(Some(answer)) => {
                self.slots.settle(task, answer);
                Ok(())
            }
            Ok(None) => {
                self.slots.remove(number);
                Ok(())
            }
            Err(stop) => {
                self.slots.remove(number);
                Err(stop)
            }
        }
    }

    /// The end of a task, and of the run where it is the root.
    fn end(
        &mut self,
        alloc: Global,
        code: &Code,
        limits: Limits,
        event: Event,
    ) -> Result<(), NoMemory>
        requires fits { Fits self.old.world event }
        requires ends { (x : Ending) × (event.action ≡ Action.End x) }
        requires unfinished { self.old.outcome ≡ None }
        ensures ok { OnOk result (Comes code.now limits self.old event (remove self.old.slots event.task) (outcome_after self.old.world (world_after code.now self.old.world event) event.task event.action) self.new) }
        ensures err { OnErr result (self.new ≡ self.old) }
    {
        let task = event.task;
        let came = ending_of(&event.action);
        let out = self.output_of(alloc, task)?;
        let Some(_) = self.record(alloc, code, limits, event)? else {
            return Ok(());
        };
        self.slots.remove(task);
        if task == 0 {
            self.finish(came, out);
        }
        Ok(())
    }

    /// What a task has printed that is the root, since only its output is that of the run.
    fn output_of(&self, alloc: Global, task: u32) -> Result<Bytes, NoMemory>
        ensures { IfOk result (λ out. task ≡ 0 → out ≡ out_of (task_at self.now.world.tree 0)) }
    {
        if task == 0 {
            self.output(alloc)
        } else {
            Ok(Bytes::new(alloc))
        }
    }

    /// What the root has printed.
    fn output(&self, alloc: Global) -> Result<Bytes, NoMemory>
        ensures { IfOk result (λ out. out ≡ out_of (task_at self.now.world.tree 0)) }
    {
        match self.world.world().tree.get(0) {
            Some(root) => root.out.copy(alloc),
            None => Ok(Bytes::new(alloc)),
        }
    }

    fn finish(&mut self, came: Came, out: Bytes)
        ensures { self.new ≡ record { world = self.old.world; slots = self.old.slots; schedule = self.old.schedule; outcome = Some (record { ending = came; out = out; steps = self.old.world.steps; cells = self.old.world.heap.used }) } }
    {
        self.outcome = Some(Outcome {
            ending: came,
            out,
            steps: self.world.world().steps,
            cells: self.world.world().heap.cells(),
        });
    }
}

/// How the run comes out whose root ends by this action.
fn ending_of(action: &Action) -> Came
    requires { (x : Ending) × (action.now ≡ Action.End x) }
    ensures { (x : Ending) → action.now ≡ Action.End x → result ≡ came_to x }
{
    match action {
        Action::End(ending) => came_to(ending),
        _ => unreachable!(),
    }
}

/// Whether a run has met a limit that came out so.
fn met_limit(outcome: &Option<Outcome>) -> bool
    ensures { result ≡ met_limit outcome.now }
{
    match outcome {
        Some(outcome) => is_limit(outcome.ending),
        None => false,
    }
}

fn is_limit(came: Came) -> bool
    ensures { result ≡ is_limit came }
{
    match came {
        Came::Limited => true,
        Came::Done(_) | Came::Trapped(_, _) => false,
    }
}

/// The event of a task that stands at an action.
fn event_of(
    alloc: Global,
    code: &Code,
    number: u32,
    task: &Task,
    action: Action,
) -> Result<Event, NoMemory>
    ensures task { IfOk result (λ event. event.task ≡ number) }
    ensures ticks { IfOk result (λ event. event.ticks ≡ task.now.ticks) }
    ensures action { IfOk result (λ event. event.action ≡ action) }
    ensures wants { IfOk result (λ event. WantsRightly (plain_code code.now) (state_of task.now) task.now.ticks action event.wants) }
{
    let wants = wants_at(alloc, code, task, &action)?;
    Ok(Event {
        task: number,
        ticks: task.ticks,
        action,
        wants,
    })
}
