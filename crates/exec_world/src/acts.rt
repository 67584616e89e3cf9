ghost use Rattle.std.specs.Prelude.{◌≡◌, ◌<◌, ◌≤◌, ◌+◌, length, map, replicate, IfOk, OnOk, OnErr};
ghost use Rattle.lang_base.specs.FirstValues.{constant_of};
ghost use Rattle.exec_heap.specs.Heap.{object_at, instance, array, cost, with_object, charged};
ghost use Rattle.exec_tasks.specs.Tree.{printed, task_at, joined, CanBegin, CanJoin, with_task, ends_in};
ghost use Rattle.std.specs.FinMap.{get, remove};
ghost use Rattle.exec_locks.specs.Locks.{AllRoot, entered};
ghost use Rattle.exec_world.specs.Waits.{wanted};
ghost use Rattle.exec_world.specs.Costs.{own_cells, cells_of};
ghost use Rattle.exec_world.specs.World.{Fits, OwnFits, CanEnter, rested, own_answer, answer_to, own_acted, acted, read_at, wrote_at, written_at, adopted_by, join_answer, trap_in, slots_in, IsOutside};

use crate::cost::first_fields;
use crate::event::Event;
use crate::seen::{answer_of, joined_answer};
use crate::waits::Waits;
use crate::world::World;
use code_instrs::Code;
use exec_heap::{Heap, HeapStop};
use exec_locks::Locks;
use exec_task::{Action, Answer, Ending, Own};
use exec_tasks::TaskTree;
use lang_base::{
    Bytes, Effect, FirstValue, Items, NoMemory, Place, Plain, Region, SlotValue, Trap, Value,
};
use std::alloc::Global;

impl World {
    /// Makes an action of a task, for which there are cells, and answers it; its steps aren't counted here.
    pub fn act(&mut self, alloc: Global, code: &Code, event: Event) -> Result<Answer, NoMemory>
        requires fits { Fits self.old event }
        requires room { self.old.heap.used + cells_of code.now event.action ≤ self.old.heap.limit }
        ensures answer { IfOk result (λ answer. answer ≡ answer_to self.old event) }
        ensures after { OnOk result (self.new ≡ acted code.now self.old event) }
        ensures err { OnErr result (self.new ≡ self.old) }
    {
        let Event {
            task,
            action,
            wants,
            ..
        } = event;
        match action {
            Action::Do(own) => self.act_alone(alloc, code, task, wants, own),
            Action::Fork { branches, .. } => {
                self.tree.fork(task, branches as u32);
                Ok(Answer::Went)
            }
            Action::Begin { .. } => begin(&mut self.tree, &mut self.locks, task),
            Action::Join => join(&mut self.tree, task),
            Action::End(ending) => {
                let (trap, slots) = parts_of(alloc, ending);
                self.tree.end(task, trap, slots)?;
                self.locks.release(task);
                Ok(Answer::Went)
            }
        }
    }

    /// The same of what a task does by itself.
    fn act_alone(
        &mut self,
        alloc: Global,
        code: &Code,
        task: u32,
        wants: Option<Items<Effect>>,
        own: Own,
    ) -> Result<Answer, NoMemory>
        requires fits { OwnFits self.old task wants own }
        requires room { self.old.heap.used + own_cells code.now own ≤ self.old.heap.limit }
        ensures answer { IfOk result (λ answer. answer ≡ own_answer self.old own) }
        ensures after { OnOk result (self.new ≡ own_acted code.now self.old task wants own) }
        ensures err { OnErr result (self.new ≡ self.old) }
    {
        match own {
            Own::Rest => rest(&mut self.waits, task, wants),
            Own::Read { object, index } => Ok(read(&self.heap, object, index)),
            Own::Write {
                object,
                index,
                value,
            } => Ok(write(&mut self.heap, object, index, value)),
            Own::Look { object } => answer_of(alloc, &self.heap, object),
            Own::NewObject { class, regions, .. } => {
                make_object(&mut self.heap, class, first_fields(code, class), regions)
            }
            Own::NewArray { region, len, first } => make_array(&mut self.heap, len, first, region),
            Own::Print(bytes) => print(&mut self.heap, &mut self.tree, task, &bytes),
            Own::Enter(_) => enter(alloc, &mut self.locks, &mut self.waits, task),
            Own::Exit => {
                self.locks.exit(task);
                Ok(Answer::Went)
            }
        }
    }
}

/// A task rests, in front of an entry where it wants something.
fn rest(waits: &mut Waits, task: u32, wants: Option<Items<Effect>>) -> Result<Answer, NoMemory>
    requires { AllRoot (wanted wants) }
    ensures answer { IfOk result (λ answer. answer ≡ Answer.Went) }
    ensures after { OnOk result (waits.new ≡ rested waits.old task wants) }
    ensures err { OnErr result (waits.new ≡ waits.old) }
{
    if let Some(effects) = wants {
        waits.insert(task, effects)?;
    }
    Ok(Answer::Went)
}

/// A task enters the block in front of which it has rested.
fn enter(alloc: Global, locks: &mut Locks, waits: &mut Waits, task: u32) -> Result<Answer, NoMemory>
    requires { CanEnter locks.old task (get waits.old task) }
    ensures answer { IfOk result (λ answer. answer ≡ Answer.Went) }
    ensures locks { OnOk result (locks.new ≡ entered locks.old task (wanted (get waits.old task))) }
    ensures waits { OnOk result (waits.new ≡ remove waits.old task) }
    ensures err { OnErr result ((locks.new ≡ locks.old) × (waits.new ≡ waits.old)) }
{
    let Some(effects) = waits.get(task) else {
        unreachable!()
    };
    let effects = effects.copy(alloc)?;
    locks.enter(task, effects)?;
    waits.remove(task);
    Ok(Answer::Went)
}

/// The trap of an ending, and the slots that it gives back.
fn parts_of(alloc: Global, ending: Ending) -> (Option<(Trap, Place)>, Items<SlotValue>)
    ensures { result ≡ (trap_in ending, slots_in ending) }
{
    match ending {
        Ending::Returned(_) => (None, Items::new(alloc)),
        Ending::Assigned(slots) => (None, slots),
        Ending::Trapped(trap, place) => (Some((trap, place)), Items::new(alloc)),
    }
}

fn read(heap: &Heap, object: u32, index: i64) -> Answer
    requires { object < length heap.now.objects }
    ensures { result ≡ read_at (object_at heap.now object) index }
{
    if index < 0 || index >= i64::from(heap.length(object)) {
        return Answer::Out;
    }
    match heap.read(object, index as u32) {
        Some(value) => Answer::Got(value),
        None => Answer::Out,
    }
}

fn write(heap: &mut Heap, object: u32, index: i64, value: Value) -> Answer
    requires { object < length heap.old.objects }
    ensures answer { result ≡ wrote_at (object_at heap.old object) index }
    ensures after { heap.new ≡ written_at heap.old object index value }
{
    if index < 0 || index >= i64::from(heap.length(object)) {
        return Answer::Out;
    }
    if heap.write(object, index as u32, value) {
        Answer::Went
    } else {
        Answer::Out
    }
}

fn make_object(
    heap: &mut Heap,
    class: u32,
    fields: &[FirstValue],
    regions: Items<Region>,
) -> Result<Answer, NoMemory>
    requires { heap.old.used + (length fields.now + 1) ≤ heap.old.limit }
    ensures answer { IfOk result (λ answer. answer ≡ Answer.Made (length heap.old.objects)) }
    ensures after { OnOk result (heap.new ≡ with_object heap.old (instance class regions (map constant_of fields.now))) }
    ensures err { OnErr result (heap.new ≡ heap.old) }
{
    match heap.new_object(class, fields, regions) {
        Ok(object) => Ok(Answer::Made(object)),
        Err(HeapStop::Full) => unreachable!(),
        Err(HeapStop::NoMemory) => Err(NoMemory),
    }
}

fn make_array(heap: &mut Heap, len: u32, first: Value, region: Region) -> Result<Answer, NoMemory>
    requires { heap.old.used + (len + 1) ≤ heap.old.limit }
    ensures answer { IfOk result (λ answer. answer ≡ Answer.Made (length heap.old.objects)) }
    ensures after { OnOk result (heap.new ≡ with_object heap.old (array region (replicate len first))) }
    ensures err { OnErr result (heap.new ≡ heap.old) }
{
    match heap.new_array(len, first, region) {
        Ok(object) => Ok(Answer::Made(object)),
        Err(HeapStop::Full) => unreachable!(),
        Err(HeapStop::NoMemory) => Err(NoMemory),
    }
}

fn print(heap: &mut Heap, tree: &mut TaskTree, task: u32, bytes: &Bytes) -> Result<Answer, NoMemory>
    requires { heap.old.used + length bytes.now ≤ heap.old.limit }
    ensures answer { IfOk result (λ answer. answer ≡ Answer.Went) }
    ensures cells { OnOk result (heap.new ≡ charged heap.old (length bytes.now)) }
    ensures tree { OnOk result (tree.new ≡ printed tree.old task bytes.now) }
    ensures err { OnErr result ((heap.new ≡ heap.old) × (tree.new ≡ tree.old)) }
{
    tree.print(task, bytes.as_slice())?;
    if heap.charge(bytes.len() as u64).is_err() {
        unreachable!();
    }
    Ok(Answer::Went)
}

/// Begins the next branch of a task. It belongs to the block in which the task stands, if it does in one.
fn begin(tree: &mut TaskTree, locks: &mut Locks, task: u32) -> Result<Answer, NoMemory>
    requires branch { CanBegin tree.old.tasks task }
    requires number { tree.old.begun < 4294967295 }
    requires outside { IsOutside locks.old tree.old.begun }
    ensures answer { IfOk result (λ answer. answer ≡ Answer.Went) }
    ensures tree { OnOk result (tree.new ≡ with_task tree.old task) }
    ensures locks { OnOk result (locks.new ≡ adopted_by locks.old task tree.old.begun) }
    ensures err { OnErr result ((tree.new ≡ tree.old) × (locks.new ≡ locks.old)) }
{
    if !locks.inside(task) {
        let _ = tree.begin(task)?;
        return Ok(Answer::Went);
    }
    let number = tree.begun();
    locks.adopt(task, number)?;
    match tree.begin(task) {
        Ok(_) => Ok(Answer::Went),
        Err(stop) => {
            locks.release(number);
            Err(stop)
        }
    }
}

fn join(tree: &mut TaskTree, task: u32) -> Result<Answer, NoMemory>
    requires { CanJoin tree.old.tasks task }
    ensures answer { IfOk result (λ answer. answer ≡ join_answer (ends_in (task_at tree.old task))) }
    ensures after { OnOk result (tree.new ≡ joined tree.old task) }
    ensures err { OnErr result (tree.new ≡ tree.old) }
{
    let joined = tree.join(task)?;
    Ok(joined_answer(joined))
}
