ghost use Rattle.std.specs.Prelude.{◌≡◌, ◌≤◌, [], IfOk, length, sum, vec_len};
ghost use Rattle.exec_machine.specs.Keeping.{IsReplayed};

use crate::desk::{Desk, DeskStep, Run, Seat};
use crate::workers::gate::Gate;
use exec_machine::Machine;
use lang_base::{Items, NoMemory};
use std::alloc::Global;
use std::marker::Brand;
use std::sync::Wait;
use std::sync::ledger::Blank;
use std::thread;
use std::thread::{Threads, join_mut};

/// What the workers made together.
#[derive(Drop)]
pub struct Worked {
    pub machine: Machine,
    /// How many events each worker made.
    pub shares: Items<u64>,
}

/// Has 1 to 64 workers step a machine that has made no event, and waits for them.
pub fn work<R: Threads + Wait + Sync, G: Gate + Sync>(
    rt: &R,
    alloc: Global,
    machine: Machine,
    workers: u32,
    gate: &G,
) -> Result<Worked, NoMemory>
    requires unstarted { machine.schedule ≡ [] }
    requires workers { (1 ≤ workers) × (workers ≤ 64) }
    ensures code { IfOk result (λ worked. worked.machine.code ≡ machine.code) }
    ensures limits { IfOk result (λ worked. worked.machine.limits ≡ machine.limits) }
    ensures argument { IfOk result (λ worked. worked.machine.argument ≡ machine.argument) }
    ensures replayed { IfOk result (λ worked. IsReplayed worked.machine) }
    ensures len { IfOk result (λ worked. length worked.shares ≡ workers) }
    ensures sum { IfOk result (λ worked. length worked.machine.schedule ≡ sum worked.shares) }
{
    let blank = Blank::new(u64::from(workers));
    work_at::<Brand, R, G>(rt, alloc, blank, machine, workers, gate)
}

/// The same, with the ledger of this run.
fn work_at<L: Run + Send + Sync, R: Threads + Wait + Sync, G: Gate + Sync>(
    rt: &R,
    alloc: Global,
    blank: Blank,
    machine: Machine,
    workers: u32,
    gate: &G,
) -> Result<Worked, NoMemory>
    requires name { blank.name ≡ L.name }
    requires parts { (blank.parts ≡ L.parts) × (blank.parts ≡ workers) }
    requires run { (machine.code ≡ L.code) × (machine.limits ≡ L.limits) × (machine.argument ≡ L.argument) }
    requires unstarted { machine.schedule ≡ [] }
    requires workers { (1 ≤ workers) × (workers ≤ 64) }
    ensures code { IfOk result (λ worked. worked.machine.code ≡ L.code) }
    ensures limits { IfOk result (λ worked. worked.machine.limits ≡ L.limits) }
    ensures argument { IfOk result (λ worked. worked.machine.argument ≡ L.argument) }
    ensures replayed { IfOk result (λ worked. IsReplayed worked.machine) }
    ensures len { IfOk result (λ worked. length worked.shares ≡ workers) }
    ensures sum { IfOk result (λ worked. length worked.machine.schedule ≡ sum worked.shares) }
{
    let (desk, seats) = Desk::<L>::open(alloc, blank, machine, workers)?;
    let seats = step_side_by_side(rt, &desk, workers, gate, seats);
    let (machine, shares) = desk.close(alloc, seats)?;
    Ok(Worked { machine, shares })
}

/// Has each worker step on at its seat. The first is in a thread of its own, from which the other workers' start: the caller waits.
fn step_side_by_side<L: Run + Send + Sync, R: Threads + Wait + Sync, G: Gate + Sync>(
    rt: &R,
    desk: &Desk<L>,
    workers: u32,
    gate: &G,
    seats: Vec<Seat<L>>,
) -> Vec<Seat<L>>
    requires { 1 ≤ workers }
    ensures { vec_len result ≡ vec_len seats }
{
    let mut seats = seats;
    join_mut(
        rt,
        &mut ||
            requires { 1 ≤ workers }
            ensures { vec_len seats.exit ≡ vec_len seats.entry }
        {
            thread::for_each_mut(
                rt,
                seats.as_mut_slice(),
                workers as usize,
                &|_, seat: &mut Seat<L>| step_on(rt, desk, gate, seat),
            )
        },
        &mut || (),
    );
    seats
}

/// Steps until the machine has finished, or no task is ready, or a step is not made. It wishes the task of its last step.
fn step_on<L: Run, R: Wait, G: Gate>(rt: &R, desk: &Desk<L>, gate: &G, seat: &mut Seat<L>) {
    let mut wish = None;
    for _ in rt.forever() {
        gate.before(seat.number());
        match desk.step(rt, seat, wish) {
            Ok(DeskStep::Stepped { task, front: _ }) => wish = Some(task),
            Ok(DeskStep::Finished { front: _ } | DeskStep::NoneReady { front: _ }) => break,
            Err(_) => break,
        }
    }
}
