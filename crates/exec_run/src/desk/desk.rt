ghost use Rattle.std.specs.Prelude.{◌≡◌, ◌≤◌, [], IfOk, OnOk, OnErr, length, sum, vec_len};
ghost use Rattle.exec_machine.specs.Keeping.{IsReplayed};
ghost use Rattle.exec_run.specs.desk.Place.{made_by};
ghost use Rattle.exec_run.specs.desk.Steps.{Raises};

use crate::desk::laws::lent_step;
use crate::desk::locked::{Locked, Seat};
use crate::desk::run::Run;
use crate::desk::step::DeskStep;
use exec_machine::{Halted, Machine};
use lang_base::{Items, NoMemory};
use std::alloc::Global;
use std::sync::ledger::{Blank, Share};
use std::sync::{Mutex, Wait};

/// A machine that workers step in turn.
#[derive(Drop)]
pub struct Desk<L: Run> {
    locked: Mutex<Locked<L>>,
}

impl<L: Run> Desk<L> {
    /// A desk for a machine that has made no event, and a seat for each worker. There are 1 to 64 workers.
    pub fn open(
        alloc: Global,
        blank: Blank,
        machine: Machine,
        workers: u32,
    ) -> Result<(Desk<L>, Vec<Seat<L>>), NoMemory>
        requires name { blank.name ≡ L.name }
        requires parts { (blank.parts ≡ L.parts) × (blank.parts ≡ workers) }
        requires run { (machine.code ≡ L.code) × (machine.limits ≡ L.limits) × (machine.argument ≡ L.argument) }
        requires unstarted { machine.schedule ≡ [] }
        requires workers { (1 ≤ workers) × (workers ≤ 64) }
        ensures seats { IfOk result (λ r. vec_len r.1 ≡ workers) }
        ensures shares { IfOk result (λ r. made_by r.1.items ≡ 0) }
    {
        let (book, mut all) = blank.open::<L>();
        let mut seats = Vec::new(alloc);
        for number in 0..workers {
            seats.push(Seat::new(number, all.split_off(1, 0)))?;
        }
        let desk = Desk {
            locked: Mutex::new(Locked::new(machine, book, all)),
        };
        Ok((desk, seats))
    }

    /// Takes the lock, and makes a burst of events, of the wished task if it is ready. `lent_step` says what it does behind
    /// the lock.
    pub fn step(
        &self,
        rt: &impl Wait,
        seat: &mut Seat<L>,
        wish: Option<u32>,
    ) -> Result<DeskStep, Halted>
        ensures ok { IfOk result (λ step. Raises seat.old step seat.new) }
        ensures err { OnErr result (seat.new ≡ seat.old) }
    {
        let mut locked = self.locked.lock(rt);
        lent_step(&mut *locked, seat, wish)
    }

    /// The machine, and what each worker made. The seats are all of this desk.
    pub fn close(
        self,
        alloc: Global,
        seats: Vec<Seat<L>>,
    ) -> Result<(Machine, Items<u64>), NoMemory>
        requires { vec_len seats ≡ L.parts }
        ensures len { IfOk result (λ r. length r.1 ≡ vec_len seats) }
        ensures code { IfOk result (λ r. r.0.code ≡ L.code) }
        ensures limits { IfOk result (λ r. r.0.limits ≡ L.limits) }
        ensures argument { IfOk result (λ r. r.0.argument ≡ L.argument) }
        ensures replayed { IfOk result (λ r. IsReplayed r.0) }
        ensures sum { IfOk result (λ r. length r.0.schedule ≡ sum r.1) }
        ensures made { IfOk result (λ r. sum r.1 ≡ made_by seats.items) }
    {
        let Desk { locked } = self;
        let (machine, mut book, mut rest) = locked.into_inner().opened();
        book.audit(&mut rest);
        let shares = spent(alloc, &mut rest, seats)?;
        book.audit(&mut rest);
        let _ = machine.schedule();
        Ok((machine, shares))
    }
}

/// What each worker made. The share gets theirs.
fn spent<L: Run>(
    alloc: Global,
    rest: &mut Share<L>,
    seats: Vec<Seat<L>>,
) -> Result<Items<u64>, NoMemory>
    requires { (rest.old.parts ≡ 0) × (rest.old.amount ≡ 0) }
    ensures len { IfOk result (λ shares. length shares ≡ vec_len seats) }
    ensures parts { OnOk result (rest.new.parts ≡ vec_len seats) }
    ensures amount { IfOk result (λ shares. rest.new.amount ≡ sum shares) }
    ensures made { IfOk result (λ shares. sum shares ≡ made_by seats.items) }
{
    let mut shares = Items::new(alloc);
    for seat in seats {
        let (made, mark) = seat.spent();
        rest.merge(mark);
        shares.push(made)?;
    }
    Ok(shares)
}
