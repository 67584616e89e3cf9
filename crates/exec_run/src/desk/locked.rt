ghost use Rattle.std.specs.Prelude.{◌≡◌, IfOk, IfErr, OnErr, MatchOption, length};
ghost use Rattle.exec_world.specs.Ready.{NoneReady};
ghost use Rattle.exec_run.specs.desk.Steps.{IsPicked, StepsTo, WhyNotStepped};

use crate::desk::burst::make_burst;
use crate::desk::run::Run;
use crate::desk::step::DeskStep;
use exec_machine::{Halted, Machine};
use std::marker::Model;
use std::sync::ledger::{Book, Share};

/// What lies behind the lock: the machine, the book of its events, and what is left of the shares. A contract sees the machine.
#[derive(Drop)]
pub struct Locked<L: Run> {
    machine: Machine,
    book: Book<L>,
    rest: Share<L>,
}

impl<L: Run> Model for Locked<L> {
    ghost use Rattle.std.specs.Prelude.{◌≡◌, length};
    ghost use Rattle.exec_machine.specs.Keeping.{Played};
    ghost use Rattle.exec_machine.specs.contracts.machine.Machine as machine_row;

    ghost Value = { Played };

    ghost coded = { machine_row.the_row.coded };

    ghost view = { λ d. d.machine };

    ghost invariant = { λ d. (d.book.total ≡ length d.machine.schedule) × (d.rest.parts ≡ 0) × (d.machine.code ≡ L.code) × (d.machine.limits ≡ L.limits) × (d.machine.argument ≡ L.argument) };
}

/// A worker's place at the desk. A contract sees its number and how many events it has made.
#[derive(Drop)]
pub struct Seat<L: Run> {
    number: u32,
    made: u64,
    mark: Share<L>,
}

impl<L: Run> Model for Seat<L> {
    ghost use Rattle.std.specs.Prelude.{◌≡◌};
    ghost use Rattle.exec_run.specs.desk.Place.{Place};

    ghost Value = { Place };

    ghost view = { λ s. record { number = s.number; made = s.made } };

    ghost invariant = { λ s. (s.mark.parts ≡ 1) × (s.mark.amount ≡ s.made) };
}

impl<L: Run> Seat<L> {
    /// The place of a worker that has made no event.
    pub(crate) fn new(number: u32, mark: Share<L>) -> Seat<L>
        requires { (mark.parts ≡ 1) × (mark.amount ≡ 0) }
        ensures { result ≡ record { number = number; made = 0 } }
    {
        Seat {
            number,
            made: 0,
            mark,
        }
    }

    /// The number of the worker, from 0.
    pub fn number(&self) -> u32
        ensures { result ≡ self.now.number }
    {
        self.number
    }

    /// How many events the worker has made.
    pub fn share(&self) -> u64
        ensures { result ≡ self.now.made }
    {
        self.made
    }

    /// Gives the place up for its share.
    pub(crate) fn spent(self) -> (u64, Share<L>)
        ensures made { result.0 ≡ self.made }
        ensures mark { (result.1.parts ≡ 1) × (result.1.amount ≡ self.made) }
    {
        let Seat {
            number: _,
            made,
            mark,
        } = self;
        (made, mark)
    }
}

impl<L: Run> Locked<L> {
    pub(crate) fn new(machine: Machine, book: Book<L>, rest: Share<L>) -> Locked<L>
        requires book { book.total ≡ length machine.schedule }
        requires rest { rest.parts ≡ 0 }
        requires run { (machine.code ≡ L.code) × (machine.limits ≡ L.limits) × (machine.argument ≡ L.argument) }
        ensures { result ≡ machine }
    {
        Locked {
            machine,
            book,
            rest,
        }
    }

    pub(crate) fn opened(self) -> (Machine, Book<L>, Share<L>)
        ensures machine { result.0 ≡ self }
        ensures book { result.1.total ≡ length self.schedule }
        ensures rest { result.2.parts ≡ 0 }
        ensures run { (self.code ≡ L.code) × (self.limits ≡ L.limits) × (self.argument ≡ L.argument) }
    {
        let Locked {
            machine,
            book,
            rest,
        } = self;
        (machine, book, rest)
    }

    /// A burst of the wished task, or of the greatest ready one.
    pub(crate) fn step(&mut self, seat: &mut Seat<L>, wish: Option<u32>) -> Result<DeskStep, Halted>
        ensures ok { IfOk result (λ step. StepsTo self.old seat.old wish step self.new seat.new) }
        ensures why { IfErr result (WhyNotStepped self.old wish) }
        ensures err { OnErr result ((self.new ≡ self.old) × (seat.new ≡ seat.old)) }
    {
        if self.machine.finished() {
            let front = self.machine.schedule().len() as u64;
            return Ok(DeskStep::Finished { front });
        }
        let Some(task) = picked(&mut self.machine, wish) else {
            let front = self.machine.schedule().len() as u64;
            return Ok(DeskStep::NoneReady { front });
        };
        self.book.audit(&mut seat.mark);
        let made = make_burst(&mut self.machine, task)?;
        let front = self.machine.schedule().len() as u64;
        self.book.add(&mut seat.mark, made.events);
        seat.made += made.events;
        Ok(DeskStep::Stepped { task, front })
    }
}

/// The wished task if it is ready, and else the greatest ready one.
fn picked(machine: &mut Machine, wish: Option<u32>) -> Option<u32>
    ensures same { machine.new ≡ machine.old }
    ensures picked { MatchOption result (NoneReady machine.old.world) (IsPicked machine.old.world wish) }
{
    match wish {
        Some(task) if machine.ready(task) => Some(task),
        _ => machine.next_ready(),
    }
}
