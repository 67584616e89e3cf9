//! What one call at the desk does to what lies behind its lock.
ghost use Rattle.std.specs.Prelude.{◌≡◌, IfOk, IfErr, OnErr};
ghost use Rattle.exec_run.specs.desk.Steps.{StepsTo, WhyNotStepped};

pub use crate::desk::burst::make_burst;
use crate::desk::locked::{Locked, Seat};
use crate::desk::run::Run;
use crate::desk::step::DeskStep;
use exec_machine::Halted;

/// Lets the wished task make a burst of events if it is ready, and else the greatest ready task. Where it isn't Stepped
/// nothing has changed.
pub fn lent_step<L: Run>(
    state: &mut Locked<L>,
    seat: &mut Seat<L>,
    wish: Option<u32>,
) -> Result<DeskStep, Halted>
    ensures ok { IfOk result (λ step. StepsTo state.old seat.old wish step state.new seat.new) }
    ensures why { IfErr result (WhyNotStepped state.old wish) }
    ensures err { OnErr result ((state.new ≡ state.old) × (seat.new ≡ seat.old)) }
{
    state.step(seat, wish)
}
