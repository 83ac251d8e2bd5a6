ghost use Rattle.std.specs.Prelude.{◌≡◌, IfOk, IsOk};
ghost use Rattle.us_replay.specs.Collecting.{CanSubmit, IsChunk, seat_after_asks};

use std::alloc::Global;
use us_crew::Work;
use us_intake::{Intake, IntakeFault, Seat};
use us_requests::Ask;

/// Asks that stand side by side, and the seat that was split off for them.
pub(crate) type Chunk<'a> = (Seat, &'a [Ask]);

/// Submits asks that stand side by side, with the seat that was split off for them. The seat comes back.
#[derive(Clone, Copy)]
pub(crate) struct Submitting<'a> {
    pub(crate) intake: &'a Intake,
}

impl<'a> Work<Chunk<'a>, Seat, IntakeFault> for Submitting<'a> {
    ghost accepts = { λ work _ item. IsChunk work.intake.now item.0 item.1.now };

    ghost value = { λ _ _ item. seat_after_asks item.0 item.1.now };

    ghost may_fail = { λ _ _ _ _. ⊥ };

    ghost must_fail = { λ _ _ _. ⊥ };

    fn run(&self, _alloc: Global, _index: usize, item: Chunk<'a>) -> Result<Seat, IntakeFault> {
        let (seat, asks) = item;
        submit_all(self.intake, seat, asks)
    }
}

/// Submits each of these asks.
pub(crate) fn submit_all(intake: &Intake, seat: Seat, asks: &[Ask]) -> Result<Seat, IntakeFault>
    requires { CanSubmit intake.now seat asks.now }
    ensures value { IfOk result (λ after. after ≡ seat_after_asks seat asks.now) }
    ensures fine { IsOk result }
{
    let mut seat = seat;
    for ask in asks {
        intake.submit(&mut seat, ask.cluster, ask.bytes)?;
    }
    Ok(seat)
}
