ghost use Rattle.std.specs.Prelude.{◌≡◌, ⊤, IfOk};
ghost use Rattle.us_flows.specs.Tables.{Tables};
ghost use Rattle.us_crew.specs.declared.gates.Phase.TheVariants as phase;
ghost use Rattle.us_replay.specs.Collecting.{CanGather, CanSubmit, seat_after_asks};

use super::Doers;
use crate::collecting::submit_all;
use std::alloc::Global;
use us_crew::{Gate, Phase};
use us_intake::{Intake, Seat};
use us_requests::Ask;
use us_round::Alone;
use us_slots::NoMemory;

impl<'a, 'b, G: Gate> Doers<'a> for Alone<'b, G> {
    fn gather(
        &mut self,
        _alloc: Global,
        intake: &'a Intake,
        seat: Seat,
        asks: &'a [Ask],
    ) -> Result<Seat, NoMemory>
        requires { CanGather intake.now seat asks.now }
        ensures seat { IfOk result (λ after. after ≡ seat_after_asks seat asks.now) }
        ensures same { (t : Tables) → ⊤ → ⊤ }
    {
        Ok(gather_alone(intake, seat, asks, self.gate))
    }
}

/// Submits asks with the seat itself, in the calling thread: none is split off, and no memory is taken. What the seat needs is
/// known only once the gate was entered for the first chunk.
pub(super) fn gather_alone<G: Gate>(intake: &Intake, seat: Seat, asks: &[Ask], gate: &G) -> Seat
    requires { G.entered gate.now phase.Collect 0 → CanSubmit intake.now seat asks.now }
    ensures { result ≡ seat_after_asks seat asks.now }
{
    gate.enter(Phase::Collect, 0);
    match submit_all(intake, seat, asks) {
        Ok(seat) => seat,
        Err(_) => unreachable!(),
    }
}
