//! Who does what is to be done in a round of a replay: one thread, or workers that are kept for the whole run.

ghost use Rattle.std.specs.Prelude.{◌≡◌, IfOk};
ghost use Rattle.us_replay.specs.Collecting.{CanGather, seat_after_asks};

use std::alloc::Global;
use us_intake::{Intake, Seat};
use us_requests::Ask;
use us_round::Hands;
use us_slots::NoMemory;

// The thread of the replay itself,
mod alone;

// or the workers of a crew.
mod kept;

pub(crate) use kept::{Kept, RunMail};

/// Who collects the requests of a round, and does its channels.
pub(crate) trait Doers<'a>: Hands {
    ghost use Rattle.us_flows.specs.Tables.{Tables};

    /// Submits asks with a seat of the intake, which comes back. On want of memory it is given up.
    fn gather(
        &mut self,
        alloc: Global,
        intake: &'a Intake,
        seat: Seat,
        asks: &'a [Ask],
    ) -> Result<Seat, NoMemory>
        requires { CanGather intake.now seat asks.now }
        ensures seat { IfOk result (λ after. after ≡ seat_after_asks seat asks.now) }
        ensures same { (t : Tables) → Self.knows self.old t → Self.knows self.new t };
}
