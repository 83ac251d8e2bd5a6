ghost use Rattle.std.specs.Prelude.{◌≡◌, min, IfOk};
ghost use Rattle.us_flows.specs.Tables.{Tables};
ghost use Rattle.us_replay.specs.Collecting.{CanGather, seat_after_asks};

use super::Doers;
use super::alone::gather_alone;
use crate::collecting::{Chunk, Submitting, join_all, split_all};
use std::alloc::Global;
use std::sync::Wait;
use std::thread::Parker;
use us_crew::{Crew, Gate, Mail, Mailboxes, Phase, map_kept};
use us_intake::{Intake, IntakeFault, Seat};
use us_output::ChannelWithText;
use us_requests::Ask;
use us_round::{Answered, Building, Crewed, Filling, Hands, RoundMail, answers};
use us_slots::NoMemory;

/// Where the workers of a crew find asks to submit.
pub(crate) type CollectMail<'a, G> = Mailboxes<Submitting<'a>, G, Chunk<'a>, Seat, IntakeFault>;

/// Where they find what is to be done in all phases of a round.
#[derive(Drop)]
pub(crate) struct RunMail<'a, 'm, G: Gate> {
    pub(crate) collects: &'m CollectMail<'a, G>,
    pub(crate) round: &'m RoundMail<'a, 'm, G>,
}

impl<'a, 'm, G: Gate + Drop> Mail for RunMail<'a, 'm, G> {
    fn serve(&self, worker: usize, owner: &Parker) {
        self.collects.serve(worker, owner);
        self.round.serve(worker, owner);
    }
}

/// The workers of a crew that is kept for a whole run, each of whom enters the gate before each item.
#[derive(Drop)]
pub(crate) struct Kept<'a, 'b, H, G: Gate> {
    pub(crate) crew: &'b Crew<'b, H>,
    pub(crate) workers: usize,
    pub(crate) gate: G,
    pub(crate) mail: &'b RunMail<'a, 'b, G>,
    pub(crate) hands: Crewed<'a, 'b, H, G>,
}

impl<'a, 'b, H: Wait, G: Gate + Copy + Drop> Hands for Kept<'a, 'b, H, G> {
    ghost knows = { λ kept t. kept.hands.config.now ≡ t };

    fn fill(&mut self, work: &Filling<'_>, channels: Vec<ChannelWithText>) -> Answered {
        self.hands.fill(work, channels)
    }

    fn build(&mut self, work: &Building<'_>, channels: Vec<ChannelWithText>) -> Answered {
        self.hands.build(work, channels)
    }
}

impl<'a, 'b, H: Wait, G: Gate + Copy + Drop> Doers<'a> for Kept<'a, 'b, H, G> {
    fn gather(
        &mut self,
        alloc: Global,
        intake: &'a Intake,
        seat: Seat,
        asks: &'a [Ask],
    ) -> Result<Seat, NoMemory>
        requires { CanGather intake.now seat asks.now }
        ensures seat { IfOk result (λ after. after ≡ seat_after_asks seat asks.now) }
        ensures same { (t : Tables) → self.old.hands.config.now ≡ t → self.new.hands.config.now ≡ t }
    {
        let parts = chunks_for(asks.len(), self.workers);
        if parts < 2 {
            return Ok(gather_alone(intake, seat, asks, &self.gate));
        }
        let (seat, chunks) = split_all(alloc, intake, seat, asks, parts)?;
        let work = Submitting { intake };
        let seats = answers(map_kept(
            self.crew,
            self.mail.collects,
            alloc,
            work,
            Phase::Collect,
            chunks,
            self.gate,
        ))?;
        Ok(join_all(intake, seat, seats))
    }
}

/// How many chunks so many asks are collected in: one for each worker, the calling thread among them, or for each ask where
/// these are fewer.
fn chunks_for(asks: usize, workers: usize) -> usize
    ensures { result ≡ min asks workers }
{
    asks.min(workers)
}
