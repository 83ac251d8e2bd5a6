//! How the requests of a round are collected: workers submit them to an intake, each with a seat of its own, and what they
//! submitted is taken once all seats are one again.

ghost use Rattle.std.specs.Prelude.{◌≡◌, ◌+◌, ◌≤◌, length, replicate, IfOk, OnOk, option_map};
ghost use Rattle.us_flows.specs.Tables.{Tables};
ghost use Rattle.us_intake.specs.Seats.{first_seat};
ghost use Rattle.us_requests.specs.Cuts.{cut_of};
ghost use Rattle.us_requests.specs.Traces.{max_asked, max_asks};
ghost use Rattle.us_replay.specs.Collecting as spec;

use crate::doers::Doers;
use std::alloc::Global;
use std::marker::Model;
use us_intake::{Intake, MAX_CLUSTERS, Seat};
use us_requests::Ask;
use us_slots::NoMemory;

mod seats;
mod submitting;

pub(crate) use seats::{join_all, split_all};
pub(crate) use submitting::{Chunk, Submitting, submit_all};

/// The bytes that may be submitted in a run: one more than 1,000,000 rows can name.
const RUN_QUOTA: u64 = 1_048_560_000_001;

/// What collects the requests and marks of a run, and the cut of the last round. With no word it has no seat, and after
/// want of memory none any more. Between rounds the seat is whole, and all that was submitted was taken.
#[derive(Drop)]
pub(crate) struct Collector<'a> {
    cut: Vec<u64>,

    // the asks of the last round: only words that these name have something in the cut
    last: &'a [Ask],

    intake: Option<&'a Intake>,
    seat: Option<Seat>,
}

impl<'a> Model for Collector<'a> {
    ghost use Rattle.std.specs.Prelude.{length, option_map};
    ghost use Rattle.us_replay.specs.Collecting.{AreSettled, Collector, IsTold, collected_by};

    ghost Value = { Collector };

    ghost view = { λ c. record { cut = c.cut.items; collected = collected_by c.seat } };

    ghost invariant = { λ c. AreSettled (length c.cut.items) (option_map (λ i. i.now) c.intake) c.seat
        × IsTold c.last.now c.cut.items };
}

impl<'a> Collector<'a> {
    /// Before round 0 of so many words, with what was opened for them.
    pub(crate) fn open(
        alloc: Global,
        clusters: usize,
        intake: Option<&'a Intake>,
        seat: Option<Seat>,
    ) -> Result<Collector<'a>, NoMemory>
        requires { spec.AreOpen clusters (option_map (λ i. i.now) intake) seat }
        ensures { IfOk result (λ c. c ≡ spec.opening_collector clusters) }
    {
        let cut = vec![in alloc; 0; clusters]?;
        Ok(Collector {
            cut,
            last: &[],
            intake,
            seat,
        })
    }

    /// Has the asks of the next round collected. After want of memory nothing is said of what stands here.
    pub(crate) fn collect<D: Doers<'a>>(
        &mut self,
        alloc: Global,
        asks: &'a [Ask],
        doers: &mut D,
    ) -> Result<(), NoMemory>
        requires asks { spec.AreAsks (length self.old.cut) asks.now }
        requires few { length asks.now ≤ max_asks }
        requires room { self.old.collected + spec.chunk_quota asks.now ≤ max_asked }
        ensures collected { OnOk result (self.new ≡ spec.with_asks self.old asks.now) }
        ensures same { (t : Tables) → D.knows doers.old t → D.knows doers.new t }
    {
        clear(&mut self.cut, self.last);
        self.last = asks;
        if asks.is_empty() {
            return Ok(());
        }
        // With no word nobody asks, so where there is no seat, memory was wanting before.
        let (Some(intake), Some(seat)) = (self.intake, self.seat.take()) else {
            return Err(NoMemory);
        };
        let mut seat = doers.gather(alloc, intake, seat, asks)?;
        take_asked(intake, &mut seat, asks, &mut self.cut);
        self.seat = Some(seat);
        Ok(())
    }

    /// What is newly told by each word.
    pub(crate) fn cut(&self) -> &[u64]
        ensures { result.now ≡ self.now.cut }
    {
        &self.cut
    }
}

/// Clears a cut in which only words that these asks name have something: no other word is looked at.
fn clear(cut: &mut Vec<u64>, asks: &[Ask])
    requires { spec.IsTold asks.now cut.old.items }
    ensures { cut.new.items ≡ replicate (length cut.old.items) 0 }
{
    for ask in asks {
        cut[usize::from(ask.cluster)] = 0;
    }
}

/// Takes what was submitted for these asks out of an intake, into a cut that is clear: by one `swap` for each ask, of the word
/// that it names. All else was taken before, so other words hold nothing, nor does a word that is named again.
fn take_asked(intake: &Intake, seat: &mut Seat, asks: &[Ask], cut: &mut Vec<u64>)
    requires own { seat.old.intake ≡ intake.now }
    requires clear { cut.old.items ≡ replicate intake.now.clusters 0 }
    requires due { spec.IsDue seat.old asks.now }
    ensures cut { cut.new.items ≡ cut_of intake.now.clusters asks.now }
    ensures seat { seat.new ≡ spec.seat_after_takes seat.old asks.now }
{
    for ask in asks {
        cut[usize::from(ask.cluster)] += intake.take(seat, ask.cluster);
    }
}

/// Opens what the requests and marks of so many words are collected with: none where there are no words.
pub(crate) fn open_intake(
    alloc: Global,
    clusters: usize,
) -> Result<(Option<Intake>, Option<Seat>), NoMemory>
    requires { clusters ≤ MAX_CLUSTERS }
    ensures { IfOk result (λ opened. spec.AreOpen clusters opened.0 opened.1) }
{
    if clusters == 0 {
        return Ok((None, None));
    }
    let (intake, seat) = open_for(alloc, clusters as u16)?;
    Ok((Some(intake), Some(seat)))
}

/// Opens an intake for the words that there are, and its first seat.
fn open_for(alloc: Global, clusters: u16) -> Result<(Intake, Seat), NoMemory>
    requires some { 1 ≤ clusters }
    requires most { clusters ≤ MAX_CLUSTERS }
    ensures { IfOk result (λ opened. (opened.0.clusters ≡ clusters) × (opened.0.quota ≡ spec.run_quota)
        × (opened.1 ≡ first_seat opened.0)) }
{
    match Intake::open(alloc, clusters, RUN_QUOTA) {
        Ok(opened) => Ok(opened),
        Err(_) => Err(NoMemory),
    }
}
