ghost use Rattle.std.specs.Prelude.{◌≡◌, ◌+◌, ◌≤◌, length, IfOk, OnOk, option_map};
ghost use Rattle.std.specs.List.{AllByRecursion};
ghost use Rattle.us_flows.specs.Tables.{Tables};
ghost use Rattle.us_requests.specs.Traces.{max_asked, max_asks};
ghost use Rattle.us_output.specs.Lines.{HasFields};
ghost use Rattle.us_output.specs.Outputs.{AreWithinLimits, out_of};
ghost use Rattle.us_replay.specs.Collecting.{AreAsks, AreOpen, chunk_quota};
ghost use Rattle.us_replay.specs.Progress as spec;
ghost use Rattle.us_replay.specs.Progress.{HasRoom, last_rows, summary_after, with_asks, with_last, with_none_left, with_round};

use super::batches::Batch;
use crate::collecting::Collector;
use crate::doers::Doers;
use crate::summaries::Summary;
use std::alloc::Global;
use std::marker::Model;
use us_intake::{Intake, Seat};
use us_output::{LineTally, TextBuffers};
use us_requests::{Ask, Counts};
use us_round::{RoundDone, Row, State, TraceCounts};
use us_slots::NoMemory;

/// What a replay keeps from one round to the next beside the state: what collects requests, what is to be sent next, and how many lines there were.
#[derive(Drop)]
pub(crate) struct Progress<'a> {
    collector: Collector<'a>,
    batch: Batch,
    tally: LineTally,
    buffers: TextBuffers,
}

impl<'a> Model for Progress<'a> {
    ghost Value = { spec.Progress };

    ghost view = { λ p. record {
      cut = p.collector.cut;
      collected = p.collector.collected;
      batch = p.batch;
      granted = p.tally.granted;
      missed = p.tally.missed;
    } };
}

impl<'a> Progress<'a> {
    /// Before round 0 of so many words, with what was opened for them.
    pub(crate) fn opening(
        alloc: Global,
        clusters: usize,
        intake: Option<&'a Intake>,
        seat: Option<Seat>,
    ) -> Result<Progress<'a>, NoMemory>
        requires { AreOpen clusters (option_map (λ i. i.now) intake) seat }
        ensures { IfOk result (λ p. p ≡ spec.opening_progress clusters) }
    {
        Ok(Progress {
            collector: Collector::open(alloc, clusters, intake, seat)?,
            batch: Batch::new(alloc)?,
            tally: LineTally {
                granted: 0,
                missed: 0,
            },
            buffers: TextBuffers::new(alloc),
        })
    }

    /// Has the asks of the next round collected. After want of memory nothing is said of what stands here.
    pub(crate) fn take_asks<D: Doers<'a>>(
        &mut self,
        alloc: Global,
        asks: &'a [Ask],
        doers: &mut D,
    ) -> Result<(), NoMemory>
        requires asks { AreAsks (length self.old.cut) asks.now }
        requires few { length asks.now ≤ max_asks }
        requires room { self.old.collected + chunk_quota asks.now ≤ max_asked }
        ensures collected { OnOk result (self.new ≡ with_asks self.old asks.now) }
        ensures same { (t : Tables) → D.knows doers.old t → D.knows doers.new t }
    {
        self.collector.collect(alloc, asks, doers)
    }

    /// What is newly told by each word.
    pub(crate) fn cut(&self) -> &[u64]
        ensures { result.now ≡ self.now.cut }
    {
        self.collector.cut()
    }

    /// Makes all that is to be sent of a round. After want of memory nothing is said of what stands here.
    // `with_round` is closed elsewhere: only here is it what the calls below make.
    #[tactic(auto, unfolding(crate::specs::Progress::with_round))]
    pub(crate) fn take_round(&mut self, made: &RoundDone) -> Result<(), NoMemory>
        requires { AreWithinLimits made.now.state.tables made.now.scheduled →
            HasRoom self.old (length (out_of made.now.state.tables made.now.scheduled).rows) }
        ensures progress { OnOk result (self.new ≡
            with_round self.old (out_of made.now.state.tables made.now.scheduled)) }
        ensures limits { OnOk result (AreWithinLimits made.now.state.tables made.now.scheduled) }
        ensures fields { OnOk result (AllByRecursion HasFields
            (out_of made.now.state.tables made.now.scheduled).rows) }
    {
        self.batch
            .push_round(made, &mut self.buffers, &mut self.tally)
    }

    /// Makes the end of the report, of the state after all rounds. After want of memory nothing is said of what stands
    /// here.
    // `with_last` is closed elsewhere, as `with_round` is.
    #[tactic(auto, unfolding(crate::specs::Progress::with_last))]
    pub(crate) fn take_last(
        &mut self,
        alloc: Global,
        state: &State,
        counts: Counts,
    ) -> Result<(), NoMemory>
        ensures progress { OnOk result (self.new ≡ with_last self.old state.now counts) }
        ensures fields { OnOk result (AllByRecursion HasFields (last_rows state.now counts)) }
    {
        let Ok(mut rows) = state.finals(alloc) else {
            return Err(NoMemory);
        };
        rows.push(Row::Counts(TraceCounts {
            unknown: u64::from(counts.unknown),
            not_requestable: u64::from(counts.not_requestable),
            late: u64::from(counts.late),
        }))?;
        self.batch.push_last(&rows, &mut self.buffers)
    }

    /// What is to be sent next.
    pub(crate) fn batch(&self) -> &Batch
        ensures { result.now ≡ self.now.batch }
    {
        &self.batch
    }

    /// Begins the next batch.
    pub(crate) fn begin_batch(&mut self)
        ensures { self.new ≡ with_none_left self.old }
    {
        self.batch.clear();
    }

    /// What the replay did, where so many rounds were made of a trace with these counts.
    pub(crate) fn summary(&self, rounds: u32, counts: Counts) -> Summary
        ensures { result ≡ summary_after self.now rounds counts }
    {
        Summary {
            rounds,
            granted: self.tally.granted,
            missed: self.tally.missed,
            unknown: counts.unknown,
            not_requestable: counts.not_requestable,
            late: counts.late,
        }
    }
}
