ghost use Rattle.std.specs.Prelude.{◌≡◌, ◌∷◌, ◌++◌, [], true, List, IfOk};
ghost use Rattle.us_flows.specs.Tables.{rounds_fit};
ghost use Rattle.us_output.specs.declared.rows.Row.{Row};
ghost use Rattle.us_credit_rules.specs.CreditLines as spec;

use crate::requests::Requests;
use crate::seats::Seats;
use crate::talkers::Talkers;
use crate::told::{Tellings, Told};
use std::alloc::Global;
use us_flows::Config;
use us_requests::Trace;
use us_round::{EntryWord, FinalState, Row, TraceCounts};
use us_slots::NoMemory;

/// What is kept of the lines of a report, told one after another.
pub struct CreditLines<'a> {
    /// The clusters that make requests, in table order.
    pub(crate) seats: Seats<'a>,
    /// What lines of requests come to.
    pub(crate) requests: Requests,
    /// What F lines tell of clusters, by their words,
    pub(crate) finals: Tellings<FinalState>,
    /// what A lines tell of flows that tell their activity,
    pub(crate) talkers: Talkers,
    /// and what U lines tell.
    pub(crate) counts: Told<TraceCounts>,
}

/// Gives it up. It is written out so that it is one step wherever it ends.
impl<'a> Drop for CreditLines<'a> {
    fn drop(self) {
        let CreditLines {
            seats: _,
            requests: _,
            finals: _,
            talkers: _,
            counts: _,
        } = self;
    }
}

impl<'a> CreditLines<'a> {
    /// Before all lines.
    pub fn new(
        alloc: Global,
        config: &'a Config,
        trace: &Trace,
    ) -> Result<CreditLines<'a>, NoMemory>
        requires { rounds_fit config.now trace.now.rounds ≡ true }
        ensures { IfOk result (λ none. spec.AreKept config.now trace.now [] none × (none.requests.latest ≡ 0)) }
    {
        let seats = Seats::new(alloc, config)?;
        let requests = Requests::new(alloc, config)?;
        let finals = Tellings::new(alloc, config.clusters())?;
        let talkers = Talkers::new(alloc, config)?;
        Ok(CreditLines {
            seats,
            requests,
            finals,
            talkers,
            counts: Told::Nothing,
        })
    }

    /// Whether a line may be told next: it is of no request, or of no earlier round than the requests before it.
    #[inline(always)]
    pub fn is_due(&self, line: &Row) -> bool
        ensures { result ≡ spec.is_due self.now.requests.latest line.now }
    {
        match line {
            Row::Granted(grant) if grant.entry == EntryWord::Requested => {
                self.requests.latest <= grant.round
            }
            _ => true,
        }
    }

    /// A line more.
    #[inline(always)]
    pub fn take(&mut self, config: &Config, trace: &Trace, line: &Row)
        requires due { spec.is_due self.old.requests.latest line.now ≡ true }
        requires kept { (lines : List Row) × spec.AreKept config.now trace.now lines self.old }
        ensures kept { (lines : List Row) → spec.AreKept config.now trace.now lines self.old →
            spec.AreKept config.now trace.now (lines ++ line.now ∷ []) self.new }
        ensures latest { self.new.requests.latest ≡ spec.latest_behind self.old.requests.latest line.now }
    {
        match line {
            Row::Granted(grant) => {
                if grant.entry == EntryWord::Requested {
                    self.requests.take(config, trace, &self.seats, grant);
                }
            }
            Row::Final(state) => {
                let cluster = self.seats.word(state.flow, state.cluster);
                self.finals.take(
                    config.channels(),
                    trace.rounds(),
                    state.flow,
                    cluster,
                    *state,
                );
            }
            Row::Activity(activity) => {
                self.talkers
                    .take(config.channels(), trace.rounds(), *activity);
            }
            Row::Counts(counts) => self.counts = self.counts.and(*counts),
            Row::Missed(_) => {}
        }
    }
}
