ghost use Rattle.std.specs.Prelude.{◌≡◌, ◌≤◌, ◌∷◌, ◌++◌, [], true, List, IfOk};
ghost use Rattle.us_flows.specs.Tables.{rounds_fit};
ghost use Rattle.us_flows.specs.Clusters.{table_order};
ghost use Rattle.us_requests.specs.Traces.{TraceAsks};
ghost use Rattle.us_output.specs.declared.rows.Grant.{Grant};
ghost use Rattle.us_credit_rules.specs.Requests as spec;

use crate::buckets::{FlowAccount, RunTime, full_flows, take_credit};
use crate::ledgers::Ledger;
use crate::repeats::Repeats;
use crate::seats::Seats;
use std::alloc::{AllocError, Global};
use us_flows::Config;
use us_requests::Trace;
use us_round::Grant;

/// What lines of requests come to, told one after another in the order of rounds.
#[derive(Drop)]
pub(crate) struct Requests {
    /// The latest of their rounds.
    pub(crate) latest: u64,
    /// What words ask for and clusters are credited,
    pub(crate) ledger: Ledger,
    /// what is left in the buckets of flows, by their places,
    pub(crate) flows: Vec<FlowAccount>,
    /// and which line isn't right.
    pub(crate) repeats: Repeats,
}

impl Requests {
    /// Before all lines.
    pub(crate) fn new(alloc: Global, config: &Config) -> Result<Requests, AllocError>
        ensures kept { IfOk result (λ none. (v : TraceAsks) → rounds_fit config.now v.rounds ≡ true →
            spec.AreRequests config.now v [] none) }
        ensures latest { IfOk result (λ none. none.latest ≡ 0) }
    {
        let ledger = Ledger::new(alloc, config.clusters())?;
        let flows = full_flows(alloc, config.flows())?;
        let repeats = Repeats::new(alloc, config.clusters())?;
        Ok(Requests {
            latest: 0,
            ledger,
            flows,
            repeats,
        })
    }

    /// A line more.
    #[inline(never)]
    pub(crate) fn take(&mut self, config: &Config, trace: &Trace, seats: &Seats, grant: &Grant)
        requires due { self.old.latest ≤ grant.now.round }
        requires seats { seats.now ≡ table_order config.now }
        requires told { (grants : List Grant) × spec.AreRequests config.now trace.now grants self.old }
        ensures kept { (grants : List Grant) → spec.AreRequests config.now trace.now grants self.old →
            spec.AreRequests config.now trace.now (grants ++ grant.now ∷ []) self.new }
        ensures latest { self.new.latest ≡ grant.now.round }
    {
        let time = RunTime {
            rounds: trace.rounds(),
            round_ticks: config.round_ticks(),
        };
        let seat = seats.find(grant.id, grant.i);
        let place = seats.flow(grant.id, seat);
        take_credit(&mut self.flows, time, place, grant);
        self.ledger.take(trace, seat, grant);
        self.repeats.take(config.channels(), seat, grant);
        self.latest = grant.round;
    }
}
