ghost use Rattle.std.specs.Prelude.{◌≡◌, ◌↔◌, true, false, length, Err, IfOk};
ghost use Rattle.us_slots.specs.Devices.{TookAtMost};
ghost use Rattle.us_flows.specs.Tables.{rounds_fit};
ghost use Rattle.us_flows.specs.Lawful.{AreTables};
ghost use Rattle.us_requests.specs.Traces.{TraceAsks, IsMost, IsTrace, asks_in};
ghost use Rattle.us_requests.specs.Readings.{AreRequests, Answers, Reads, max_bytes};
ghost use Rattle.us_requests.specs.Outcomes.{units_of, IsFiled};
ghost use Rattle.us_requests.specs.declared.faults.TraceFault.TheVariants as fault;

use crate::asks::{Ask, Counts};
use crate::by_round::AsksByRound;
use crate::faults::TraceFault;
use crate::filing::Filed;
use crate::known_sids::{found_of, known_sids};
use crate::outcomes::outcome_of;
use crate::requests::Request;
use crate::texts::requests_in;
use std::alloc::{AllocError, Global};
use std::marker::Model;
use us_flows::Config;
use us_slots::{Source, read_all};

/// The most bytes of a trace.
pub const MAX_TRACE_BYTES: usize = 33_554_432;

/// The requests of a trace as what they ask for, by round, and how many of its requests are no asks.
#[derive(Debug, Drop)]
pub struct Trace {
    rounds: u32,
    asks: AsksByRound,
    counts: Counts,
}

impl Model for Trace {
    ghost Value = { TraceAsks };

    ghost view = { λ t. record { rounds = t.rounds; asks = t.asks; counts = t.counts } };

    ghost invariant = { λ t. IsTrace (record { rounds = t.rounds; asks = t.asks; counts = t.counts }) };
}

impl Trace {
    /// Reads a trace for a run of so many rounds: first all bytes of `source`, then its records. The faults are TR1 to
    /// TR6, in the order of [`TraceFault`]. Where more bytes were taken than a trace may have, it answers TR4, and never
    /// want of memory.
    pub fn read<R: Source>(
        alloc: Global,
        source: &mut R,
        config: &Config,
        rounds: u32,
    ) -> Result<Trace, TraceFault>
        requires fits { rounds_fit config.now rounds ≡ true }
        requires ready { R.failed source.old ≡ false }
        ensures read { Reads config.now rounds (R.remaining source.old) result }
        ensures taken { result ≡ Err fault.Read →
            TookAtMost max_bytes (R.remaining source.old) (R.remaining source.new) }
        ensures wanting { result ≡ Err fault.NoMemory →
            TookAtMost max_bytes (R.remaining source.old) (R.remaining source.new) }
        ensures failed { (R.failed source.new ≡ true) ↔ (result ≡ Err fault.Read) }
    {
        let text = read_all(alloc, source, MAX_TRACE_BYTES)?;
        Trace::of_text(alloc, text, config, rounds)
    }

    /// The asks of a round in the order of the trace; none from [`Trace::rounds`] on.
    pub fn asks(&self, round: u32) -> &[Ask]
        ensures value { result.now ≡ asks_in self.now round }
        ensures lawful { IsTrace self.now }
    {
        self.asks.of_round(round)
    }

    /// The most asks of a round.
    pub fn most_asks(&self) -> usize
        ensures { IsMost (λ round. length (asks_in self.now round)) result }
    {
        self.asks.most()
    }

    /// How many requests are no asks.
    pub fn counts(&self) -> Counts
        ensures value { result ≡ self.now.counts }
        ensures lawful { IsTrace self.now }
    {
        self.counts
    }

    /// The rounds of the run.
    pub fn rounds(&self) -> u32
        ensures value { result ≡ self.now.rounds }
        ensures lawful { IsTrace self.now }
    {
        self.rounds
    }

    /// The trace that a text tells. The text is given up once its records are read, and these once they are filed.
    fn of_text(
        alloc: Global,
        text: Vec<u8>,
        config: &Config,
        rounds: u32,
    ) -> Result<Trace, TraceFault>
        ensures { Answers config.now rounds text.items result }
    {
        let requests = requests_in(alloc, &text)?;
        drop(text);
        let filed = file_all(alloc, &requests, config, rounds)?;
        drop(requests);
        let Filed { asks, counts } = filed;
        Ok(Trace {
            rounds,
            asks: AsksByRound::new(alloc, asks)?,
            counts,
        })
    }
}

/// Files the requests of a trace for a run of so many rounds.
fn file_all(
    alloc: Global,
    requests: &[Request],
    config: &Config,
    rounds: u32,
) -> Result<Filed, AllocError>
    requires { AreRequests requests.now }
    ensures filed { IfOk result (λ filed. IsFiled config.now rounds requests.now filed.asks.items filed.counts) }
    ensures lawful { AreTables config.now }
{
    let units = units_of(alloc, config)?;
    let mut known = known_sids(alloc, config)?;
    let mut filed = Filed::new(alloc);
    for request in requests {
        let found = found_of(config, &mut known, request.channel, request.sid);
        filed.add(outcome_of(config, &units, rounds, request, found))?;
    }
    Ok(filed)
}

/// The bytes of a unit of the requests by each word; 0 by the words of a flow's activity.
fn units_of(alloc: Global, config: &Config) -> Result<Vec<u8>, AllocError>
    ensures value { IfOk result (λ v. v.items ≡ units_of config.now) }
    ensures lawful { AreTables config.now }
{
    let mut units = Vec::new(alloc);
    for flow in config.flows() {
        units.resize(units.len() + flow.words(), flow.unit())?;
    }
    Ok(units)
}
