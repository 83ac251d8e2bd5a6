ghost use Rattle.std.specs.Prelude.{◌≡◌, false};

use std::alloc::{AllocError, Global};
use std::io::{self, ErrorKind, Read};
use std::process::Abort;
use us_flows::Config;
use us_requests::{Trace, TraceFault};
use us_slots::{FromRead, Source};

/// A trace that is read, and what is answered.
pub(super) struct Case<'a> {
    pub(super) name: &'a str,
    pub(super) round_ticks: u32,
    pub(super) lead_ticks: u32,
    pub(super) rounds: u32,
    pub(super) reader: Repeated<'a>,
    /// The rounds whose asks are looked at.
    pub(super) looked_at: &'a [u32],
    pub(super) answer: &'a str,
}

/// A reader of a text, then of so many copies of another, and then of a last one, behind which may be a fault. It gives
/// at most `piece` bytes a call, and counts its calls.
#[derive(Clone, Copy, Drop)]
pub(super) struct Repeated<'a> {
    pub(super) text: &'a [u8],
    pub(super) repeated: &'a [u8],
    pub(super) left: u32,
    pub(super) last: &'a [u8],
    pub(super) piece: usize,
    pub(super) fails: bool,
    pub(super) reads: usize,
}

impl<'a> Read for Repeated<'a> {
    fn read(&mut self, buf: &mut [u8]) -> io::Result<usize> {
        self.reads = self.reads.saturating_add(1);
        if self.text.is_empty() && self.left > 0 {
            self.text = self.repeated;
            self.left -= 1;
        } else if self.text.is_empty() {
            self.text = self.last;
            self.last = &[];
        }
        let count = self.text.len().min(self.piece).min(buf.len());
        if count == 0 && self.fails {
            return Err(io::Error::from(ErrorKind::BrokenPipe));
        }
        buf[..count].copy_from_slice(&self.text[..count]);
        self.text = &self.text[count..];
        Ok(count)
    }
}

/// The header, and no request.
pub(super) const HEADER: Repeated<'static> = Repeated {
    text: b"tick,channel,sid,units\n",
    repeated: b"",
    left: 0,
    last: b"",
    piece: usize::MAX,
    fails: false,
    reads: 0,
};

/// A run of 4 rounds.
pub(super) const BASE: Case<'static> = Case {
    name: "no requests",
    round_ticks: 320,
    lead_ticks: 160,
    rounds: 4,
    reader: HEADER,
    looked_at: &[],
    answer: "reads: 2, 4 rounds, [0, 0, 0]",
};

/// Two channels, with minislots of a tick, and no reserves, so that they may have short rounds. Flow 1 has a cluster, of word
/// 0. Flow 2 tells its activity, by words 1 and 2, and flow 3 has two clusters. Flow 4 has unsolicited grants, and no word.
/// Flows 5 and 6 are polled, and have two clusters each, of which those of flow 6 are on both channels. Flow 7, of channel 2,
/// has a SID that flow 1 has too. Flow 8 tells its activity, by words 10 and 11.
fn tables() -> &'static str {
    "
[[channel]]
id = 1
minislot_log2 = 0
rate_log2 = 5
ucd_count = 0
ranging_backoff = [2, 6]
data_backoff = [3, 8]
request_minislots = 2
contention_minislots = 0
maintenance_minislots = 0
maintenance_every = 1
station_minislots = 4
long = { bits = 4, preamble = 24, guard = 8, fec_t = 0, fec_k = 200, shortened = false }
short = { bits = 4, preamble = 24, guard = 8, fec_t = 0, fec_k = 200, shortened = false, max_minislots = 10 }
unsolicited = { bits = 4, preamble = 24, guard = 8, fec_t = 0, fec_k = 200, shortened = false }

[[channel]]
id = 2
minislot_log2 = 0
rate_log2 = 5
ucd_count = 0
ranging_backoff = [2, 6]
data_backoff = [3, 8]
request_minislots = 2
contention_minislots = 0
maintenance_minislots = 0
maintenance_every = 1
station_minislots = 4
long = { bits = 4, preamble = 24, guard = 8, fec_t = 0, fec_k = 200, shortened = false }
short = { bits = 4, preamble = 24, guard = 8, fec_t = 0, fec_k = 200, shortened = false, max_minislots = 10 }
unsolicited = { bits = 4, preamble = 24, guard = 8, fec_t = 0, fec_k = 200, shortened = false }

[[flow]]
id = 1
type = 2
channels = [1]
clusters = [[291]]
priority = 0
rate = 0
burst = 3044
unit = 4
headers = true

[[flow]]
id = 2
type = 5
channels = [1]
clusters = [[710]]
start_us = 0
interval_us = 20000
jitter_us = 500
grant_bytes = 64
grants_per_interval = 1

[[flow]]
id = 3
type = 2
channels = [1]
clusters = [[500], [501]]
priority = 3
rate = 0
burst = 3044
unit = 16
headers = true

[[flow]]
id = 4
type = 6
channels = [1]
clusters = [[700]]
start_us = 0
interval_us = 20000
jitter_us = 500
grant_bytes = 64
grants_per_interval = 1

[[flow]]
id = 5
type = 3
channels = [1]
clusters = [[600], [601]]
priority = 0
rate = 0
burst = 3044
unit = 2
headers = true
start_us = 0
interval_us = 10000
jitter_us = 500

[[flow]]
id = 6
type = 4
channels = [2, 1]
clusters = [[800, 801], [802, 803]]
priority = 1
rate = 0
burst = 3044
unit = 8
headers = true
start_us = 0
interval_us = 10000
jitter_us = 500

[[flow]]
id = 7
type = 2
channels = [2]
clusters = [[291]]
priority = 0
rate = 0
burst = 3044
unit = 1
headers = false

[[flow]]
id = 8
type = 5
channels = [1]
clusters = [[711]]
start_us = 0
interval_us = 20000
jitter_us = 500
grant_bytes = 64
grants_per_interval = 1
"
}

/// Reads the trace of each case, and compares what is answered.
pub(super) fn compare(
    rt: &impl Abort,
    alloc: Global,
    cases: &[Case<'_>],
) -> Result<(), AllocError> {
    for case in cases {
        let answer = answer_of(alloc, case)?;
        same(rt, case.name, answer.as_str(), case.answer);
    }
    Ok(())
}

/// The one comparison of these tests.
pub(super) fn same(rt: &impl Abort, name: &str, found: &str, wanted: &str) {
    assert!(rt; found == wanted, "{name}: {found}");
}

/// What is answered: how often the source was asked; and the fault, or the rounds, the counts and the asks of the rounds that
/// are looked at.
pub(super) fn answer_of(alloc: Global, case: &Case<'_>) -> Result<String, AllocError> {
    let mut source = FromRead::new(case.reader);
    let found = trace_of(
        alloc,
        [case.round_ticks, case.lead_ticks],
        case.rounds,
        &mut source,
    );
    let reads = source.into_inner().reads;
    match found {
        Ok(trace) => told(alloc, reads, &trace, case.looked_at),
        Err(TraceFault::NoMemory) => Err(AllocError),
        Err(fault) => format!(in alloc; "reads: {reads}, {fault}"),
    }
}

/// The trace of a source, of so many rounds, with these ticks of a round and of the lead. A fault of the configuration,
/// which no case has, is answered as want of memory too.
pub(super) fn trace_of(
    alloc: Global,
    ticks: [u32; 2],
    rounds: u32,
    source: &mut FromRead<Repeated<'_>>,
) -> Result<Trace, TraceFault>
    requires { source.old.failed ≡ false }
{
    let tables = tables();
    let [round, lead] = ticks;
    let text = format!(in alloc; "round_ticks = {round}\nlead_ticks = {lead}\n{tables}")?;
    if let Ok(config) = Config::read(alloc, text.as_bytes()) {
        if config.rounds_fit(rounds) {
            return Trace::read(alloc, source, &config, rounds);
        }
    }
    Err(TraceFault::NoMemory)
}

/// The rounds, the requests that are unknown, not requestable and late, and of the rounds that are looked at the number of
/// asks and the first ones.
fn told(
    alloc: Global,
    reads: usize,
    trace: &Trace,
    looked_at: &[u32],
) -> Result<String, AllocError> {
    let (rounds, counts) = (trace.rounds(), trace.counts());
    let counts = [counts.unknown, counts.not_requestable, counts.late];
    let mut answer = format!(in alloc; "reads: {reads}, {rounds} rounds, {counts:?}")?;
    for round in looked_at {
        let asks = trace.asks(*round);
        let first = &asks[..asks.len().min(7)];
        write!(answer, "; {round}: {} {first:?}", asks.len())?;
    }
    Ok(answer)
}
