ghost use Rattle.std.specs.Prelude.{◌≡◌, length, map, IfOk};
ghost use Rattle.us_flows.specs.Clusters.{makes_requests, has_intervals, tells_activity, words_in};
ghost use Rattle.us_flows.specs.Tables.{FlowTable};

use std::alloc::{AllocError, Global};
use std::marker::Model;

/// The words that tell a flow's activity: that it is silent, and that it is active.
const ACTIVITY_WORDS: usize = 2;

/// How a service flow is scheduled (the standard's scheduling types).
#[derive(Clone, Copy, Debug, PartialEq, Eq)]
pub enum SchedulingType {
    /// Type 2: it makes requests, and has no grant without one.
    BestEffort,
    /// Type 3: it makes requests, and is polled for them now and then.
    NonRealTimePolling,
    /// Type 4: it makes requests, and is polled for them in time for what it carries.
    RealTimePolling,
    /// Type 5: it has grants of one size at intervals while it is active, and polls while it is silent. It tells when it
    /// falls silent and when it is active again, and makes no requests.
    ActivityDetection,
    /// Type 6: it has grants of one size at intervals, and makes no requests.
    UnsolicitedGrant,
}

impl SchedulingType {
    /// Whether its flows make requests: all but those with unsolicited grants.
    pub fn makes_requests(self) -> bool
        ensures value { result ≡ makes_requests self }
    {
        match self {
            SchedulingType::BestEffort
            | SchedulingType::NonRealTimePolling
            | SchedulingType::RealTimePolling => true,
            SchedulingType::ActivityDetection | SchedulingType::UnsolicitedGrant => false,
        }
    }

    /// Whether its flows are polled, or have unsolicited grants, at intervals: all but those of best effort.
    pub fn has_intervals(self) -> bool
        ensures value { result ≡ has_intervals self }
    {
        self != SchedulingType::BestEffort
    }

    /// Whether its flows tell when they fall silent, and when they are active again.
    pub fn tells_activity(self) -> bool
        ensures value { result ≡ tells_activity self }
    {
        self == SchedulingType::ActivityDetection
    }
}

/// A service flow of the table. What its scheduling type has no key for is 0, or false.
pub struct Flow {
    pub(crate) id: u16,
    pub(crate) kind: SchedulingType,
    pub(crate) channels: Vec<u8>,
    pub(crate) clusters: Vec<Vec<u16>>,
    pub(crate) priority: u8,
    pub(crate) rate: u32,
    pub(crate) burst: u32,
    pub(crate) min_rate: u32,
    pub(crate) unit: u8,
    pub(crate) headers: bool,
    pub(crate) start_us: u32,
    pub(crate) interval_us: u32,
    pub(crate) jitter_us: u32,
    pub(crate) grant_bytes: u16,
    pub(crate) grants_per_interval: u8,
}

impl Model for Flow {
    ghost Value = { FlowTable };

    ghost view = { λ f. record {
      id = f.id;
      kind = f.kind;
      channels = f.channels.items;
      clusters = map (λ sids. sids.items) f.clusters.items;
      priority = f.priority;
      rate = f.rate;
      burst = f.burst;
      min_rate = f.min_rate;
      unit = f.unit;
      headers = f.headers;
      start_us = f.start_us;
      interval_us = f.interval_us;
      jitter_us = f.jitter_us;
      grant_bytes = f.grant_bytes;
      grants_per_interval = f.grants_per_interval;
    } };
}

/// Gives the flow up. It is written out so that it is one step wherever a flow ends.
impl Drop for Flow {
    fn drop(self) {
        let Flow {
            id: _,
            kind: _,
            channels: _,
            clusters: _,
            priority: _,
            rate: _,
            burst: _,
            min_rate: _,
            unit: _,
            headers: _,
            start_us: _,
            interval_us: _,
            jitter_us: _,
            grant_bytes: _,
            grants_per_interval: _,
        } = self;
    }
}

impl Flow {
    /// The same flow in memory of its own.
    pub(crate) fn copy(&self, alloc: Global) -> Result<Flow, AllocError>
        ensures { IfOk result (λ copy. copy ≡ self.now) }
    {
        let channels = Vec::from_slice(alloc, &self.channels)?;
        let clusters = copied(alloc, &self.clusters)?;
        Ok(Flow {
            id: self.id,
            kind: self.kind,
            channels,
            clusters,
            priority: self.priority,
            rate: self.rate,
            burst: self.burst,
            min_rate: self.min_rate,
            unit: self.unit,
            headers: self.headers,
            start_us: self.start_us,
            interval_us: self.interval_us,
            jitter_us: self.jitter_us,
            grant_bytes: self.grant_bytes,
            grants_per_interval: self.grants_per_interval,
        })
    }

    /// The number of the flow, 1 to 65,535.
    pub fn id(&self) -> u16
        ensures value { result ≡ self.now.id }
    {
        self.id
    }

    /// How it is scheduled.
    pub fn kind(&self) -> SchedulingType
        ensures value { result ≡ self.now.kind }
    {
        self.kind
    }

    /// The ids of its channels.
    pub fn channels(&self) -> &[u8]
        ensures value { result.now ≡ self.now.channels }
    {
        &self.channels
    }

    /// Its SID clusters, each with a SID for each of its channels in order.
    pub fn clusters(&self) -> &[Vec<u16>]
        ensures value { map (λ sids. sids.items) result.now ≡ self.now.clusters }
    {
        &self.clusters
    }

    /// How many words it has: one for each cluster that makes requests, or two that tell its activity.
    pub fn words(&self) -> usize
        ensures value { result ≡ length (words_in self.now) }
    {
        if self.kind.tells_activity() {
            ACTIVITY_WORDS
        } else if self.kind.makes_requests() {
            self.clusters.len()
        } else {
            0
        }
    }

    /// The traffic priority, 0 to 7; a higher number goes first. 0 for unsolicited grants.
    pub fn priority(&self) -> u8
        ensures value { result ≡ self.now.priority }
    {
        self.priority
    }

    /// The maximum sustained rate in bit/s, 0 for no limit.
    pub fn rate(&self) -> u32
        ensures value { result ≡ self.now.rate }
    {
        self.rate
    }

    /// The maximum burst in bytes, 1 to 16,777,216; 0 for unsolicited grants.
    pub fn burst(&self) -> u32
        ensures value { result ≡ self.now.burst }
    {
        self.burst
    }

    /// The minimum reserved rate in bit/s, at most the maximum sustained rate where that is a limit; 0 for none.
    pub fn min_rate(&self) -> u32
        ensures value { result ≡ self.now.min_rate }
    {
        self.min_rate
    }

    /// The bytes of a unit of a request: 1, 2, 4, 8 or 16; 0 for unsolicited grants.
    pub fn unit(&self) -> u8
        ensures value { result ≡ self.now.unit }
    {
        self.unit
    }

    /// Whether each requested grant carries a segment header.
    pub fn headers(&self) -> bool
        ensures value { result ≡ self.now.headers }
    {
        self.headers
    }

    /// When its first interval begins, in microseconds, 0 to 10,000,000; 0 for best effort.
    ///
    /// A flow that is polled has one poll in each interval, and one with unsolicited grants has so many of them. One that
    /// tells its activity has either.
    pub fn start_us(&self) -> u32
        ensures value { result ≡ self.now.start_us }
    {
        self.start_us
    }

    /// How long each interval is, in microseconds, 100 to 10,000,000; 0 for best effort.
    pub fn interval_us(&self) -> u32
        ensures value { result ≡ self.now.interval_us }
    {
        self.interval_us
    }

    /// How late a poll or a grant may start in its interval, in microseconds, below the interval; 0 for best effort.
    pub fn jitter_us(&self) -> u32
        ensures value { result ≡ self.now.jitter_us }
    {
        self.jitter_us
    }

    /// The bytes of an unsolicited grant, 1 to 65,535; 0 for other types.
    pub fn grant_bytes(&self) -> u16
        ensures value { result ≡ self.now.grant_bytes }
    {
        self.grant_bytes
    }

    /// How many unsolicited grants an interval has, 1 to 127; 0 for other types.
    pub fn grants_per_interval(&self) -> u8
        ensures value { result ≡ self.now.grants_per_interval }
    {
        self.grants_per_interval
    }
}

/// The same lists in memory of their own.
fn copied(alloc: Global, lists: &[Vec<u16>]) -> Result<Vec<Vec<u16>>, AllocError>
    ensures { IfOk result (λ copies. map (λ sids. sids.items) copies.items ≡ map (λ sids. sids.items) lists.now) }
{
    let mut copies = Vec::new(alloc);
    for sids in lists {
        copies.push(Vec::from_slice(alloc, sids)?)?;
    }
    Ok(copies)
}
