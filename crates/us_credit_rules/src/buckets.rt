ghost use Rattle.std.specs.Prelude.{◌≡◌, ◌≤◌, ◌<◌, ◌-◌, ◌*◌, length, map, nat_lt, if◌then◌else◌, IfOk, IfSome};
ghost use Rattle.us_credit_rules.specs.Buckets as spec;

use std::alloc::{AllocError, Global};
use us_bucket::Bucket;
use us_flows::Flow;
use us_round::Grant;

/// How long a run is.
#[derive(Clone, Copy)]
pub(crate) struct RunTime {
    /// Its rounds.
    pub(crate) rounds: u32,
    /// The ticks of a round.
    pub(crate) round_ticks: u32,
    ghost some: { 0 < rounds },
    ghost fits: { rounds * round_ticks ≤ 67108864 },
}

/// What is kept of a flow.
#[derive(Clone, Copy)]
pub(crate) struct FlowAccount {
    /// Its bucket,
    bucket: Bucket,
    /// the same without all that it has,
    empty: Bucket,
    /// and the round as of which it stands.
    as_of: u32,
    /// The round of the first credit whose bytes the bucket lacked.
    short: Option<u32>,
}

impl FlowAccount {
    /// That of a flow with this rate and burst before all rounds.
    pub(crate) fn full(rate: u32, burst: u32) -> FlowAccount
        ensures { result ≡ spec.full_account rate burst }
    {
        let bucket = Bucket::full(rate, burst);
        let mut empty = bucket;
        empty.spend(u64::from(burst));
        FlowAccount {
            bucket,
            empty,
            as_of: 0,
            short: None,
        }
    }

    /// A credit more takes its bytes from the bucket, or all that it has.
    fn credit(&mut self, time: RunTime, round: u32, bytes: u64)
        requires { round < time.rounds }
        ensures { self.new ≡ spec.with_bytes time.round_ticks round bytes self.old }
    {
        self.bucket = self.level_in(time, round);
        self.as_of = round;
        if has(&self.bucket, bytes) {
            self.bucket.spend(bytes);
            return;
        }
        self.bucket = self.empty;
        if self.short.is_none() {
            self.short = Some(round);
        }
    }

    /// The round of the first credit whose bytes the bucket lacked.
    pub(crate) fn short(&self) -> Option<u32>
        ensures { result ≡ self.now.short }
    {
        self.short
    }

    /// The units that are left in the bucket in the last round; `None` at a rate of 0.
    pub(crate) fn left(&self, time: RunTime) -> Option<u64>
        ensures { result ≡ spec.units_of time.round_ticks (time.rounds - 1) self.now }
    {
        self.level_in(time, time.rounds - 1).units()
    }

    /// The bucket in the round as of which it stands, or in a later one.
    fn level_in(&self, time: RunTime, round: u32) -> Bucket
        requires { round < time.rounds }
        ensures { result ≡ spec.level_in time.round_ticks self.now.as_of self.now.bucket round }
    {
        let mut bucket = self.bucket;
        if self.as_of == round {
            return bucket;
        }
        bucket.refill(round.saturating_sub(self.as_of) * time.round_ticks);
        bucket
    }
}

/// The account of the flow at a place; that of no flow where there is none.
pub(crate) fn account_of(flows: &[FlowAccount], place: usize) -> FlowAccount
    ensures { result ≡ spec.account_of flows.now place }
{
    if place < flows.len() {
        return flows[place];
    }
    FlowAccount::full(0, 0)
}

/// The accounts of flows before all rounds.
pub(crate) fn full_flows(alloc: Global, flows: &[Flow]) -> Result<Vec<FlowAccount>, AllocError>
    ensures { IfOk result (λ accounts. accounts.items ≡ map (λ flow. spec.full_account flow.rate flow.burst) flows.now) }
{
    let mut accounts = Vec::new(alloc);
    for flow in flows {
        accounts.push(FlowAccount::full(flow.rate(), flow.burst()))?;
    }
    Ok(accounts)
}

/// A line more, which is of no earlier round than those before. It credits the flow at this place.
pub(crate) fn take_credit(
    flows: &mut [FlowAccount],
    time: RunTime,
    place: Option<usize>,
    grant: &Grant,
)
    requires { IfSome place (λ place. place < length flows.old) }
    ensures { flows.new ≡ (if nat_lt grant.now.round time.rounds
        then spec.credited_at time.round_ticks grant.now place flows.old else flows.old) }
{
    if grant.round >= u64::from(time.rounds) {
        return;
    }
    if let Some(place) = place {
        flows[place].credit(time, grant.round as u32, grant.credit);
    }
}

/// Whether a bucket has so many bytes.
fn has(bucket: &Bucket, bytes: u64) -> bool
    ensures { result ≡ spec.has bucket.now bytes }
{
    match bucket.bytes() {
        Some(most) => bytes <= most,
        None => true,
    }
}
