ghost use Rattle.std.specs.Prelude.{◌≤◌, ◌↔◌, IfOk, IsOk, IsTrue};
ghost use Rattle.us_bucket.specs.Levels.{Has};
ghost use Rattle.us_bucket.specs.Allowances.{Limit, AreLawful, IsLimitedTo};

use crate::buckets::{Bucket, MAX_REFILL_TICKS};
use crate::events::Event;

/// More was credited than the bound allows.
#[derive(Clone, Copy, Debug, PartialEq, Eq)]
pub struct OverBound;

/// How many bytes a flow may be granted after these events: the greatest number that, credited now, keeps the bound
/// over every span of rounds; `None` where the rate is 0 and there is no limit. [`OverBound`] just where there is a limit
/// and the credits of the events do not keep the bound themselves.
///
/// The `rate` is in bit/s, the `burst` in bytes, and a round has `round_ticks` ticks of 6.25 microseconds, at most
/// [`MAX_REFILL_TICKS`].
pub fn allowance(
    rate: u32,
    burst: u32,
    round_ticks: u32,
    events: &[Event],
) -> Result<Option<u64>, OverBound>
    requires { round_ticks ≤ MAX_REFILL_TICKS }
    ensures lawful { let limit : Limit = record { rate = rate; burst = burst; round_ticks = round_ticks } in
        IsOk result ↔ AreLawful limit events.now }
    ensures allowed { let limit : Limit = record { rate = rate; burst = burst; round_ticks = round_ticks } in
        IfOk result (IsLimitedTo limit events.now) }
{
    let mut bucket = Bucket::full(rate, burst);
    for event in events {
        match event {
            Event::NextRound => bucket.refill(round_ticks),
            Event::Credit(bytes) => {
                if !has(&bucket, *bytes) {
                    return Err(OverBound);
                }
                bucket.spend(*bytes);
            }
        }
    }
    Ok(bucket.bytes())
}

/// Whether a bucket has so many bytes.
fn has(bucket: &Bucket, bytes: u64) -> bool
    ensures { IsTrue result ↔ Has bucket.now bytes }
{
    match bucket.bytes() {
        Some(most) => bytes <= most,
        None => true,
    }
}
