ghost use Rattle.std.specs.Prelude.{◌≤◌, ◌↔◌, IfOk, IsOk};
ghost use Rattle.us_bucket.specs.Allowances.{Limit, AreLawful, IsReserve};

use crate::allowances::{OverBound, allowance};
use crate::buckets::MAX_REFILL_TICKS;
use crate::events::Event;

/// How many bytes are reserved of a flow after these events, each credit of which is what was planned first: the
/// greatest number that, planned first now, keeps the bound of the minimum rate over every span of rounds; 0 where that rate
/// is 0. [`OverBound`] just where there is a minimum rate and what was planned doesn't keep the bound itself.
///
/// The `min_rate` is in bit/s, the `burst` in bytes, and a round has `round_ticks` ticks of 6.25 microseconds, at most
/// [`MAX_REFILL_TICKS`].
pub fn reserve(
    min_rate: u32,
    burst: u32,
    round_ticks: u32,
    events: &[Event],
) -> Result<u64, OverBound>
    requires { round_ticks ≤ MAX_REFILL_TICKS }
    ensures lawful { let limit : Limit = record { rate = min_rate; burst = burst; round_ticks = round_ticks } in
        IsOk result ↔ AreLawful limit events.now }
    ensures reserved { let limit : Limit = record { rate = min_rate; burst = burst; round_ticks = round_ticks } in
        IfOk result (IsReserve limit events.now) }
{
    match allowance(min_rate, burst, round_ticks, events) {
        Ok(Some(bytes)) => Ok(bytes),
        Ok(None) => Ok(0),
        Err(over) => Err(over),
    }
}
